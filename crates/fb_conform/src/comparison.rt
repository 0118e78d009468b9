//! Whether a schema may follow another, and how the two differ.
ghost use Rattle.std.specs.Prelude.{◌↔◌, IsOk, IfOk, IfErr, Contains, AllPairs};
ghost use Rattle.fb_conform.specs.declared.breaches.Breach.{Breach};
ghost use Rattle.fb_conform.specs.declared.difference.Difference.{Difference};
ghost use Rattle.fb_conform.specs.Conforms.{Conforms, Stands};
ghost use Rattle.fb_conform.specs.Differences.{Differs, ComesBefore};
ghost use Rattle.fb_conform.specs.Order.{IsBefore, IsFirst};

use crate::breaches::Breach;
use crate::difference::Difference;
use crate::hearers::FirstBreach;
use crate::walk::walk;
use fb_layout::Layout;
use std::alloc::{AllocError, Global};

/// Whether the new schema conforms to the old one: what was written under the old one is read under the
/// new one, and what is written under the new one is read by old programs.
///
/// The breach that is reported is the first: the root's, the identifier's, then the old types' by number, in
/// a type its slots' by number, and at one place the one of the lowest number.
pub fn conform(old: &Layout, new: &Layout) -> Result<(), Breach>
    ensures exact { IsOk result ↔ Conforms old.now new.now }
    ensures first { IfErr result (IsFirst old.now new.now) }
{
    walk(&mut FirstBreach, old, new)
}

/// Every breach that holds, in the order in which `conform` looks for the first.
pub fn all_breaches(alloc: Global, old: &Layout, new: &Layout) -> Result<Vec<Breach>, AllocError>
    ensures all { IfOk result (λ list. (b : Breach) → Contains list.items b ↔ Stands old.now new.now b) }
    ensures order { IfOk result (λ list. AllPairs IsBefore list.items) }
{
    let mut found: Vec<Breach> = Vec::new(alloc);
    walk(&mut found, old, new)?;
    Ok(found)
}

/// Every breach that holds and every moved name: the root's and the identifier's breaches, then for each old type its
/// breaches and its moved names, both by slot.
pub fn differences(alloc: Global, old: &Layout, new: &Layout) -> Result<Vec<Difference>, AllocError>
    ensures all { IfOk result (λ list. (d : Difference) → Contains list.items d ↔ Differs old.now new.now d) }
    ensures order { IfOk result (λ list. AllPairs ComesBefore list.items) }
{
    let mut found: Vec<Difference> = Vec::new(alloc);
    walk(&mut found, old, new)?;
    Ok(found)
}
