//! Sets of names, found by a hash under the key of the text that has them.
ghost use Rattle.std.specs.Prelude.{◌≡◌, ◌++◌, ◌∷◌, [], List, IfOk, map};
ghost use Rattle.fb_schema.specs.Schema.{Name};
ghost use Rattle.fb_declare.specs.FaultRows.{is_among};
ghost use Rattle.fb_declare.specs.NameSet.{is_met, AreMet};

use fb_index::HashKey;
use indexmap::IndexSet;
use std::alloc::{AllocError, Global};

/// A set of names: those that a loop has met, or the attributes that a text declares.
#[derive(Drop)]
pub(crate) struct NameSet<'n> {
    names: IndexSet<&'n str, HashKey>,
}

impl<'n> NameSet<'n> {
    /// No names, with room for so many. The only error is a refused allocation.
    pub(crate) fn new(alloc: Global, key: HashKey, count: usize) -> Result<NameSet<'n>, AllocError>
        ensures { IfOk result (λ met. AreMet met []) }
    {
        let names = IndexSet::with_capacity_and_hasher(alloc, count, key)?;
        Ok(NameSet { names })
    }

    /// The key of the text.
    pub(crate) fn key(&self) -> HashKey {
        *self.names.hasher()
    }

    /// Whether a name is in it.
    pub(crate) fn contains(&self, name: &str) -> bool
        ensures { result ≡ is_met self.now name.now }
    {
        self.names.contains(name)
    }

    /// Whether a name was met before; it is from now on.
    pub(crate) fn meet(&mut self, name: &'n str) -> Result<bool, AllocError>
        ensures { (before : List Name) → AreMet self.old before → IfOk result
            (λ again. (again ≡ is_among name.now before) × AreMet self.new (before ++ name.now ∷ [])) }
    {
        let is_new = self.names.insert(name)?;
        Ok(!is_new)
    }
}

/// The names of a list. The only error is a refused allocation.
pub(crate) fn names_met<'n>(
    alloc: Global,
    key: HashKey,
    names: &[&'n str],
) -> Result<NameSet<'n>, AllocError>
    ensures { IfOk result (λ met. AreMet met (map (λ name. name.now) names.now)) }
{
    let mut met = NameSet::new(alloc, key, names.len())?;
    for name in names {
        met.meet(name)?;
    }
    Ok(met)
}
