//! Members by the numbers of their slots.
ghost use Rattle.std.specs.Prelude.{◌≡◌, ◌<◌, [], None, Some, length, replicate, set, slice_get, IfOk};

use serde_json::Value as Json;
use std::alloc::{AllocError, Global};
use std::marker::Model;

/// The members of many slots. Each slot has the number of its member among those that were found, which takes half the
/// memory of a reference that may be missing.
#[derive(Drop)]
pub(crate) struct NumberedMembers<'t> {
    // Each slot's, from 1 on, or 0 where it has no member.
    numbers: Vec<usize>,
    found: Vec<&'t Json>,
}

impl<'t> Model for NumberedMembers<'t> {
    ghost use Rattle.std.specs.Prelude.{◌≤◌, List, Option, All, length, map};
    ghost use Rattle.std.specs.Borrow.{Bor};
    ghost use Rattle.std.specs.Coded.{codes};
    ghost use Rattle.serde_json.specs.declared.value.Value.{Value as Tree};
    ghost use Rattle.serde_json.specs.contracts.value.Value as json;
    ghost use Rattle.fb_json.specs.SlotMembers.{numbered};

    ghost Value = { List (Option (Bor Tree)) };

    ghost coded = { Prim.hlevel (codes, json.the_row.coded) };

    ghost view = { λ s. map (numbered s.found.items) s.numbers.items };

    ghost invariant = { λ s. All (λ n. n ≤ length s.found.items) s.numbers.items };
}

impl<'t> NumberedMembers<'t> {
    /// No slots.
    pub(crate) fn new(alloc: Global) -> NumberedMembers<'t>
        ensures none { result ≡ [] }
    {
        NumberedMembers {
            numbers: Vec::new(alloc),
            found: Vec::new(alloc),
        }
    }

    /// So many slots without a member, and memory for so many members.
    pub(crate) fn begin(
        &mut self,
        alloc: Global,
        slots: usize,
        members: usize,
    ) -> Result<(), AllocError>
        ensures { IfOk result (λ done. self.new ≡ replicate slots None) }
    {
        self.numbers = vec![in alloc; 0; slots]?;
        self.found = Vec::with_capacity(alloc, members)?;
        Ok(())
    }

    /// The member of a slot, if it has one.
    #[inline(always)]
    pub(crate) fn get(&self, slot: usize) -> Option<&'t Json>
        requires within { slot < length self.now }
        ensures is { slice_get self.now slot ≡ Some result }
    {
        let number = self.numbers[slot];
        if number == 0 {
            return None;
        }
        Some(self.found[number - 1])
    }

    /// Puts a member at its slot, where there is one.
    pub(crate) fn put(&mut self, slot: usize, tree: &'t Json) -> Result<(), AllocError>
        ensures { IfOk result (λ done. self.new ≡ set self.old slot (Some tree.entry)) }
    {
        if slot < self.numbers.len() {
            self.found.push(tree)?;
            self.numbers[slot] = self.found.len();
        }
        Ok(())
    }
}
