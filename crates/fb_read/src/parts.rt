//! One part of a buffer after another, each by its own rules.
//!
//! A walk checks all that is reached from a place. What is here checks a part and leaves to the caller what
//! the part leads to, so that each may be checked once however often it is reached.
ghost use Rattle.std.specs.Prelude.{◌≡◌, ◌+◌, ◌*◌, ◌<◌, ◌≤◌, ◌^◌, length, IfOk, IfSome};
ghost use Rattle.fb_schema.specs.Alignments.{base_size};
ghost use Rattle.fb_layout.specs.Laid.{stored_kind, struct_kind, size_of};
ghost use Rattle.fb_value.specs.Num.{num, scalar_of};
ghost use Rattle.fb_value.specs.Nth.{slot_place};
ghost use Rattle.fb_value.specs.Places.{table_part, vector_part, part_place, inline_place, vtable, slot_number};
ghost use Rattle.fb_read.specs.Parts.{Judges, JudgesStored};
ghost use Rattle.fb_read.specs.Stored.{stored_at};
ghost use Rattle.fb_read.specs.Walks.{HasVtable};

use crate::kinds::{align_in, size_in};
use crate::numbers::number_at;
use crate::places::slot_of;
use crate::rules::{check_code, check_inline, check_number, enter_table, open_vector};
use crate::stored::{Stored, stored_in};
use crate::walk::TableAt;
use fb_layout::{Layout, layout_is_well_made};
use fb_schema::{Base, Kind, TypeId};
use fb_value::ReadFault;

/// A table of a buffer that keeps its own rules. What its slots lead to may break theirs.
#[derive(Clone, Copy)]
pub struct EnteredTable<'a> {
    pub layout: &'a Layout,
    pub bytes: &'a [u8],
    pub table: TypeId,
    pub(crate) place: TableAt,
    ghost short: { length bytes.now < 2 ^ 31 },
    ghost vtable: { HasVtable bytes.now place },
}

impl<'a> EnteredTable<'a> {
    /// The table at a position, where its own rules hold.
    pub fn enter(
        layout: &'a Layout,
        bytes: &'a [u8],
        table: TypeId,
        at: usize,
    ) -> Result<EnteredTable<'a>, ReadFault>
        requires short { length bytes.now < 2 ^ 31 }
        requires low { at < 2 ^ 33 }
        ensures rules { Judges layout.now bytes.now (part_place (table_part table.0)) at result }
        ensures at { IfOk result (λ entered. entered.place.at ≡ at) }
    {
        let vtable_at = enter_table(layout, table, bytes, at)?;
        Ok(EnteredTable {
            layout,
            bytes,
            table,
            place: TableAt { at, vtable_at },
        })
    }

    /// Where the table begins.
    pub fn at(self) -> usize
        ensures { result ≡ self.entry.place.at }
    {
        self.place.at
    }

    /// Where its vtable begins.
    pub fn vtable_at(self) -> usize
        ensures { result ≡ vtable self.entry.bytes.now self.entry.place.at }
    {
        self.place.vtable_at
    }

    /// The vtable's number for a slot: how far after the table's start its field is, 0 where it is absent.
    pub fn offset_of(self, slot: u16) -> usize
        ensures number { result ≡ slot_number self.entry.bytes.now self.entry.place.at slot }
        ensures small { result < 2 ^ 16 }
    {
        slot_of(
            self.bytes,
            self.place.at,
            self.place.vtable_at,
            usize::from(slot),
        )
    }

    /// What a slot has, by the slot's own rules unchecked; nothing where the table's type has no such slot.
    pub fn stored(self, slot: u16) -> Stored
        ensures low { stored_at result < 2 ^ 33 }
    {
        let slots = self.layout.slots_of(self.table);
        let slot = usize::from(slot);
        if slot >= slots.len() {
            return Stored::Absent(None);
        }
        let (_before, later) = slots.split_at(slot + 1);
        stored_in(
            self.layout,
            self.bytes,
            &slots[slot],
            later,
            self.place,
            slot,
        )
    }
}

/// Whether the struct at a position keeps its rules.
#[tactic(auto, using(crate::proofs::buffer::AlignmentsArePositive::layout_sizes))]
fn check_fixed(layout: &Layout, bytes: &[u8], structure: TypeId, at: usize) -> Result<(), ReadFault>
    requires low { at < 2 ^ 33 }
    ensures rules { Judges layout.now bytes.now (inline_place (struct_kind structure.0)) at result }
{
    layout_is_well_made(layout);
    let kind = Kind::Struct(structure);
    check_inline(bytes, at, layout.size_of(kind), layout.align_of(kind))
}

/// Whether a number, struct or union's code in a slot keeps its rules. A reference's are told by `follow`.
pub fn check_stored(layout: &Layout, bytes: &[u8], stored: Stored) -> Result<(), ReadFault>
    requires low { stored_at stored < 2 ^ 33 }
    ensures rules { JudgesStored layout.now bytes.now stored result }
{
    match stored {
        Stored::Number(base, at) => check_number(bytes, at, base),
        Stored::Fixed(structure, at) => check_fixed(layout, bytes, structure, at),
        Stored::Code(code, at) => check_code(bytes, at, code),
        Stored::Absent(_)
        | Stored::Unknown(_, _)
        | Stored::Text(_)
        | Stored::Table(_, _)
        | Stored::Member(_, _, _)
        | Stored::Vector(_, _) => Ok(()),
    }
}

/// How many elements the vector at a position has, where its own rules hold.
#[tactic(auto, using(crate::proofs::buffer::AlignmentsArePositive::layout_sizes))]
pub fn enter_vector(layout: &Layout, bytes: &[u8], kind: Kind, at: usize) -> Result<u32, ReadFault>
    requires low { at < 2 ^ 33 }
    ensures rules { Judges layout.now bytes.now (part_place (vector_part
        (stored_kind layout.now.schema kind))) at result }
    ensures count { IfOk result (λ n. n ≡ num bytes.now at 4) }
    ensures within { IfOk result (λ n. (at + 4) + n * size_of layout.now (stored_kind layout.now.schema kind)
        ≤ length bytes.now) }
{
    layout_is_well_made(layout);
    open_vector(bytes, at, size_in(layout, kind), align_in(layout, kind))
}

/// The number of a basic type at a position; None where it ends past the bytes.
pub fn number_within(bytes: &[u8], at: usize, base: Base) -> Option<i128>
    ensures { IfSome result (λ n. n ≡ scalar_of base (num bytes.now at (base_size base))) }
{
    let size = usize::from(base.size());
    match bytes.len().checked_sub(size) {
        Some(last) if at <= last => Some(number_at(bytes, at, base)),
        _ => None,
    }
}
