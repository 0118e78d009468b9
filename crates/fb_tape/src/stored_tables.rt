//! What is noted of a table that is whole: its fields, and its vtable.
ghost use Rattle.std.specs.Prelude.{ℕ, ◌≡◌, ◌≤◌, ◌+◌, ◌-◌, ◌*◌, List, length, drop, map, max};
ghost use Rattle.std.specs.Prelude.{replicate, Option, OnOk, IfOk};
ghost use Rattle.fb_schema.specs.Alignments.{greatest_in};
ghost use Rattle.fb_layout.specs.Sizes.{ceil4};
ghost use Rattle.fb_layout.specs.Laid.{LaidSchema, Slot};
ghost use Rattle.fb_value.specs.Datum.{Datum};
ghost use Rattle.fb_tape.specs.LayingOrder.{laying_order};
ghost use Rattle.fb_tape.specs.StoredTables.{taken_by, taken, in_order, notes_of, bytes_of, AreStored, AddsNotes};
ghost use Rattle.fb_tape.specs.StoredTables.{put_number};
ghost use Rattle.fb_tape.specs.Vtables.{vtable_with, vtable_of, trimmed, offsets_from};

use crate::laying_order::note_fields;
use crate::open_fields::OpenFields;
use crate::ops::NotedField;
use std::alloc::{AllocError, Global};

/// The bytes that a field takes in its table.
pub(crate) fn size_of(note: NotedField) -> u16
    ensures { result ≡ taken_by note }
{
    match note {
        NotedField::Reference => 4,
        NotedField::Inline(size) => size,
    }
}

/// The bytes that a table's fields take, and what their end is aligned to.
#[derive(Clone, Copy)]
pub(crate) struct FieldsExtent {
    size: u16,
    align: u16,
}

/// That of these fields.
fn extent_of(opened: &OpenFields, first: usize) -> FieldsExtent
    requires within { first ≤ length opened.now }
    requires small { taken (drop first opened.now) ≤ 65528 }
    ensures size { result.size ≡ taken (drop first opened.now) }
    ensures align { result.align ≡ max 4 (greatest_in (map (λ x. x.align) (drop first opened.now))) }
{
    let mut size = 0;
    let mut align = 4u16;
    for i in first..opened.len() {
        let field = opened.field(i);
        size += size_of(field.note);
        align = align.max(field.align);
    }
    FieldsExtent { size, align }
}

/// How many slots there are up to the last that is stored.
fn slots_used(opened: &OpenFields, first: usize) -> usize
    requires within { first ≤ length opened.now }
    requires some { (L : LaidSchema) × (fs : List Slot) × (xs : List (Option Datum))
        × AreStored L fs xs (drop first opened.now) }
    ensures { (L : LaidSchema) (fs : List Slot) (xs : List (Option Datum)) → AreStored L fs xs (drop first opened.now)
        → result ≡ length (trimmed (offsets_from L fs xs 0 fs xs)) }
{
    if opened.len() == first {
        return 0;
    }
    usize::from(opened.field(opened.len() - 1).slot) + 1
}

/// A table's vtable while its fields are noted: its size, how many bytes those take that are noted so far, and the
/// vtable's bytes, which tell where they stand.
#[derive(Drop)]
pub(crate) struct Offsets {
    pub(crate) size: u16,
    pub(crate) laid: u16,
    pub(crate) vtable: Vec<u8>,
}

impl Offsets {
    /// Those of no table.
    pub(crate) fn new(alloc: Global) -> Offsets {
        Offsets {
            size: 0,
            laid: 0,
            vtable: Vec::new(alloc),
        }
    }

    /// Begins those of a table whose fields take so many bytes and are in so many slots.
    fn begin(&mut self, fields_size: u16, slots: usize) -> Result<(), AllocError>
        requires small { fields_size ≤ 65528 }
        requires few { slots ≤ 32765 }
        ensures laid { self.new.laid ≡ 0 }
        ensures size { self.new.size ≡ 4 + ceil4 fields_size }
        ensures begun { OnOk result (self.new.vtable.items ≡ vtable_with self.new.size (replicate slots 0)) }
    {
        self.size = 4 + (fields_size + 3) / 4 * 4;
        self.laid = 0;
        let long = 4 + 2 * slots;
        set_zeros(&mut self.vtable, long)?;
        put_u16(&mut self.vtable, 0, long as u16);
        put_u16(&mut self.vtable, 2, self.size);
        Ok(())
    }

    /// Tells where the field of a slot stands, which was laid last.
    pub(crate) fn tell(&mut self, slot: u16)
        requires laid { self.old.laid ≤ self.old.size }
        requires room { 6 + 2 * slot ≤ length self.old.vtable.items }
        ensures size { self.new.size ≡ self.old.size }
        ensures laid { self.new.laid ≡ self.old.laid }
        ensures long { length self.new.vtable.items ≡ length self.old.vtable.items }
        ensures told { self.new.vtable.items
            ≡ put_number self.old.vtable.items (4 + 2 * slot) (self.old.size - self.old.laid) }
    {
        put_u16(
            &mut self.vtable,
            4 + 2 * usize::from(slot),
            self.size - self.laid,
        );
    }
}

/// Makes of bytes so many zeros.
fn set_zeros(bytes: &mut Vec<u8>, count: usize) -> Result<(), AllocError>
    ensures zeros { OnOk result (bytes.new.items ≡ replicate count 0) }
{
    bytes.truncate(0);
    bytes.resize(count, 0)
}

/// Writes a number of two bytes at a place.
fn put_u16(bytes: &mut Vec<u8>, at: usize, number: u16)
    requires room { at + 2 ≤ length bytes.old.items }
    ensures put { bytes.new.items ≡ put_number bytes.old.items at number }
    ensures long { length bytes.new.items ≡ length bytes.old.items }
{
    let [low, high] = number.to_le_bytes();
    bytes[at + 1] = high;
    bytes[at] = low;
}

/// Notes the fields of a table in the order of laying, and writes its vtable. Returns what their end is aligned to.
pub(crate) fn note_table(
    notes: &mut Vec<NotedField>,
    bytes: &mut Vec<u8>,
    offsets: &mut Offsets,
    opened: &OpenFields,
    first: usize,
) -> Result<u16, AllocError>
    requires within { first ≤ length opened.now }
    requires some { (L : LaidSchema) × (fs : List Slot) × (xs : List (Option Datum))
        × AreStored L fs xs (drop first opened.now) }
    ensures grown { length bytes.old.items ≤ length bytes.new.items }
    ensures notes { OnOk result ((L : LaidSchema) (fs : List Slot) (xs : List (Option Datum))
        → AreStored L fs xs (drop first opened.now) → AddsNotes L fs xs (laying_order L fs xs) notes.old.items
        notes.new.items bytes.old.items bytes.new.items (notes_of (in_order (drop first opened.now)))
        (bytes_of (in_order (drop first opened.now)))) }
    ensures vtable { OnOk result ((L : LaidSchema) (fs : List Slot) (xs : List (Option Datum))
        → AreStored L fs xs (drop first opened.now) → offsets.new.vtable.items ≡ vtable_of L fs xs) }
    ensures align { IfOk result (λ align. align
        ≡ max 4 (greatest_in (map (λ x. x.align) (drop first opened.now)))) }
{
    let extent = extent_of(opened, first);
    let slots = slots_used(opened, first);
    offsets.begin(extent.size, slots)?;
    note_fields(notes, bytes, offsets, opened, first, extent.align)?;
    Ok(extent.align)
}
