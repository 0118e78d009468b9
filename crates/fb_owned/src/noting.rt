//! Notes values on a tape.
ghost use Rattle.std.specs.Prelude.{ℕ, ◌≡◌, ◌≤◌, ◌<◌, ◌+◌, [], ◌∷◌, Some, true, false, length, map};
ghost use Rattle.std.specs.Prelude.{option_map, OnOk, IfOk};
ghost use Rattle.fb_layout.specs.Laid.{slots_of, one_of, kind_in, align_of, table_kind, union_kind};
ghost use Rattle.fb_layout.specs.Widths.{greatest};
ghost use Rattle.fb_value.specs.Counts.{is_whole, entries_whole, parts_whole};
ghost use Rattle.fb_value.specs.Datum.{a_table, a_vector};
ghost use Rattle.fb_value.specs.Entries.{EntryFits, entry_room};
ghost use Rattle.fb_value.specs.Fits.{Fits, EntriesFit, EachFits};
ghost use Rattle.fb_value.specs.Places.{table_part, vector_part};
ghost use Rattle.fb_value.specs.Room.{room, table_room, vector_room, parts_room, entries_room};
ghost use Rattle.fb_value.specs.Datum.{count};
ghost use Rattle.fb_value.specs.UpTo.{at_most_usize};
ghost use Rattle.fb_value.specs.View.{view, parts_view, entries_view};
ghost use Rattle.fb_tape.specs.NamedParts.{apart_of, entry_apart, entries_apart, elements_apart, as_list};
ghost use Rattle.fb_tape.specs.Tapes.{Waits};
ghost use Rattle.fb_build.specs.Fields.{IsSimple, IsElement, is_reference, entries_seen, slot_seen};
ghost use Rattle.fb_build.specs.Fields.{code_in, shape_seen, kind_seen, slots_seen, stored_seen};
ghost use Rattle.fb_build.specs.Noted.{AddsParts, AddsFields, AddsSlots};
ghost use Rattle.fb_build.specs.Parts.{EntryWhole, TableKnown};

use fb_build::{Noting, is_default, is_reference};
use fb_layout::{Layout, layout_is_well_made};
use fb_schema::{FieldInfo, Kind, Shape, TypeId};
use fb_tape::Tape;
use fb_value::Value;
use std::alloc::{AllocError, Global};

/// Notes a table and what its references name.
#[cycle(noting)]
fn note_table(
    noting: &mut Noting<'_>,
    layout: &Layout,
    table: TypeId,
    entries: &[Option<Value>],
) -> Result<(), AllocError>
    requires layout { noting.old.tape.layout ≡ layout.now }
    requires whole { noting.old.tape.unfinished ≡ [] }
    requires fits { EntriesFit layout.now (slots_of layout.now table.0) (entries_view entries.now) }
    requires known { entries_whole (entries_view entries.now) ≡ true }
    ensures adds { OnOk result (AddsParts noting.old.tape noting.new.tape (record {
      target = table_part table.0;
      value = a_table table.0 (entries_view entries.now);
    } ∷ []) (table_room layout.now table.0
        + entries_room layout.now (slots_of layout.now table.0) (entries_view entries.now))) }
    ensures opened { OnOk result (noting.new.opened ≡ noting.old.opened) }
{
    layout_is_well_made(layout);
    let first = noting.opened.len();
    note_entries(noting, layout, layout.slots_of(table), entries)?;
    noting.tape.close_table(table, &noting.opened, first)?;
    noting.opened.truncate(first);
    Ok(())
}

/// Notes what the slots of a table store, and what their references name.
#[cycle(noting)]
fn note_entries(
    noting: &mut Noting<'_>,
    layout: &Layout,
    slots: &[FieldInfo],
    entries: &[Option<Value>],
) -> Result<(), AllocError>
    requires layout { noting.old.tape.layout ≡ layout.now }
    requires whole { noting.old.tape.unfinished ≡ [] }
    requires few { length slots.now ≤ 32765 }
    requires known { TableKnown layout.now (slots_seen layout.now slots.now) (entries_seen entries.now) }
    ensures adds { OnOk result (AddsParts noting.old.tape noting.new.tape
        (entries_apart (slots_seen layout.now slots.now) (entries_seen entries.now))
        (entries_room layout.now (slots_seen layout.now slots.now) (entries_view entries.now))) }
    ensures slots { OnOk result (AddsSlots layout.now (slots_seen layout.now slots.now)
        (stored_seen layout.now slots.now entries.now) noting.old.opened noting.new.opened) }
{
    for k in 0..slots.len() {
        note_entry(noting, layout, k as u16, &slots[k], &entries[k])?;
    }
    Ok(())
}

/// The code of a union's member.
fn code_of(value: &Value) -> Option<u8>
    ensures { result ≡ code_in (Some (view value.now)) }
{
    match value {
        Value::Member(code, _) => Some(*code),
        _ => None,
    }
}

/// Notes what a slot stores, and what its reference names. A union's code, in the slot before, comes with its value.
#[cycle(noting)]
fn note_entry(
    noting: &mut Noting<'_>,
    layout: &Layout,
    k: u16,
    slot: &FieldInfo,
    entry: &Option<Value>,
) -> Result<(), AllocError>
    requires layout { noting.old.tape.layout ≡ layout.now }
    requires whole { noting.old.tape.unfinished ≡ [] }
    requires simple { IsSimple layout.now (shape_seen layout.now slot.now.shape) }
    requires low { align_of layout.now (kind_in (shape_seen layout.now slot.now.shape)) ≤ greatest layout.now }
    requires fits { EntryFits layout.now (slot_seen layout.now slot.now) (option_map view entry.now) }
    requires known { EntryWhole (option_map view entry.now) }
    requires coded { (u : ℕ) → shape_seen layout.now slot.now.shape ≡ one_of (union_kind u) → 0 < k }
    ensures adds { OnOk result (AddsParts noting.old.tape noting.new.tape
        (as_list (entry_apart (slot_seen layout.now slot.now) (option_map view entry.now)))
        (entry_room layout.now (slot_seen layout.now slot.now) (option_map view entry.now))) }
    ensures fields { OnOk result (AddsFields layout.now k (slot_seen layout.now slot.now) (option_map view entry.now)
        noting.old.opened noting.new.opened) }
{
    let Some(value) = entry else {
        return Ok(());
    };
    if is_reference(slot.shape) {
        if let Some(code) = code_of(value) {
            noting.opened.push_code(k - 1, code)?;
        }
        note_part(noting, layout, slot.shape, value)?;
        noting.opened.push_reference(k)?;
        return Ok(());
    }
    if is_default(slot, value) {
        return Ok(());
    }
    let Shape::One(kind) = slot.shape else {
        unreachable!();
    };
    noting.opened.push_inline(layout, k, kind, value)
}

/// Notes what a reference names.
#[cycle(noting)]
fn note_part(
    noting: &mut Noting<'_>,
    layout: &Layout,
    shape: Shape,
    value: &Value,
) -> Result<(), AllocError>
    requires layout { noting.old.tape.layout ≡ layout.now }
    requires whole { noting.old.tape.unfinished ≡ [] }
    requires reference { is_reference (shape_seen layout.now shape) ≡ true }
    requires simple { IsSimple layout.now (shape_seen layout.now shape) }
    requires low { align_of layout.now (kind_in (shape_seen layout.now shape)) ≤ greatest layout.now }
    requires fits { Fits layout.now (shape_seen layout.now shape) (view value.now) }
    requires known { is_whole (view value.now) ≡ true }
    ensures adds { OnOk result (AddsParts noting.old.tape noting.new.tape
        (as_list (apart_of (shape_seen layout.now shape) (view value.now)))
        (room layout.now (shape_seen layout.now shape) (view value.now))) }
    ensures opened { OnOk result (noting.new.opened ≡ noting.old.opened) }
{
    match (value, shape) {
        (Value::Text(text), _) => noting.tape.push_text(text.as_str()),
        (Value::Fields(table, entries), _) => note_table(noting, layout, *table, entries),
        (Value::Member(_, member), _) => note_member(noting, layout, member),
        (Value::Items(items), Shape::Many(kind)) => note_items(noting, layout, kind, items),
        _ => unreachable!(),
    }
}

/// Notes the table of a union's member.
#[cycle(noting)]
fn note_member(noting: &mut Noting<'_>, layout: &Layout, member: &Value) -> Result<(), AllocError>
    requires layout { noting.old.tape.layout ≡ layout.now }
    requires whole { noting.old.tape.unfinished ≡ [] }
    requires fits { (t : ℕ) × Fits layout.now (one_of (table_kind t)) (view member.now) }
    requires known { is_whole (view member.now) ≡ true }
    ensures adds { (t : ℕ) → Fits layout.now (one_of (table_kind t)) (view member.now)
        → OnOk result (AddsParts noting.old.tape noting.new.tape
        (record { target = table_part t; value = view member.now } ∷ [])
        (room layout.now (one_of (table_kind t)) (view member.now))) }
    ensures opened { OnOk result (noting.new.opened ≡ noting.old.opened) }
{
    match member {
        Value::Fields(table, entries) => note_table(noting, layout, *table, entries),
        _ => unreachable!(),
    }
}

/// Notes a vector and what its elements name.
#[cycle(noting)]
fn note_items(
    noting: &mut Noting<'_>,
    layout: &Layout,
    kind: Kind,
    items: &[Value],
) -> Result<(), AllocError>
    requires layout { noting.old.tape.layout ≡ layout.now }
    requires whole { noting.old.tape.unfinished ≡ [] }
    requires element { IsElement layout.now (kind_seen layout.now kind) }
    requires low { align_of layout.now (kind_seen layout.now kind) ≤ greatest layout.now }
    requires fits { EachFits layout.now (kind_seen layout.now kind) (parts_view items.now) }
    requires known { parts_whole (parts_view items.now) ≡ true }
    ensures adds { OnOk result (AddsParts noting.old.tape noting.new.tape (record {
      target = vector_part (kind_seen layout.now kind);
      value = a_vector (parts_view items.now);
    } ∷ []) (vector_room layout.now (kind_seen layout.now kind) (count (parts_view items.now))
        + parts_room layout.now (kind_seen layout.now kind) (parts_view items.now))) }
    ensures opened { OnOk result (noting.new.opened ≡ noting.old.opened) }
{
    if !is_reference(Shape::One(kind)) {
        note_elements(&mut noting.tape, kind, items)?;
        return Ok(());
    }
    note_targets(noting, layout, kind, items)?;
    noting.tape.push_references(kind, items.len())?;
    Ok(())
}

/// Notes what the elements of a vector name.
#[cycle(noting)]
fn note_targets(
    noting: &mut Noting<'_>,
    layout: &Layout,
    kind: Kind,
    items: &[Value],
) -> Result<(), AllocError>
    requires layout { noting.old.tape.layout ≡ layout.now }
    requires whole { noting.old.tape.unfinished ≡ [] }
    requires reference { is_reference (one_of (kind_seen layout.now kind)) ≡ true }
    requires element { IsElement layout.now (kind_seen layout.now kind) }
    requires low { align_of layout.now (kind_seen layout.now kind) ≤ greatest layout.now }
    requires fits { EachFits layout.now (kind_seen layout.now kind) (parts_view items.now) }
    requires known { parts_whole (parts_view items.now) ≡ true }
    ensures adds { OnOk result (AddsParts noting.old.tape noting.new.tape
        (elements_apart (kind_seen layout.now kind) (map view items.now))
        (parts_room layout.now (kind_seen layout.now kind) (parts_view items.now))) }
    ensures opened { OnOk result (noting.new.opened ≡ noting.old.opened) }
{
    for item in items {
        note_part(noting, layout, Shape::One(kind), item)?;
    }
    Ok(())
}

/// Notes a vector of numbers or structs.
fn note_elements(tape: &mut Tape<'_>, kind: Kind, items: &[Value]) -> Result<(), AllocError>
    requires whole { tape.old.unfinished ≡ [] }
    requires inline { is_reference (one_of (kind_seen tape.old.layout kind)) ≡ false }
    requires element { IsElement tape.old.layout (kind_seen tape.old.layout kind) }
    requires low { align_of tape.old.layout (kind_seen tape.old.layout kind) ≤ greatest tape.old.layout }
    requires fits { EachFits tape.old.layout (kind_seen tape.old.layout kind) (parts_view items.now) }
    ensures adds { OnOk result (AddsParts tape.old tape.new (record {
      target = vector_part (kind_seen tape.old.layout kind);
      value = a_vector (parts_view items.now);
    } ∷ []) (vector_room tape.old.layout (kind_seen tape.old.layout kind) (count (parts_view items.now)))) }
{
    tape.open_vector(kind, items.len())?;
    for item in items {
        tape.push_element(kind, item)?;
    }
    tape.close_vector(kind, items.len())?;
    Ok(())
}

/// The tape of a value of the root table.
pub(crate) fn note_root<'l>(
    alloc: Global,
    layout: &'l Layout,
    table: TypeId,
    entries: &[Option<Value>],
) -> Result<Tape<'l>, AllocError>
    requires fits { EntriesFit layout.now (slots_of layout.now table.0) (entries_view entries.now) }
    requires known { entries_whole (entries_view entries.now) ≡ true }
    ensures layout { IfOk result (λ t. t.layout ≡ layout.now) }
    ensures waits { IfOk result (λ t. Waits t (record {
      target = table_part table.0;
      value = a_table table.0 (entries_view entries.now);
    } ∷ [])) }
    ensures room { IfOk result (λ t. at_most_usize t.room ≡ at_most_usize (table_room layout.now table.0
        + entries_room layout.now (slots_of layout.now table.0) (entries_view entries.now))) }
{
    let mut noting = Noting::with_capacity(alloc, layout)?;
    note_table(&mut noting, layout, table, entries)?;
    let Noting { tape, .. } = noting;
    Ok(tape)
}
