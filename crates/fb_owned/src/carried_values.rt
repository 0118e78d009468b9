//! Values of an old schema under a new one.
ghost use Rattle.std.specs.Prelude.{◌≡◌, ◌≤◌, IfOk, Some, option_map, map};
ghost use Rattle.fb_schema.specs.Schema.{DeclaredSchema};
ghost use Rattle.fb_schema.specs.Seen.{field_seen};
ghost use Rattle.fb_layout.specs.Laid.{slot_of};
ghost use Rattle.fb_value.specs.Counts.{nesting};
ghost use Rattle.fb_value.specs.Datum.{a_number};
ghost use Rattle.fb_value.specs.Fits.{FitsRoot};
ghost use Rattle.fb_value.specs.View.{view, parts_view, entries_view};
ghost use Rattle.fb_conform.specs.Carry.{carry, carry_items, carry_slots};
ghost use Rattle.fb_owned.specs.CarriedEntries.{carried_entry};
ghost use Rattle.fb_conform.specs.Conforms.{Conforms};

use crate::copies::copy_part;
use crate::versions::{Versions, new_numbers};
use fb_layout::Layout;
use fb_schema::{FieldInfo, Kind, Shape};
use fb_value::Value;
use std::alloc::{AllocError, Global};

/// A value of an old schema's root under a new schema that conforms to it.
///
/// New fields have their defaults, and fields that are deprecated now are gone. A struct takes some 0.7
/// KiB of stack for each level of its nesting.
pub fn carry(alloc: Global, old: &Layout, new: &Layout, value: &Value) -> Result<Value, AllocError>
    requires conforms { Conforms old.now new.now }
    requires fits { FitsRoot old.now (view value.now) }
    requires flat { nesting (view value.now) ≤ 300 }
    ensures { IfOk result (λ carried. view carried ≡ carry old.now new.now (view value.now)) }
{
    let numbers = new_numbers(alloc, old, new)?;
    let versions = Versions {
        before: old,
        after: new,
        numbers: numbers.as_slice(),
    };
    carry_in(alloc, versions, value)
}

#[cycle(carry)]
fn carry_in(alloc: Global, versions: Versions, value: &Value) -> Result<Value, AllocError>
    ensures { IfOk result (λ carried. view carried
        ≡ carry versions.entry.before.now versions.entry.after.now (view value.now)) }
{
    match value {
        Value::Items(items) => Ok(Value::Items(carry_parts(alloc, versions, items)?)),
        Value::Fields(type_id, entries) => {
            let new_id = versions.new_number(*type_id);
            let slots = versions.after.slots_of(new_id);
            Ok(Value::Fields(new_id, carry_entries(alloc, versions, slots, entries)?))
        }
        Value::Member(code, member) => {
            let carried = carry_in(alloc, versions, member)?;
            Ok(Value::Member(*code, Box::new(alloc, carried)?))
        }
        Value::Number(_) | Value::Text(_) | Value::Fixed(_) | Value::Other(_) => {
            copy_part(alloc, value)
        }
    }
}

#[cycle(carry)]
fn carry_parts(alloc: Global, versions: Versions, parts: &[Value]) -> Result<Vec<Value>, AllocError>
    ensures { IfOk result (λ carried. parts_view carried.items
        ≡ carry_items versions.entry.before.now versions.entry.after.now (parts_view parts.now)) }
{
    let mut carried = Vec::with_capacity(alloc, parts.len())?;
    for part in parts {
        carried.push(carry_in(alloc, versions, part)?)?;
    }
    Ok(carried)
}

#[cycle(carry)]
fn carry_entries(
    alloc: Global,
    versions: Versions,
    slots: &[FieldInfo],
    entries: &[Option<Value>],
) -> Result<Vec<Option<Value>>, AllocError>
    ensures { IfOk result (λ carried. entries_view carried.items
        ≡ carry_slots versions.entry.before.now versions.entry.after.now
        (map (slot_of versions.entry.after.now.schema) (map field_seen slots.now))
        (entries_view entries.now)) }
{
    let mut carried = Vec::with_capacity(alloc, slots.len())?;
    for (i, slot) in slots.iter().enumerate() {
        let entry = match entries.get(i) {
            Some(entry) => carry_entry(alloc, versions, slot, entry)?,
            None => default_entry(slot),
        };
        carried.push(entry)?;
    }
    Ok(carried)
}

#[cycle(carry)]
fn carry_entry(
    alloc: Global,
    versions: Versions,
    slot: &FieldInfo,
    was: &Option<Value>,
) -> Result<Option<Value>, AllocError>
    ensures { IfOk result (λ carried. option_map view carried
        ≡ carried_entry versions.entry.before.now versions.entry.after.now
        (slot_of versions.entry.after.now.schema (field_seen slot.now))
        (Some (option_map view was.now))) }
{
    match was {
        None => Ok(None),
        Some(value) => {
            if slot.deprecated {
                return Ok(None);
            }
            Ok(Some(carry_in(alloc, versions, value)?))
        }
    }
}

/// What a new slot has.
fn default_entry(slot: &FieldInfo) -> Option<Value>
    ensures { (schema : DeclaredSchema) → option_map view result
        ≡ option_map (λ n. a_number n) (slot_of schema (field_seen slot.now)).if_absent }
{
    if slot.deprecated || slot.optional {
        return None;
    }
    match slot.shape {
        Shape::One(Kind::Scalar(_) | Kind::Enum(_)) => Some(Value::Number(slot.default)),
        _ => None,
    }
}
