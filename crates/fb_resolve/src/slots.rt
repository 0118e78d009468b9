//! The slots that the fields of a table take.
ghost use Rattle.std.specs.Prelude.{◌≡◌, ◌<◌, ◌-◌, ◌++◌, ◌^◌, IfOk, OnOk, IsSome, map, Some, string_bytes};
ghost use Rattle.std.specs.Option.{option_map};
ghost use Rattle.fb_schema.specs.Seen.{field_seen};
ghost use Rattle.fb_resolve.specs.SlotsRead.{union_in, value_slot, name_of_code, code_slot};
ghost use Rattle.fb_resolve.specs.SlotsRead.{IsCodeOf, slots_of_field, slots_in_order};

use crate::defaults::Given;
use crate::meanings::Meaning;
use crate::resolved::{ResolvedField, UnionCodeSlot};
use crate::structs::shape_of;
use fb_schema::{FieldInfo, Kind, Shape, TypeId};
use fb_syntax::{Field, FieldType};
use std::alloc::{AllocError, Global};

fn value_slot(
    alloc: Global,
    resolved: &ResolvedField<'_, '_>,
    slot: u64,
) -> Result<FieldInfo, AllocError>
    ensures { IfOk result
        (λ f. field_seen f ≡ value_slot resolved.now slot) }
{
    let field = resolved.field;
    let meaning = resolved.meaning;
    let default = match resolved.given {
        Given::Number(number) => number,
        Given::Null | Given::Wrong => 0,
    };
    Ok(FieldInfo {
        name: String::from_str(alloc, field.name.text)?,
        shape: shape_of(&field.kind, meaning),
        default,
        optional: matches!(resolved.given, Given::Null),
        required: resolved.attributes.required,
        deprecated: resolved.attributes.deprecated,
        slot,
    })
}

/// Of a union field `x`, the name of its code.
fn name_of_code(alloc: Global, name: &str) -> Result<String, AllocError>
    ensures { IfOk result (λ s. string_bytes s ≡ name_of_code name.now) }
{
    [name, "_type"].concat(alloc)
}

/// The code that comes with a field whose type means this. The only error is a refused allocation.
pub(crate) fn code_of(
    alloc: Global,
    field: &Field<'_>,
    meaning: Meaning,
) -> Result<Option<UnionCodeSlot>, AllocError>
    ensures { IfOk result (IsCodeOf field.now meaning) }
{
    match (&field.kind, meaning) {
        (FieldType::One(_), Meaning::Known(Kind::Union(union))) => {
            let name = name_of_code(alloc, field.name.text)?;
            Ok(Some(UnionCodeSlot { union, name }))
        }
        _ => Ok(None),
    }
}

/// The union of a union's field.
pub fn union_in(resolved: &ResolvedField<'_, '_>) -> Option<TypeId>
    ensures { result ≡ union_in resolved.now }
{
    resolved.code.as_ref().map(|code| code.union)
}

/// The slot of the code of a union's field.
fn code_slot(resolved: ResolvedField<'_, '_>, slot: u64) -> FieldInfo
    requires { IsSome (union_in resolved) }
    ensures { Some (field_seen result)
        ≡ option_map (λ u. code_slot resolved.entry u slot) (union_in resolved.entry) }
{
    let deprecated = resolved.attributes.deprecated;
    let Some(code) = resolved.code else {
        unreachable!()
    };
    FieldInfo {
        name: code.name,
        shape: Shape::One(Kind::Code(code.union)),
        default: 0,
        optional: false,
        required: false,
        deprecated,
        slot,
    }
}

/// Adds the slots of a field from this one on: a union's code comes before its value.
#[tactic(auto, unfolding(crate::specs::SlotsRead::slots_of_field))]
pub(crate) fn push_slots(
    alloc: Global,
    resolved: ResolvedField<'_, '_>,
    slot: u64,
    slots: &mut Vec<FieldInfo>,
) -> Result<(), AllocError>
    requires { IsSome (union_in resolved) → slot < 2 ^ 64 - 1 }
    ensures { OnOk result (map field_seen slots.new.items ≡ map field_seen slots.old.items
        ++ slots_of_field resolved.entry slot) }
{
    let is_union = union_in(&resolved).is_some();
    // made first, since the code's slot takes the field
    let value = value_slot(alloc, &resolved, slot + u64::from(is_union))?;
    if is_union {
        slots.push(code_slot(resolved, slot))?;
    }
    Ok(slots.push(value)?)
}

/// The number of slots that some fields take: two for a union, whose code has one too.
pub(crate) fn slot_count(fields: &[ResolvedField<'_, '_>]) -> usize {
    fields.iter().fold(fields.len(), |count: usize, field| {
        count.saturating_add(usize::from(union_in(field).is_some()))
    })
}

/// The slots of a table without ids, in the order of declaration. The only error is a refused
/// allocation.
#[tactic(auto, unfolding(crate::specs::SlotsRead::slots_in_order))]
pub(crate) fn slots_in_order(
    alloc: Global,
    fields: Vec<ResolvedField<'_, '_>>,
) -> Result<Vec<FieldInfo>, AllocError>
    ensures { IfOk result
        (λ v. map field_seen v.items ≡ slots_in_order 0 fields.entry.items) }
{
    let mut slots = Vec::with_capacity(alloc, slot_count(fields.as_slice()))?;
    for field in fields {
        let slot = slots.len() as u64;
        push_slots(alloc, field, slot, &mut slots)?;
    }
    Ok(slots)
}
