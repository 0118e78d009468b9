//! The ids of a table's fields name each slot once, or are wrong.
ghost use Rattle.std.specs.Prelude.{◌≡◌, ◌<◌, ◌-◌, ◌^◌, IfOk, IfSome, IsSome, map, true, false};
ghost use Rattle.std.specs.Prelude.{◌⊎◌, None, Some, not};
ghost use Rattle.fb_resolve.specs.declared.ids.WrongIds.TheVariants.{Twice};
ghost use Rattle.std.specs.List.{position};
ghost use Rattle.std.specs.Option.{is_some};
ghost use Rattle.fb_resolve.specs.SlotsRead.{union_in};
ghost use Rattle.fb_resolve.specs.Ids.{slot_by_id, has_no_slot, numbers_by_id, are_places, IsWrongNumber, AreWrongBy};
ghost use Rattle.fb_resolve.specs.Ids.{have_ids, AreSlots, are_ids_wrong, slots_by_id, slots_read, AreInPlace};
ghost use Rattle.fb_schema.specs.Seen.{field_seen};

use crate::resolved::{ResolvedField, ResolvedTable};
use crate::slots::{push_slots, slot_count, slots_in_order, union_in};
use fb_schema::FieldInfo;
use std::alloc::{AllocError, Global};

/// Why the ids of a table's fields don't name each of its slots once.
#[derive(Clone, Copy, Debug, PartialEq, Eq, Drop)]
pub enum WrongIds {
    /// The field at this place in the table is the first whose id gives it no slot: it has no id, or one that is no
    /// number from 0 on, or it is a union and its id is 0.
    NoSlot(usize),
    /// More than one field takes this slot.
    Twice(u64),
    /// No field takes this slot, and the fields take more slots than its number.
    Missing(u64),
}

/// The slots that the fields of a table take.
#[derive(Clone, Copy, Drop)]
pub(crate) enum Slots {
    /// Without ids they are numbered in the order of declaration.
    InOrder,
    /// The ids name each once.
    ById,
    /// The ids don't name each once.
    Wrong(WrongIds),
}

/// The first slot of a field by its id, which is that of its value.
#[tactic(auto, unfolding(crate::specs::Ids::slot_by_id))]
fn slot_by_id(resolved: &ResolvedField<'_, '_>) -> Option<u64>
    ensures slot { result ≡ slot_by_id resolved.now }
    ensures room { IsSome (union_in resolved.now) → IfSome result (λ s. s < 2 ^ 64 - 1) }
{
    match union_in(resolved) {
        None => resolved.attributes.id,
        Some(_) => resolved.attributes.id?.checked_sub(1),
    }
}

/// The place of the first field whose id gives it no slot.
fn first_without_slot(fields: &[ResolvedField<'_, '_>]) -> Option<usize>
    ensures { result ≡ position has_no_slot fields.now }
{
    fields.iter().position(|field| slot_by_id(field).is_none())
}

/// The numbers of the slots that fields take by their ids.
#[tactic(auto, unfolding(crate::specs::SlotsRead::slots_of_field))]
fn numbers_by_id(alloc: Global, fields: &[ResolvedField<'_, '_>]) -> Result<Vec<u64>, AllocError>
    ensures { IfOk result (λ v. v.items ≡ numbers_by_id fields.now) }
{
    let mut numbers = Vec::with_capacity(alloc, fields.len())?;
    for field in fields {
        let first = slot_by_id(field).unwrap_or(0);
        numbers.push(first)?;
        if union_in(field).is_some() {
            numbers.push(first + 1)?;
        }
    }
    Ok(numbers)
}

/// The first place that isn't taken.
fn first_free(taken: &[bool]) -> Option<usize>
    ensures { result ≡ position not taken.now }
{
    taken.iter().position(|taken| !*taken)
}

/// The number that was met twice first, after one more, which was met before or not.
fn first_twice(twice: Option<WrongIds>, again: bool, number: u64) -> Option<WrongIds>
    ensures { (result ≡ twice) ⊎ ((again ≡ true) × (result ≡ Some (Twice number))) }
{
    match twice {
        None if again => Some(WrongIds::Twice(number)),
        _ => twice,
    }
}

/// What keeps numbers from being 0, 1, .. without gap or repeat, in any order.
fn wrong_number(alloc: Global, numbers: &[u64]) -> Result<Option<WrongIds>, AllocError>
    ensures right { IfOk result (λ found. found ≡ None → are_places numbers.now ≡ true) }
    ensures wrong { IfOk result (λ found. IfSome found (IsWrongNumber numbers.now)) }
{
    let mut taken = vec![in alloc; false; numbers.len()]?;
    let mut twice = None;
    for number in numbers {
        let place = *number as usize;
        if place < taken.len() {
            twice = first_twice(twice, taken[place], *number);
            taken[place] = true;
        }
    }
    let Some(free) = first_free(taken.as_slice()) else {
        return Ok(None);
    };
    Ok(Some(twice.unwrap_or(WrongIds::Missing(free as u64))))
}

fn have_ids(fields: &[ResolvedField<'_, '_>]) -> bool
    ensures { result ≡ have_ids fields.now }
{
    fields.iter().any(|field| field.attributes.has_id)
}

impl Slots {
    /// The slots of fields. The only error is a refused allocation.
    #[tactic(auto, unfolding(crate::specs::Ids::are_ids_wrong))]
    pub(crate) fn of(alloc: Global, fields: &[ResolvedField<'_, '_>]) -> Result<Slots, AllocError>
        ensures { IfOk result (AreSlots fields.now) }
    {
        if !have_ids(fields) {
            return Ok(Slots::InOrder);
        }
        if let Some(place) = first_without_slot(fields) {
            return Ok(Slots::Wrong(WrongIds::NoSlot(place)));
        }
        let numbers = numbers_by_id(alloc, fields)?;
        Ok(match wrong_number(alloc, numbers.as_slice())? {
            Some(wrong) => Slots::Wrong(wrong),
            None => Slots::ById,
        })
    }
}

/// Why a table's fields have ids that don't name each of its slots once, if they have.
#[tactic(auto, unfolding(crate::specs::Ids::are_ids_wrong))]
pub fn wrong_ids(table: &ResolvedTable<'_, '_>) -> Option<WrongIds>
    ensures why { IfSome result (AreWrongBy table.now.fields) }
    ensures wrong { is_some result ≡ are_ids_wrong table.now.fields }
{
    match table.slots {
        Slots::Wrong(wrong) => Some(wrong),
        _ => None,
    }
}

/// The slots of a table, each at the place of its number. The only error is a refused allocation.
#[tactic(auto, using(crate::proofs::InOrder::placed_in_order))]
pub fn table_slots(
    alloc: Global,
    table: ResolvedTable<'_, '_>,
) -> Result<Vec<FieldInfo>, AllocError>
    requires { are_ids_wrong table.fields ≡ false }
    ensures { IfOk result (λ v. AreInPlace (slots_read table.entry.fields) (map field_seen v.items)) }
{
    match table.slots {
        Slots::InOrder => slots_in_order(alloc, table.fields),
        Slots::ById => {
            let mut slots = Vec::with_capacity(alloc, slot_count(table.fields.as_slice()))?;
            for field in table.fields {
                let first = slot_by_id(&field).unwrap_or(0);
                push_slots(alloc, field, first, &mut slots)?;
            }
            slots.sort_by_key(|slot| slot.slot)?;
            Ok(slots)
        }
        Slots::Wrong(_) => unreachable!(),
    }
}
