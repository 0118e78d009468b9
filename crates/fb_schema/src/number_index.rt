//! Numbers that are found in few steps.
ghost use Rattle.std.specs.Prelude.{◌≡◌, ◌≢◌, map, position, slice_get, get_or, pos, option_map};
ghost use Rattle.std.specs.Prelude.{AllPairs, IfOk, Some, true};
ghost use Rattle.std.specs.List.{range_with_len};
ghost use Rattle.std.specs.Ordering.{int_cmp, int_eq};
ghost use Rattle.fb_schema.specs.Seen.{type_seen};
ghost use Rattle.fb_schema.specs.Indexed.{HasNumbers, IndexesNumbers, IsInOrder};

use crate::finding::values_of;
use crate::kinds::TypeId;
use crate::types::TypeInfo;
use std::alloc::{AllocError, Global};

/// Whether the value at a place has a number.
fn is_at(values: &[(String, i128)], place: usize, number: i128) -> bool
    ensures { result ≡ true → slice_get (map (λ v. v.1) values.now) place ≡ Some number }
{
    match values.get(place) {
        Some(value) => value.1 == number,
        None => false,
    }
}

/// The number of the value at a place; 0 where there is none.
fn number_at(values: &[(String, i128)], place: usize) -> i128
    ensures { result ≡ get_or (map (λ v. v.1) values.now) place (pos 0) }
{
    match values.get(place) {
        Some(value) => value.1,
        None => 0,
    }
}

/// The places 0 to `count` - 1.
fn places_of(alloc: Global, count: usize) -> Result<Vec<usize>, AllocError>
    ensures { IfOk result (λ places. places.items ≡ range_with_len 0 count) }
{
    let mut places = Vec::with_capacity(alloc, count)?;
    for place in 0..count {
        places.push(place)?;
    }
    Ok(places)
}

/// The places of an enum's values in ascending order of their numbers. The only error is a refused allocation.
fn places_in_order(alloc: Global, values: &[(String, i128)]) -> Result<Vec<usize>, AllocError>
    ensures { IfOk result (λ places. IsInOrder int_cmp (pos 0) (map (λ v. v.1) values.now) places.items) }
{
    let mut places = places_of(alloc, values.len())?;
    places.sort_by(|one, other| number_at(values, *one).cmp(&number_at(values, *other)))?;
    Ok(places)
}

/// The place of the value of a number, from 0, if it is there. Most numbers count up from 0, or double from 1 as flags
/// do, and their value is where the number or its bit says. Others are searched by halves, in ascending order.
fn position_among(places: &[usize], values: &[(String, i128)], number: i128) -> Option<usize>
    requires indexed { IsInOrder int_cmp (pos 0) (map (λ v. v.1) values.now) places.now }
    requires distinct { AllPairs (λ a b. a ≢ b) (map (λ v. v.1) values.now) }
    ensures { result ≡ position (int_eq number) (map (λ v. v.1) values.now) }
{
    let counted = usize::try_from(number).unwrap_or(0);
    if is_at(values, counted, number) {
        return Some(counted);
    }
    let doubled = number.trailing_zeros() as usize;
    if is_at(values, doubled, number) {
        return Some(doubled);
    }
    match places.binary_search_by(|place| number_at(values, *place).cmp(&number)) {
        Ok(at) => places.get(at).copied(),
        Err(_) => None,
    }
}

/// The number of values that some types have.
fn value_count(types: &[TypeInfo]) -> usize {
    types.iter().fold(0, |count: usize, info| {
        count.saturating_add(values_of(&info.body).len())
    })
}

/// The places of the values of all enums, enum by enum in ascending order of their numbers. A search is given the
/// values.
#[derive(Drop)]
pub(crate) struct NumberIndex {
    places: Vec<usize>,
    // of each type where the places of its values begin
    firsts: Vec<usize>,
}

impl NumberIndex {
    /// The index of the numbers of all enums. The only error is a refused allocation.
    pub(crate) fn of(alloc: Global, types: &[TypeInfo]) -> Result<NumberIndex, AllocError>
        ensures { IfOk result (λ index. IndexesNumbers index (map type_seen types.now)) }
    {
        let mut places = Vec::with_capacity(alloc, value_count(types))?;
        let mut firsts = Vec::with_capacity(alloc, types.len())?;
        for info in types {
            firsts.push(places.len())?;
            let more = places_in_order(alloc, values_of(&info.body))?;
            places.extend_from_slice(more.as_slice())?;
        }
        Ok(NumberIndex { places, firsts })
    }

    /// The place of the value of a number in an enum, from 0, if it is there.
    pub(crate) fn position(
        &self,
        enumeration: TypeId,
        values: &[(String, i128)],
        number: i128,
    ) -> Option<usize>
        requires indexed { HasNumbers self.now enumeration.0 (map (λ v. v.1) values.now) }
        requires distinct { AllPairs (λ a b. a ≢ b) (map (λ v. v.1) values.now) }
        ensures { result ≡ position (int_eq number) (map (λ v. v.1) values.now) }
    {
        let first = self.firsts[enumeration.0 as usize];
        let places = &self.places[first..first + values.len()];
        position_among(places, values, number)
    }
}
