//! The slots that tables must have.
ghost use Rattle.std.specs.Prelude.{◌≡◌, ◌≤◌, ℕ, List, length, map, slice_get, IfOk};
ghost use Rattle.fb_schema.specs.Schema.{DeclaredType, body_at, body_in, slots_in};
ghost use Rattle.fb_schema.specs.Seen.{field_seen};
ghost use Rattle.fb_layout.specs.Required.{required_numbers, HaveSmallNumbers};

use crate::bodies::slots_in;
use fb_schema::{FieldInfo, Schema, TypeId};
use std::alloc::{AllocError, Global};

/// The numbers of the slots that are required and not deprecated, in order.
fn required_in(alloc: Global, slots: &[FieldInfo]) -> Result<Vec<u16>, AllocError>
    requires { HaveSmallNumbers (map field_seen slots.now) }
    ensures { IfOk result (λ r. r.items ≡ required_numbers (map field_seen slots.now)) }
{
    let mut numbers = Vec::new(alloc);
    for field in slots {
        if field.required && !field.deprecated {
            numbers.push(field.slot as u16)?;
        }
    }
    Ok(numbers)
}

/// The numbers of the required slots of all tables, table by table.
#[derive(Drop)]
pub(crate) struct RequiredSlots {
    numbers: Vec<u16>,
    // of each type where the numbers of its slots end
    ends: Vec<usize>,
}

impl RequiredSlots {
    ghost use Rattle.fb_layout.specs.RequiredHeld.{start_of, HaveRequired};

    /// The required slots of a schema's tables. The only error is a refused allocation.
    pub(crate) fn of(alloc: Global, schema: &Schema) -> Result<RequiredSlots, AllocError>
        requires { (t : ℕ) → HaveSmallNumbers (slots_in (body_at schema.now t)) }
        ensures { IfOk result (λ r. HaveRequired r schema.now.types) }
    {
        let types = schema.types();
        let mut numbers = Vec::new(alloc);
        let mut ends = Vec::with_capacity(alloc, types.len())?;
        for info in types {
            let more = required_in(alloc, slots_in(&info.body))?;
            numbers.extend_from_slice(more.as_slice())?;
            ends.push(numbers.len())?;
        }
        Ok(RequiredSlots { numbers, ends })
    }

    /// Where the numbers of a type begin.
    fn start(&self, at: usize) -> usize
        requires { at ≤ length self.now.ends.items }
        ensures { result ≡ start_of self.now.ends.items at }
    {
        match at.checked_sub(1) {
            Some(before) => self.ends[before],
            None => 0,
        }
    }

    /// The numbers of a table's required slots, in order; none of another type.
    pub(crate) fn of_type(&self, table: TypeId) -> &[u16]
        requires { (types : List DeclaredType) × HaveRequired self.now types }
        ensures { (types : List DeclaredType) → HaveRequired self.now types
            → result.now ≡ required_numbers (slots_in (body_in (slice_get types table.0))) }
    {
        let at = table.0 as usize;
        let Some(end) = self.ends.get(at) else {
            return &[];
        };
        &self.numbers[self.start(at)..*end]
    }
}
