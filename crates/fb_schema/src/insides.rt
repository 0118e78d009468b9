//! What a type of a schema has inside.
ghost use Rattle.std.specs.Prelude.{◌≡◌, [], map, string_bytes, slice_get};
ghost use Rattle.std.specs.Prelude.{option_map, option_copied, MatchOption};
ghost use Rattle.fb_schema.specs.Schema.{body_at, table_body, values_in, members_in};
ghost use Rattle.fb_schema.specs.Seen.{field_seen, body_seen};
ghost use Rattle.fb_schema.specs.Found.{fields_in};

use crate::finding;
use crate::kinds::TypeId;
use crate::schema::Schema;
use crate::types::{Body, FieldInfo};

/// What the type of a number is declared as.
fn body_of(schema: &Schema, number: TypeId) -> Option<&Body>
    ensures { MatchOption result
        (body_at schema.now number.0 ≡ table_body [])
        (λ body. body_seen body.now ≡ body_at schema.now number.0) }
{
    match schema.types().get(number.0 as usize) {
        Some(declared) => Some(&declared.body),
        None => None,
    }
}

/// The fields of a table by slot, or of a struct by number.
pub fn fields_of(schema: &Schema, number: TypeId) -> &[FieldInfo]
    ensures { map field_seen result.now ≡ fields_in (body_at schema.now number.0) }
{
    match body_of(schema, number) {
        Some(body) => finding::fields_of(body),
        None => &[],
    }
}

/// The field of a slot.
pub fn field_at(schema: &Schema, number: TypeId, slot: u16) -> Option<&FieldInfo>
    ensures { option_map field_seen (option_copied result)
        ≡ slice_get (fields_in (body_at schema.now number.0)) slot }
{
    fields_of(schema, number).get(usize::from(slot))
}

/// The values of an enum.
pub fn values_of(schema: &Schema, number: TypeId) -> &[(String, i128)]
    ensures { map (λ v. (string_bytes v.0, v.1)) result.now ≡ values_in (body_at schema.now number.0) }
{
    match body_of(schema, number) {
        Some(body) => finding::values_of(body),
        None => &[],
    }
}

/// The members of a union, by code from 1 on.
pub fn members_of(schema: &Schema, number: TypeId) -> &[(String, TypeId)]
    ensures { map (λ m. (string_bytes m.0, m.1.0)) result.now ≡ members_in (body_at schema.now number.0) }
{
    match body_of(schema, number) {
        Some(body) => finding::members_of(body),
        None => &[],
    }
}
