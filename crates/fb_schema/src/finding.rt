//! What is found in one type through its index.
ghost use Rattle.std.specs.Prelude.{◌≡◌, ◌≤◌, length, map, option_copied, option_map, string_bytes};
ghost use Rattle.fb_schema.specs.Schema.{values_in, members_in};
ghost use Rattle.fb_schema.specs.Seen.{field_seen, body_seen};
ghost use Rattle.fb_schema.specs.Indexed.{inner_names, inner_numbers, HasNoRepeats, HasNumbers, IndexesNames};
ghost use Rattle.fb_schema.specs.Found.{fields_in, field_named, member_coded, name_numbered, number_named, code_named};

use crate::kinds::TypeId;
use crate::name_index::ScopeNames;
use crate::number_index::NumberIndex;
use crate::types::{Body, FieldInfo};

/// The fields of a table or struct; none of another type.
pub(crate) fn fields_of(body: &Body) -> &[FieldInfo]
    ensures { map field_seen result.now ≡ fields_in (body_seen body.now) }
{
    match body {
        Body::Table(fields) => fields.as_slice(),
        Body::Struct(fields, _) => fields.as_slice(),
        _ => &[],
    }
}

/// The values of an enum; none of another type.
pub(crate) fn values_of(body: &Body) -> &[(String, i128)]
    ensures { map (λ v. (string_bytes v.0, v.1)) result.now ≡ values_in (body_seen body.now) }
{
    match body.as_enum() {
        Some((_, _, values)) => values,
        None => &[],
    }
}

/// The members of a union; none of another type.
pub(crate) fn members_of(body: &Body) -> &[(String, TypeId)]
    ensures { map (λ m. (string_bytes m.0, m.1.0)) result.now ≡ members_in (body_seen body.now) }
{
    body.as_union().unwrap_or(&[])
}

/// The field of a table or struct that has a name.
pub(crate) fn field_in<'a>(
    body: &'a Body,
    names: ScopeNames<'_>,
    name: &str,
) -> Option<&'a FieldInfo>
    requires indexed { IndexesNames names (inner_names (body_seen body.now)) }
    requires distinct { HasNoRepeats (body_seen body.now) }
    ensures { option_map field_seen (option_copied result)
        ≡ field_named (body_seen body.now) name.now }
{
    let fields = fields_of(body);
    fields.get(names.position(fields, name)?)
}

/// The table of a union's member that has a code, from 1 on.
pub(crate) fn member_in(body: &Body, code: u8) -> Option<TypeId>
    ensures { option_map (λ t. t.0) result ≡ member_coded (body_seen body.now) code }
{
    let at = code.checked_sub(1)?;
    let member = members_of(body).get(usize::from(at))?;
    Some(member.1)
}

/// The name of an enum's value that has a number.
pub(crate) fn name_in<'a>(
    body: &'a Body,
    enumeration: TypeId,
    numbers: &NumberIndex,
    number: i128,
) -> Option<&'a str>
    requires indexed { HasNumbers numbers.now enumeration.0 (inner_numbers (body_seen body.now)) }
    requires distinct { HasNoRepeats (body_seen body.now) }
    ensures { option_copied result ≡ name_numbered (body_seen body.now) number }
{
    let values = values_of(body);
    let value = values.get(numbers.position(enumeration, values, number)?)?;
    Some(value.0.as_str())
}

/// The number of an enum's value that has a name.
pub(crate) fn number_in(body: &Body, names: ScopeNames<'_>, name: &str) -> Option<i128>
    requires indexed { IndexesNames names (inner_names (body_seen body.now)) }
    requires distinct { HasNoRepeats (body_seen body.now) }
    ensures { result ≡ number_named (body_seen body.now) name.now }
{
    let values = values_of(body);
    let value = values.get(names.position(values, name)?)?;
    Some(value.1)
}

/// The code of a union's member that has a name; of `NONE` it is 0.
pub(crate) fn code_in(body: &Body, names: ScopeNames<'_>, name: &str) -> Option<u8>
    requires indexed { IndexesNames names (inner_names (body_seen body.now)) }
    requires distinct { HasNoRepeats (body_seen body.now) }
    requires few { length (members_in (body_seen body.now)) ≤ 255 }
    ensures { result ≡ code_named (body_seen body.now) name.now }
{
    let members = body.as_union()?;
    if name == "NONE" {
        return Some(0);
    }
    let at = names.position(members, name)?;
    Some(at as u8 + 1)
}
