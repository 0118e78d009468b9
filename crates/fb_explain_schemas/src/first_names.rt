//! Where a name that is declared twice is declared first.
ghost use Rattle.std.specs.Prelude.{◌≡◌};

use fb_resolve::{Outline, TypeRead, word_of};
use fb_syntax::{EnumValue, Field, Text, TypeDecl, UnionMember};

/// The types that are declared, in the order of the text.
pub(crate) fn types_read<'o, 'd, 's>(outline: &'o Outline<'d, 's>) -> &'o [TypeRead<'d, 's>]
    ensures { result.now ≡ outline.now.types }
{
    outline.types.as_slice()
}

/// Whether a name is spelled so, and is before an offset.
fn is_before(name: &Text<'_>, spelling: &str, offset: u64) -> bool {
    name.text == spelling && name.at < offset
}

fn first_field(fields: &[Field<'_>], spelling: &str, offset: u64) -> Option<u64> {
    let mut names = fields.iter().map(|field| &field.name);
    let first = names.find(|name| is_before(name, spelling, offset))?;
    Some(first.at)
}

fn first_value(values: &[EnumValue<'_>], spelling: &str, offset: u64) -> Option<u64> {
    let mut names = values.iter().map(|value| &value.name);
    let first = names.find(|name| is_before(name, spelling, offset))?;
    Some(first.at)
}

/// The name of a union's member where it has one of its own, else its table's, and the name's offset.
fn member_name<'d>(member: &'d UnionMember<'_>) -> (&'d str, u64) {
    match &member.alias {
        Some(alias) => (alias.text, alias.at),
        None => (member.table.as_str(), member.table.at()),
    }
}

fn first_member(members: &[UnionMember<'_>], spelling: &str, offset: u64) -> Option<u64> {
    let mut names = members.iter().map(member_name);
    let (_, at) = names.find(|(name, at)| *name == spelling && *at < offset)?;
    Some(at)
}

/// The last type whose name isn't after an offset.
fn type_around<'o, 'd, 's>(
    types: &'o [TypeRead<'d, 's>],
    offset: u64,
) -> Option<&'o TypeRead<'d, 's>> {
    types
        .iter()
        .rfind(|read| word_of(read.declaration).at <= offset)
}

/// The offset of the first field, value or member of this name in a type, before an offset.
fn first_inside(declared: &TypeDecl<'_>, spelling: &str, offset: u64) -> Option<u64> {
    match declared {
        TypeDecl::Table(table) | TypeDecl::Struct(table) => {
            first_field(table.fields.as_slice(), spelling, offset)
        }
        TypeDecl::Enum(declared) => first_value(declared.values.as_slice(), spelling, offset),
        TypeDecl::Union(declared) => first_member(declared.members.as_slice(), spelling, offset),
    }
}

/// The offset of the first type with the full name of another.
fn first_type(types: &[TypeRead<'_, '_>], again: &TypeRead<'_, '_>) -> Option<u64> {
    let word = word_of(again.declaration);
    let first = types.iter().find(|read| {
        read.scope == again.scope && is_before(word_of(read.declaration), word.text, word.at)
    })?;
    Some(word_of(first.declaration).at)
}

/// The offset of the first declaration of a name that is declared again at an offset.
pub(crate) fn first_named(outline: &Outline<'_, '_>, spelling: &str, offset: u64) -> Option<u64> {
    let types = types_read(outline);
    let around = type_around(types, offset)?;
    if word_of(around.declaration).at == offset {
        return first_type(types, around);
    }
    first_inside(around.declaration, spelling, offset)
}
