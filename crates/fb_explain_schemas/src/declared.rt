//! What of a schema text's declarations is at an offset or has a number.
ghost use Rattle.std.specs.Prelude.{◌≡◌, slice_get};
ghost use Rattle.std.specs.Option.{option_copied, option_map};
ghost use Rattle.std.specs.List.{find, list_any, flat_map};
ghost use Rattle.fb_resolve.specs.Outline.{word_of};
ghost use Rattle.fb_declare.specs.FaultRows.{default_at};
ghost use Rattle.fb_explain_schemas.specs.FoundInText.{types_of, type_of, fields_of, has_default_at};
ghost use Rattle.fb_explain_schemas.specs.FoundInText.{is_struct_with, is_member_at, is_union_with};

use fb_findings::last_word;
use fb_resolve::word_of;
use fb_syntax::{
    Declaration, Decls, DefaultValue, Field, SyntaxFault, TypeDecl, UnionMember, parse,
};
use std::alloc::{AllocError, Global};

/// The declarations of a text; `None` where it can't be parsed.
pub fn declarations_of(alloc: Global, text: &[u8]) -> Result<Option<Decls<'_>>, AllocError> {
    match parse(alloc, text) {
        Ok(decls) => Ok(Some(decls)),
        Err(SyntaxFault::Memory) => Err(AllocError),
        Err(_) => Ok(None),
    }
}

/// The type that is declared.
pub fn type_in<'d, 't>(declaration: &'d Declaration<'t>) -> Option<&'d TypeDecl<'t>>
    ensures { option_copied result ≡ type_of declaration.now }
{
    match declaration {
        Declaration::Type(declared) => Some(declared),
        _ => None,
    }
}

/// The type of a number.
pub(crate) fn type_at<'d, 't>(decls: &'d Decls<'t>, number: u64) -> Option<&'d TypeDecl<'t>>
    ensures { option_copied result ≡ slice_get (types_of decls.now.declarations) number }
{
    let mut left = number;
    for declaration in decls.declarations() {
        if let Some(declared) = type_in(declaration) {
            if left == 0 {
                return Some(declared);
            }
            left -= 1;
        }
    }
    None
}

/// A type's name as it is declared, and the name's offset.
pub fn name_of<'d>(declared: &'d TypeDecl<'_>) -> (&'d str, u64)
    ensures { record { bytes = result.0.now; at = result.1 } ≡ word_of declared.now }
{
    let name = word_of(declared);
    (name.text, name.at)
}

/// The fields of a table or struct, in the order of the text.
pub fn fields_of<'d, 't>(declared: &'d TypeDecl<'t>) -> &'d [Field<'t>]
    ensures { result.now ≡ fields_of declared.now }
{
    match declared {
        TypeDecl::Table(table) | TypeDecl::Struct(table) => table.fields.as_slice(),
        _ => &[],
    }
}

/// The offset of a field's default.
fn default_at(field: &Field<'_>) -> Option<u64>
    ensures { result ≡ option_map default_at field.now.default }
{
    match &field.default {
        Some(DefaultValue::Integer(number)) => Some(number.at()),
        Some(DefaultValue::Name(name)) => Some(name.at()),
        None => None,
    }
}

fn has_default_at(field: &Field<'_>, offset: u64) -> bool
    ensures { result ≡ has_default_at offset field.now }
{
    default_at(field) == Some(offset)
}

/// The field of a table or struct whose default is at an offset.
fn field_with_default<'d, 't>(declared: &'d TypeDecl<'t>, offset: u64) -> Option<&'d Field<'t>>
    ensures { option_copied result ≡ find (has_default_at offset) (fields_of declared.now) }
{
    fields_of(declared)
        .iter()
        .find(|field| has_default_at(field, offset))
}

/// The field whose default is at an offset.
pub(crate) fn field_of_default<'d, 't>(decls: &'d Decls<'t>, offset: u64) -> Option<&'d Field<'t>>
    ensures { option_copied result
        ≡ find (has_default_at offset) (flat_map fields_of (types_of decls.now.declarations)) }
{
    for declaration in decls.declarations() {
        if let Some(declared) = type_in(declaration) {
            if let Some(field) = field_with_default(declared, offset) {
                return Some(field);
            }
        }
    }
    None
}

/// Whether a declaration is a struct, one of whose fields has its default at an offset.
fn is_struct_with(declaration: &Declaration<'_>, offset: u64) -> bool
    ensures { result ≡ is_struct_with offset declaration.now }
{
    match declaration {
        Declaration::Type(declared @ TypeDecl::Struct(_)) => {
            field_with_default(declared, offset).is_some()
        }
        _ => false,
    }
}

/// Whether the default at an offset is that of a struct's field.
pub(crate) fn is_in_a_struct(decls: &Decls<'_>, offset: u64) -> bool
    ensures { result ≡ list_any (is_struct_with offset) decls.now.declarations }
{
    decls
        .declarations()
        .iter()
        .any(|declaration| is_struct_with(declaration, offset))
}

/// Whether one of some members has its type at an offset.
fn has_member_at(members: &[UnionMember<'_>], offset: u64) -> bool
    ensures { result ≡ list_any (is_member_at offset) members.now }
{
    members.iter().any(|member| member.table.at() == offset)
}

/// Whether a declaration is a union, one of whose members has its type at an offset.
fn is_union_with(declaration: &Declaration<'_>, offset: u64) -> bool
    ensures { result ≡ is_union_with offset declaration.now }
{
    match declaration {
        Declaration::Type(TypeDecl::Union(declared)) => {
            has_member_at(declared.members.as_slice(), offset)
        }
        _ => false,
    }
}

/// Whether a union's member has its type at an offset.
pub(crate) fn is_in_a_union(decls: &Decls<'_>, offset: u64) -> bool
    ensures { result ≡ list_any (is_union_with offset) decls.now.declarations }
{
    decls
        .declarations()
        .iter()
        .any(|declaration| is_union_with(declaration, offset))
}

/// Whether an enum has its underlying type at an offset.
pub(crate) fn is_under_an_enum(decls: &Decls<'_>, offset: u64) -> bool {
    decls.declarations().iter().any(|declaration| {
        matches!(
            declaration,
            Declaration::Type(TypeDecl::Enum(declared)) if declared.underlying.at() == offset
        )
    })
}

/// The names of the values of each enum of this name, whatever their namespaces.
pub(crate) fn value_names<'d>(
    alloc: Global,
    decls: &'d Decls<'_>,
    name: &str,
) -> Result<Vec<&'d str>, AllocError> {
    let wanted = last_word(name);
    let mut names = Vec::new(alloc);
    for declaration in decls.declarations() {
        if let Declaration::Type(TypeDecl::Enum(declared)) = declaration
            && declared.name.text == wanted
        {
            for value in declared.values.iter() {
                names.push(value.name.text)?;
            }
        }
    }
    Ok(names)
}
