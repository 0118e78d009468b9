//! Names in a JSON text that a schema doesn't have: of values, of unions' members and of fields.
use fb_findings::{Note, last_word, names_in, push_few, push_nearest};
use fb_json::{Place, has_flags};
use fb_layout::kind_in;
use fb_schema::{
    FieldInfo, Kind, Schema, Shape, TypeId, field_at, fields_of, members_of, type_name, values_of,
};
use std::alloc::{AllocError, Global};

/// The names of the fields in use.
fn field_names(alloc: Global, fields: &[FieldInfo]) -> Result<Vec<&str>, AllocError> {
    let mut names = Vec::new(alloc);
    for field in fields {
        if !field.deprecated {
            names.push(field.name.as_str())?;
        }
    }
    Ok(names)
}

/// Adds what no name is, and the nearest of those that there are.
fn push_no_name(
    note: &mut Note,
    front: &str,
    owner: &str,
    wanted: &str,
    names: Result<Vec<&str>, AllocError>,
) {
    note.push_str(front);
    note.push_cut(owner.as_bytes());
    note.push_str(" is called ");
    note.push_name(wanted.as_bytes());
    if let Some(names) = note.keep(names) {
        push_nearest(note, "it has", names.as_slice(), last_word(wanted));
    }
}

/// The first of some flags that an enum doesn't have.
fn wrong_flag<'t>(schema: &Schema, number: TypeId, flags: &'t str) -> &'t str {
    flags
        .split(' ')
        .find(|flag| schema.number_by_path(number, flag).is_none())
        .unwrap_or(flags)
}

/// Whether flags are separated by something else than one space.
fn is_parted_wrongly(flag: &str) -> bool {
    flag.is_empty()
        || flag
            .bytes()
            .any(|byte| matches!(byte, b'|' | b',' | b';' | b'+' | b'\t'))
}

/// Adds that an enum has no value of a name, or which of several flags it doesn't have.
fn push_unknown_value(note: &mut Note, schema: &Schema, number: TypeId, text: &str) {
    let owner = type_name(schema, number);
    let flags = has_flags(schema, number);
    let wanted = if flags {
        wrong_flag(schema, number, text)
    } else {
        text
    };
    if flags && is_parted_wrongly(wanted) {
        note.push_str("no value of enum ");
        note.push_cut(owner.as_bytes());
        note.push_str(" is called ");
        note.push_name(wanted.as_bytes());
        note.push_str(": flags are separated by one space each");
        return;
    }
    let names = names_in(note.alloc(), values_of(schema, number));
    push_no_name(note, "no value of enum ", owner, wanted, names);
}

/// Adds that a text is no name of the field's enum or union.
pub(crate) fn push_unknown_name(
    note: &mut Note,
    schema: &Schema,
    token: &str,
    field: Option<&FieldInfo>,
) {
    let text = token.trim_matches('"');
    let Some(field) = field else {
        note.push_str("no such name");
        return;
    };
    match kind_in(field.shape) {
        Kind::Enum(number) => push_unknown_value(note, schema, number, text),
        Kind::Code(number) | Kind::Union(number) => {
            let names = names_in(note.alloc(), members_of(schema, number));
            let owner = type_name(schema, number);
            push_no_name(note, "no member of union ", owner, text, names);
        }
        _ => note.push_str("no such name"),
    }
}

/// Whether a name is that of no field in use of a type.
pub(crate) fn is_unknown(schema: &Schema, owner: TypeId, name: &str) -> bool {
    schema
        .field_by_name(owner, name)
        .map_or(true, |field| field.deprecated)
}

/// Adds that a type has no field of a name.
pub(crate) fn push_unknown_member(
    note: &mut Note,
    schema: &Schema,
    owner: TypeId,
    name: Option<&str>,
) {
    let Some(name) = name else {
        note.push_str("a member has a name that no field has");
        return;
    };
    // the name is no field's that is in use
    if schema.field_by_name(owner, name).is_some() {
        note.push_str("the field ");
        note.push_name(name.as_bytes());
        note.push_str(" of ");
        note.push_cut(type_name(schema, owner).as_bytes());
        note.push_str(" is deprecated, and isn't written any more");
        return;
    }
    note.push_cut(type_name(schema, owner).as_bytes());
    note.push_str(" has no field called ");
    note.push_name(name.as_bytes());
    let names = field_names(note.alloc(), fields_of(schema, owner));
    if let Some(names) = note.keep(names) {
        push_nearest(note, "it has", names.as_slice(), name);
    }
}

/// Adds a member's name as JSON writes it.
fn push_quoted(note: &mut Note, name: &str) {
    note.push_str("\"");
    note.push_cut(name.as_bytes());
    note.push_str("\"");
}

/// The field of a place.
pub(crate) fn field_of(schema: &Schema, place: Place) -> Option<&FieldInfo> {
    field_at(schema, place.owner, place.slot?)
}

/// The half of a union that is missing: its code is in the slot before its value.
fn missing_half(schema: &Schema, place: Place, has_value: bool) -> Option<&FieldInfo> {
    let slot = place.slot?.checked_sub(u16::from(has_value))?;
    field_at(schema, place.owner, slot)
}

/// Adds which half of a union is missing, and the member that has it.
pub(crate) fn push_half(note: &mut Note, schema: &Schema, place: Place, has_value: bool) {
    let Some(field) = missing_half(schema, place, has_value) else {
        note.push_str("a union needs both its type and its value");
        return;
    };
    note.push_str(if has_value {
        "the union has a value, and its type is missing or NONE: add "
    } else {
        "the union has a type and no value: add "
    });
    push_quoted(note, field.name.as_str());
    if let Shape::One(Kind::Code(union)) = field.shape {
        let names = names_in(note.alloc(), members_of(schema, union));
        if let Some(names) = note.keep(names) {
            push_few(note, "it is one of", names.as_slice());
        }
    }
}
