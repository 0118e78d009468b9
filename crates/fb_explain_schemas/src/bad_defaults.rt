//! A default that isn't one of its field's type.
use crate::declared::{field_of_default, is_in_a_struct, value_names};
use fb_findings::{Note, last_word, push_nearest, range_of_base};
use fb_resolve::base_named;
use fb_schema::Base;
use fb_syntax::{Decls, DefaultValue, Field, FieldType};
use std::str;

fn push_not_of_base(note: &mut Note, field: &Field<'_>, name: &str, base: Base) {
    match (&field.default, base) {
        (Some(DefaultValue::Name(_)), Base::Bool) | (Some(DefaultValue::Integer(_)), _) => {
            note.push_str(" doesn't fit the type ");
            note.push_str(name);
            note.push_str(": ");
        }
        _ => {
            note.push_str(" isn't a number: the type ");
            note.push_str(name);
            note.push_str(" has ");
        }
    }
    note.push_str(range_of_base(base));
}

fn push_not_of_type(note: &mut Note, decls: &Decls<'_>, field: &Field<'_>, default: &[u8]) {
    let FieldType::One(kind) = &field.kind else {
        note.push_str(": it is a vector, and only numbers and enums have a default");
        return;
    };
    if let Some(base) = base_named(kind.as_str()) {
        push_not_of_base(note, field, kind.as_str(), base);
        return;
    }
    note.push_str(": its type is ");
    note.push_name(kind.as_str().as_bytes());
    let names = value_names(note.alloc(), decls, kind.as_str());
    let Some(names) = note.keep(names) else {
        return;
    };
    if names.is_empty() {
        note.push_str(", and only numbers and enums have a default");
        return;
    }
    note.push_str(", which has no such value");
    let wanted = last_word(str::from_utf8(default).unwrap_or(""));
    push_nearest(note, "it has", names.as_slice(), wanted);
}

/// Adds what is wrong with a default at an offset.
pub(crate) fn push_bad_default(note: &mut Note, decls: &Decls<'_>, default: &[u8], offset: u64) {
    note.push_str("the default ");
    note.push_cut(default);
    let Some(field) = field_of_default(decls, offset) else {
        note.push_str(" isn't one of its field's type");
        return;
    };
    note.push_str(" of field ");
    note.push_name(field.name.text.as_bytes());
    if is_in_a_struct(decls, offset) {
        note.push_str(" may not be here: fields of structs have no defaults");
        return;
    }
    push_not_of_type(note, decls, field, default);
}
