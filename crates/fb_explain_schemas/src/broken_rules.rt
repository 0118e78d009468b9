//! How a rule on declarations is broken, by what their names and numbers mean.
use crate::bad_ids::push_bad_ids;
use crate::bad_values::push_bad_value;
use crate::first_names::first_named;
use crate::schema_tokens::{name_at, token_at};
use crate::struct_fields::{Misplaced, misplaced_at};
use crate::type_names::is_base;
use crate::unknown_types::push_unknown_type;
use fb_findings::{Note, Position, value_of};
use fb_resolve::{Outline, Resolved, ResolvedType};
use fb_syntax::Decls;
use std::str;

/// A rule on declarations.
#[derive(Clone, Copy, Debug, PartialEq, Eq)]
pub(crate) enum Rule {
    /// No name is declared twice.
    NamesOnce,
    /// The name of a type is that of one.
    TypesDeclared,
    /// A struct has only structs that are declared before it.
    StructsInOrder,
    /// The numbers of an enum's values differ, and are of its type.
    EnumNumbers,
}

/// A token as a text; empty where it isn't UTF-8.
fn text_of(token: &[u8]) -> &str {
    str::from_utf8(token).unwrap_or("")
}

/// Names beside those of basic types with numbers that no declaration may have, and why.
const RESERVED: &[(&str, &str)] = &[
    (
        "NONE",
        " is what an absent union is called, so no member may have it",
    ),
    ("string", " is a basic type's"),
];

/// Why no declaration may have a name.
fn reserved_sentence(name: &[u8]) -> Option<&'static str> {
    if is_base(name) {
        return Some(" is a basic type's");
    }
    value_of(RESERVED, name)
}

/// Adds that a name is taken, and the line of its first declaration.
fn push_first(note: &mut Note, text: &[u8], first: Option<u64>) {
    note.push_str(" is taken: it is declared before");
    match first {
        Some(first) => {
            note.push_str(", in line ");
            note.push_number(Position::of(text, first as usize).line as u64);
        }
        None => note.push_str(" (a union field 'x' takes 'x_type' too)"),
    }
}

fn push_duplicate(
    note: &mut Note,
    outline: &Outline<'_, '_>,
    text: &[u8],
    token: &[u8],
    offset: u64,
) {
    note.push_str("the name ");
    note.push_name(token);
    match reserved_sentence(token) {
        Some(sentence) => note.push_str(sentence),
        None => push_first(note, text, first_named(outline, text_of(token), offset)),
    }
}

/// Adds why a struct may not have the struct that is named at an offset.
fn push_incomplete(note: &mut Note, types: &[ResolvedType<'_, '_, '_>], name: &[u8], offset: u64) {
    let misplaced = misplaced_at(note.alloc(), types, offset);
    let Some(misplaced) = note.keep(misplaced) else {
        return;
    };
    note.push_str("the struct ");
    note.push_name(name);
    note.push_str(match misplaced {
        Misplaced::InItself =>
            " can't have itself as a field, since it would have no end: use a table",
        Misplaced::InACircle =>
            " has this struct in turn, and neither would have an end: use a table",
        Misplaced::TooLate => " is declared after the struct that has it: move it up",
    });
}

/// Adds how a rule is broken that needs to know what types have in them.
fn push_by_types(
    note: &mut Note,
    text: &[u8],
    types: &[ResolvedType<'_, '_, '_>],
    offset: u64,
    rule: Rule,
) {
    match rule {
        Rule::EnumNumbers => push_bad_value(note, types, offset),
        _ => push_incomplete(note, types, name_at(text, offset as usize), offset),
    }
}

fn push_resolved(note: &mut Note, text: &[u8], outline: &Outline<'_, '_>, offset: u64, rule: Rule) {
    match Resolved::of(note.alloc(), outline) {
        Ok(resolved) => push_by_types(note, text, resolved.types.as_slice(), offset, rule),
        Err(_) => note.run_out(),
    }
}

fn push_outlined(note: &mut Note, text: &[u8], outline: &Outline<'_, '_>, offset: u64, rule: Rule) {
    match rule {
        Rule::NamesOnce => {
            let token = token_at(text, offset as usize);
            push_duplicate(note, outline, text, token, offset)
        }
        Rule::TypesDeclared => {
            let name = name_at(text, offset as usize);
            push_unknown_type(note, outline, text_of(name), offset)
        }
        _ => push_resolved(note, text, outline, offset, rule),
    }
}

/// Adds how a rule is broken at an offset.
pub(crate) fn push_broken(
    note: &mut Note,
    text: &[u8],
    decls: &Decls<'_>,
    offset: u64,
    rule: Rule,
) {
    match Outline::of(note.alloc(), decls) {
        Ok(outline) => push_outlined(note, text, &outline, offset, rule),
        Err(_) => note.run_out(),
    }
}

fn push_outlined_ids(note: &mut Note, outline: &Outline<'_, '_>, offset: u64) -> Option<u64> {
    match Resolved::of(note.alloc(), outline) {
        Ok(resolved) => push_bad_ids(note, resolved.types.as_slice(), offset),
        Err(_) => {
            note.run_out();
            None
        }
    }
}

/// Adds how the ids of the table at an offset are wrong. Returns the offset of the field that has a wrong one.
pub(crate) fn push_broken_ids(note: &mut Note, decls: &Decls<'_>, offset: u64) -> Option<u64> {
    match Outline::of(note.alloc(), decls) {
        Ok(outline) => push_outlined_ids(note, &outline, offset),
        Err(_) => {
            note.run_out();
            None
        }
    }
}
