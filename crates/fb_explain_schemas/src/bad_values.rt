//! A value of an enum whose number isn't one that it can have.
use fb_findings::{Note, range_of_base};
use fb_resolve::{EnumValues, ResolvedDecl, ResolvedType, ResolvedValue, bits_of, may_be_written};
use fb_schema::{Base, base_name};

/// A value's name and its offset, and whether its number is written.
#[derive(Clone, Copy)]
struct ValueName<'s> {
    name: &'s str,
    at: u64,
    is_numbered: bool,
}

fn named<'s>(value: &ResolvedValue<'_, 's>) -> ValueName<'s> {
    let declared = value.value;
    ValueName {
        name: declared.name.text,
        at: declared.name.at,
        is_numbered: declared.number.is_some(),
    }
}

/// The place among some values of the one at an offset.
fn place_of(values: &[ResolvedValue<'_, '_>], offset: u64) -> Option<usize> {
    values.iter().position(|value| named(value).at == offset)
}

/// The values of the enum that has one at an offset, and its place among them.
fn values_around<'r, 't, 'd, 's>(
    types: &'r [ResolvedType<'t, 'd, 's>],
    offset: u64,
) -> Option<(&'t EnumValues<'d, 's>, usize)> {
    types
        .iter()
        .find_map(|declared| match &declared.declaration {
            ResolvedDecl::Enum(found) => {
                let values = found.values;
                Some((values, place_of(values.values.as_slice(), offset)?))
            }
            _ => None,
        })
}

/// The name of the first of some values that has a number.
fn first_name<'s>(values: &[ResolvedValue<'_, 's>], number: i128) -> &'s str {
    let first = values.iter().find(|value| value.number == number);
    first.map_or("?", |value| named(value).name)
}

/// Adds that a value's number isn't in the range of the enum's type.
fn push_out_of_range(note: &mut Note, value: &ResolvedValue<'_, '_>, flags: bool, base: Base) {
    note.push_str(if flags { " is bit " } else { " is " });
    note.push_integer(value.number);
    if !named(value).is_numbered {
        note.push_str(", one more than the one before");
    }
    note.push_str(", and ");
    note.push_str(base_name(base));
    note.push_str(" has ");
    if flags {
        note.push_str("bits 0 to ");
        note.push_number(u64::from(bits_of(base)).saturating_sub(1));
    } else {
        note.push_str(range_of_base(base));
    }
}

/// Adds which value has the same number already.
fn push_taken(note: &mut Note, value: &ResolvedValue<'_, '_>, flags: bool, first: &str) {
    note.push_str(if flags {
        " is bit "
    } else {
        " has the number "
    });
    note.push_integer(value.number);
    note.push_str(if flags { ", as " } else { ", which " });
    note.push_name(first.as_bytes());
    note.push_str(if flags { " is already" } else { " has already" });
}

/// Adds what is wrong with the number of a value among others.
fn push_wrong_number(
    note: &mut Note,
    declared: &EnumValues<'_, '_>,
    at: usize,
    value: &ResolvedValue<'_, '_>,
) {
    let flags = declared.bit_flags;
    note.push_str(if flags {
        "with bit_flags the value "
    } else {
        "the value "
    });
    note.push_name(named(value).name.as_bytes());
    match declared.base {
        Some(base) if !may_be_written(base, flags, value.number) => {
            push_out_of_range(note, value, flags, base)
        }
        _ => {
            let before = declared.values.get(..at).unwrap_or(&[]);
            let name = first_name(before, value.number);
            push_taken(note, value, flags, name)
        }
    }
}

/// Adds what is wrong with the number of an enum's value at an offset.
pub(crate) fn push_bad_value(note: &mut Note, types: &[ResolvedType<'_, '_, '_>], offset: u64) {
    let Some((declared, at)) = values_around(types, offset) else {
        return;
    };
    if let Some(value) = declared.values.get(at) {
        push_wrong_number(note, declared, at, value)
    }
}
