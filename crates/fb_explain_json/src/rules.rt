//! The rule that a JSON value breaks, with what is there and what would be right.
use crate::names::{field_of, push_half, push_unknown_member, push_unknown_name};
use crate::numbers::push_not_whole;
use crate::tokens::number_of;
use fb_findings::{Note, push_shape, range_of_base};
use fb_json::{JsonFault, Place};
use fb_layout::{Layout, kind_in};
use fb_schema::{Base, FieldInfo, Kind, Shape, kind_name, type_name};
use fb_value::Limits;

/// What a JSON text has where a rule is broken.
#[derive(Clone, Copy)]
pub(crate) struct BrokenValue<'t> {
    /// The text from the value on, or from the object that lacks it.
    pub(crate) text: &'t str,
    /// Whether the value is there.
    pub(crate) is_there: bool,
    pub(crate) is_element: bool,
}

/// The number, word or text at the front.
fn token_of(text: &str) -> &str {
    match text.strip_prefix('"') {
        Some(rest) => match rest.find('"') {
            Some(end) => text.get(..end.saturating_add(2)).unwrap_or(text),
            None => text,
        },
        None => number_of(text),
    }
}

/// What kind of value is at the front.
fn kind_of(text: &str) -> &'static str {
    match text.as_bytes() {
        [b'"', ..] => "a text",
        [b'{', ..] => "an object",
        [b'[', ..] => "an array",
        [b't' | b'f', ..] => "true or false",
        [b'n', ..] => "null",
        _ => "a number",
    }
}

/// What kind of value one of a kind is written as.
fn written_as(kind: Kind) -> &'static str {
    match kind {
        Kind::Scalar(Base::Bool) => "true, false, 0 or 1",
        Kind::Scalar(_) => "a number",
        Kind::Enum(_) => "a value's name or number",
        Kind::Struct(_) | Kind::Table(_) | Kind::Union(_) => "an object",
        Kind::Code(_) => "a member's name or number",
        Kind::Text => "a text",
    }
}

fn push_wrong_shape(
    note: &mut Note,
    layout: &Layout,
    text: &str,
    field: Option<&FieldInfo>,
    is_element: bool,
) {
    note.push_str(kind_of(text));
    let Some(field) = field else {
        note.push_str(" where the root's object must be");
        return;
    };
    note.push_str(" where ");
    match field.shape {
        Shape::Many(_) if !is_element => note.push_str("an array"),
        Shape::Many(kind) | Shape::One(kind) => note.push_str(written_as(kind)),
    }
    note.push_str(" must be: the field's type is ");
    let name = kind_name(layout.schema(), kind_in(field.shape));
    push_shape(note, field.shape, name);
}

/// The basic type of a field's numbers.
fn base_of(layout: &Layout, field: &FieldInfo) -> Option<Base> {
    match kind_in(field.shape) {
        Kind::Scalar(base) => Some(base),
        Kind::Enum(number) => {
            let declared = layout.schema().types().get(number.0 as usize)?;
            let (base, _, _) = declared.body.as_enum()?;
            Some(base)
        }
        Kind::Code(_) => Some(Base::U8),
        _ => None,
    }
}

fn push_out_of_range(note: &mut Note, layout: &Layout, text: &str, field: Option<&FieldInfo>) {
    note.push_cut(token_of(text).as_bytes());
    let Some(field) = field else {
        note.push_str(" is out of range");
        return;
    };
    match base_of(layout, field) {
        Some(Base::Bool) => note.push_str(" isn't true, false, 0 or 1"),
        Some(base) => {
            note.push_str(" isn't in ");
            note.push_str(range_of_base(base));
            note.push_str(", the range of ");
            note.push_str(kind_name(layout.schema(), kind_in(field.shape)))
        }
        None => note.push_str(" is out of range"),
    }
}

fn push_missing(
    note: &mut Note,
    layout: &Layout,
    place: Place,
    field: Option<&FieldInfo>,
    rest: &str,
) {
    note.push_cut(type_name(layout.schema(), place.owner).as_bytes());
    note.push_str(" needs the field ");
    note.push_name(field.map_or("?", |field| field.name.as_str()).as_bytes());
    note.push_str(rest);
}

/// Why a required field counts as missing.
fn required_sentence(value: BrokenValue<'_>) -> &'static str {
    if value.is_there {
        ": it is required, and null counts as absent"
    } else {
        ": it is required"
    }
}

fn push_limit(note: &mut Note, front: &str, most: u64, rest: &str) {
    note.push_str(front);
    note.push_number(most);
    note.push_str(rest);
}

/// Adds the rule that a value breaks; `unknown` is the name of an unknown member.
pub(crate) fn push_rule(
    note: &mut Note,
    layout: &Layout,
    limits: Limits,
    fault: JsonFault,
    value: BrokenValue<'_>,
    unknown: Option<&str>,
) {
    let Some(place) = fault.place() else {
        return;
    };
    let field = field_of(layout.schema(), place);
    let text = value.text;
    match fault {
        JsonFault::WrongShape(_) => push_wrong_shape(note, layout, text, field, value.is_element),
        JsonFault::NotWhole(_) => push_not_whole(note, token_of(text)),
        JsonFault::OutOfRange(_) => push_out_of_range(note, layout, text, field),
        JsonFault::UnknownName(_) => push_unknown_name(
            note,
            layout.schema(),
            token_of(text),
            field,
        ),
        JsonFault::UnknownMember(_) => push_unknown_member(
            note,
            layout.schema(),
            place.owner,
            unknown,
        ),
        JsonFault::MissingMember(_) => {
            push_missing(note, layout, place, field, ": a struct has all its fields")
        }
        JsonFault::MissingRequired(_) => {
            push_missing(note, layout, place, field, required_sentence(value))
        }
        JsonFault::UnionMismatch(_) => push_half(note, layout.schema(), place, value.is_there),
        JsonFault::TooDeep(_) => push_limit(
            note,
            "tables are nested deeper than ",
            u64::from(limits.most_depth()),
            " levels",
        ),
        JsonFault::TooManyCells(_) => push_limit(
            note,
            "more than ",
            u64::from(limits.most_cells()),
            " tables, strings, vectors, elements and bytes of strings",
        ),
        JsonFault::Memory => {}
    }
}
