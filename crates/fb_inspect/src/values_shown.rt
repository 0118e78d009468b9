//! Values as JSON has them, cut where they are long.
ghost use Rattle.std.specs.Prelude.{◌<◌};

use crate::page_lines::DIGITS;
use fb_explain_pages::Page;
use fb_layout::Layout;
use fb_read::number_within;
use fb_schema::{Base, Kind, Schema, TypeId, members_of};

// How many characters of a text are shown, and how many numbers of a vector.
const LONGEST_TEXT: usize = 32;

const MOST_NUMBERS: usize = 8;

/// Adds a character as it is in a JSON string.
fn push_character(page: &mut Page, character: char) {
    match character {
        '"' => page.line.push_str("\\\""),
        '\\' => page.line.push_str("\\\\"),
        '\u{8}' => page.line.push_str("\\b"),
        '\u{c}' => page.line.push_str("\\f"),
        '\n' => page.line.push_str("\\n"),
        '\r' => page.line.push_str("\\r"),
        '\t' => page.line.push_str("\\t"),
        '\0'..='\u{1f}' => {
            page.line.push_str("\\u00");
            page.line
                .push_str(if character < '\u{10}' { "0" } else { "1" });
            page.line.push_str(DIGITS[character as usize % 16]);
        }
        _ => page.line.push_str(character.encode_utf8(&mut [0; 4])),
    }
}

/// Adds a text in quotes, and three dots after the quotes of its front where it is long.
pub(crate) fn push_text(page: &mut Page, text: &str) {
    page.line.push_str("\"");
    let mut left = LONGEST_TEXT;
    for character in text.chars() {
        if left == 0 {
            page.line.push_str("\"...");
            return;
        }
        left -= 1;
        push_character(page, character);
    }
    page.line.push_str("\"");
}

/// Whether an enum's values are flags.
fn has_flags(schema: &Schema, enumeration: TypeId) -> bool {
    schema
        .types()
        .get(enumeration.0 as usize)
        .is_some_and(|info| matches!(info.body.as_enum(), Some((_, true, _))))
}

/// The bits of a number, up to 64 of them; a negative one has none here.
fn bits_of(number: i128) -> u64 {
    if number < 0 {
        return 0;
    }
    (number as u128 % (1 << 64)) as u64
}

/// The name of the bit at a place, where a number has it.
fn bit_name(schema: &Schema, enumeration: TypeId, bits: u64, place: u32) -> Option<Option<&str>>
    requires { place < 64 }
{
    let bit = 1u64 << place;
    if bits & bit == 0 {
        return None;
    }
    Some(schema.name_of_number(enumeration, i128::from(bit)))
}

/// Whether a number has bits and each has a name.
fn are_named(schema: &Schema, enumeration: TypeId, bits: u64) -> bool {
    for place in 0..64u32 {
        if let Some(None) = bit_name(schema, enumeration, bits, place) {
            return false;
        }
    }
    bits != 0
}

/// Adds the names of a number's bits, with a space between two.
fn push_flags(page: &mut Page, schema: &Schema, enumeration: TypeId, bits: u64) {
    let mut gap = "\"";
    for place in 0..64u32 {
        if let Some(Some(name)) = bit_name(schema, enumeration, bits, place) {
            page.line.push_str(gap);
            page.line.push_str(name);
            gap = " ";
        }
    }
    page.line.push_str("\"");
}

/// Adds a number of a kind: of an enum its name or the names of its bits, where it has them.
pub(crate) fn push_number(page: &mut Page, schema: &Schema, kind: Kind, number: i128) {
    match kind {
        Kind::Scalar(Base::Bool) => page
            .line
            .push_str(if number == 0 { "false" } else { "true" }),
        Kind::Enum(enumeration) if has_flags(schema, enumeration) => {
            let bits = bits_of(number);
            if are_named(schema, enumeration, bits) {
                push_flags(page, schema, enumeration, bits)
            } else {
                page.line.push_integer(number)
            }
        }
        Kind::Enum(enumeration) => match schema.name_of_number(enumeration, number) {
            Some(name) => {
                page.line.push_str("\"");
                page.line.push_str(name);
                page.line.push_str("\"");
            }
            None => page.line.push_integer(number),
        },
        _ => page.line.push_integer(number),
    }
}

/// The basic type of a kind's numbers.
fn base_of(layout: &Layout, kind: Kind) -> Option<Base> {
    match kind {
        Kind::Scalar(base) => Some(base),
        Kind::Enum(values) => Some(layout.base_of(values)),
        _ => None,
    }
}

/// Adds ` = ` and the number at a position, where the kind is a number's and it is within the bytes.
pub(crate) fn push_number_at(
    page: &mut Page,
    layout: &Layout,
    bytes: &[u8],
    kind: Kind,
    at: usize,
) {
    if let Some(base) = base_of(layout, kind)
        && let Some(number) = number_within(bytes, at, base)
    {
        page.line.push_str(" = ");
        push_number(page, layout.schema(), kind, number);
    }
}

/// Adds ` = ` and the numbers of a vector in brackets, the first ones where there are many.
pub(crate) fn push_numbers(
    page: &mut Page,
    layout: &Layout,
    bytes: &[u8],
    kind: Kind,
    at: usize,
    count: usize,
) {
    let Some(base) = base_of(layout, kind) else {
        return;
    };
    let size = usize::from(base.size());
    page.line.push_str(" = [");
    for i in 0..count.min(MOST_NUMBERS) {
        if i > 0 {
            page.line.push_str(", ");
        }
        if let Some(number) = number_within(
            bytes,
            at.saturating_add(i.saturating_mul(size)),
            base,
        ) {
            push_number(page, layout.schema(), kind, number);
        }
    }
    page.line
        .push_str(if count > MOST_NUMBERS { ", ...]" } else { "]" });
}

/// Adds ` = ` and the name of the member that a union's code names, or the code.
pub(crate) fn push_code(page: &mut Page, schema: &Schema, union: TypeId, code: u8) {
    page.line.push_str(" = ");
    if code == 0 {
        page.line.push_str("\"NONE\"");
        return;
    }
    match members_of(schema, union).get(usize::from(code - 1)) {
        Some(member) => {
            page.line.push_str("\"");
            page.line.push_str(member.0.as_str());
            page.line.push_str("\"");
        }
        None => {
            page.line.push_number(u64::from(code));
            page.line.push_str(", which no member has");
        }
    }
}
