//! Numbers that texts name in enums: a text names flags with one blank between two.
ghost use Rattle.std.specs.Prelude.{◌≡◌, pos};
ghost use Rattle.fb_schema.specs.Schema.{body_at};
ghost use Rattle.fb_schema.specs.Paths.{number_by_path};
ghost use Rattle.fb_json.specs.Flags.{has_flags, flags_named, number_told, words};

use fb_schema::{Schema, TypeId};

/// Whether the values of an enum are flags.
pub fn has_flags(schema: &Schema, enumeration: TypeId) -> bool
    ensures { result ≡ has_flags (body_at schema.now enumeration.0) }
{
    let Some(info) = schema.types().get(enumeration.0 as usize) else {
        return false;
    };
    match info.body.as_enum() {
        Some((_, flags, _)) => flags,
        None => false,
    }
}

/// The flags of names with one blank between them, joined by or.
fn flags_of(schema: &Schema, enumeration: TypeId, names: &str) -> Option<i128>
    ensures { result
        ≡ flags_named (number_by_path schema.now enumeration.0) (pos 0) (words names.now) }
{
    let mut flags = 0;
    let mut left = names;
    while let Some((name, rest)) = left.split_once(' ') {
        flags |= schema.number_by_path(enumeration, name)?;
        left = rest;
    }
    Some(flags | schema.number_by_path(enumeration, left)?)
}

/// The number that a text names: that of a value, or of several flags with one blank between them.
#[tactic(auto, unfolding(crate::specs::Flags::number_told))]
pub(crate) fn number_told(schema: &Schema, enumeration: TypeId, text: &str) -> Option<i128>
    ensures { result ≡ number_told schema.now enumeration.0 text.now }
{
    if has_flags(schema, enumeration) {
        flags_of(schema, enumeration, text)
    } else {
        schema.number_by_path(enumeration, text)
    }
}
