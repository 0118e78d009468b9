//! What the name of a type means.
ghost use Rattle.std.specs.Prelude.{◌≡◌};
ghost use Rattle.fb_resolve.specs.Meaning.{type_name};

use fb_schema::Kind;
use fb_syntax::{DottedName, FieldType};

/// A type of the language or of the text, a float type, which is left out, or nothing that is known.
#[derive(Clone, Copy, PartialEq, Eq, Drop)]
pub enum Meaning {
    Known(Kind),
    Float,
    Unknown,
}

/// The name in a field's type.
pub fn type_name<'d, 's>(kind: &'d FieldType<'s>) -> &'d DottedName<'s>
    ensures { result.now ≡ type_name kind.now }
{
    match kind {
        FieldType::One(name) | FieldType::Many(_, name) => name,
    }
}
