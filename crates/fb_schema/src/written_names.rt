//! Names of types, as a schema text writes them.
ghost use Rattle.std.specs.Prelude.{◌≡◌, [], ◌∷◌, unwrap_or};
ghost use Rattle.fb_schema.specs.Found.{name_at};

use crate::kinds::{Base, Kind, TypeId};
use crate::schema::Schema;

/// The full name of a type.
pub fn type_name(schema: &Schema, number: TypeId) -> &str
    ensures { result.now ≡ unwrap_or (name_at schema.now number.0) (63 ∷ []) }
{
    schema.name_at(number).unwrap_or("?")
}

pub fn base_name(base: Base) -> &'static str {
    match base {
        Base::Bool => "bool",
        Base::I8 => "byte",
        Base::U8 => "ubyte",
        Base::I16 => "short",
        Base::U16 => "ushort",
        Base::I32 => "int",
        Base::U32 => "uint",
        Base::I64 => "long",
        Base::U64 => "ulong",
    }
}

/// The name of one value's type.
pub fn kind_name(schema: &Schema, kind: Kind) -> &str {
    match kind {
        Kind::Scalar(base) => base_name(base),
        Kind::Enum(number)
        | Kind::Struct(number)
        | Kind::Table(number)
        | Kind::Union(number)
        | Kind::Code(number) => type_name(schema, number),
        Kind::Text => "string",
    }
}
