//! The names of basic types.
ghost use Rattle.std.specs.Prelude.{◌≡◌, Some};
ghost use Rattle.fb_resolve.specs.BasicTypes.{base_named, basic_type, is_float, is_reserved};
ghost use Rattle.fb_resolve.specs.Meaning.{basic_or};
ghost use Rattle.fb_resolve.specs.declared.meanings.Meaning.{Meaning as Meant};

use crate::meanings::Meaning;
use fb_schema::{Base, Kind};

/// A type that needs no declaration.
#[derive(Clone, Copy, Drop)]
pub(crate) enum BasicType {
    Scalar(Base),
    Text,
    Float,
}

impl BasicType {
    /// What its name means.
    pub(crate) fn meaning(self) -> Meaning
        ensures { (other : Meant) → result ≡ basic_or (Some self) other }
    {
        match self {
            BasicType::Scalar(base) => Meaning::Known(Kind::Scalar(base)),
            BasicType::Text => Meaning::Known(Kind::Text),
            BasicType::Float => Meaning::Float,
        }
    }
}

/// The basic type of a name.
#[tactic(auto, unfolding(crate::specs::BasicTypes::basic_type))]
pub(crate) fn basic_type(name: &str) -> Option<BasicType>
    ensures { result ≡ basic_type name.now }
{
    match name {
        "string" => Some(BasicType::Text),
        "int" | "int32" => Some(BasicType::Scalar(Base::I32)),
        "bool" => Some(BasicType::Scalar(Base::Bool)),
        "byte" | "int8" => Some(BasicType::Scalar(Base::I8)),
        "ubyte" | "uint8" => Some(BasicType::Scalar(Base::U8)),
        "short" | "int16" => Some(BasicType::Scalar(Base::I16)),
        "ushort" | "uint16" => Some(BasicType::Scalar(Base::U16)),
        "uint" | "uint32" => Some(BasicType::Scalar(Base::U32)),
        "long" | "int64" => Some(BasicType::Scalar(Base::I64)),
        "ulong" | "uint64" => Some(BasicType::Scalar(Base::U64)),
        "float" | "float32" | "double" | "float64" => Some(BasicType::Float),
        _ => None,
    }
}

/// The names of the basic types that are supported.
pub const BASIC_TYPES: &[&str] = &[
    "bool", "byte", "ubyte", "short", "ushort", "int", "uint", "long", "ulong", "int8", "uint8",
    "int16", "uint16", "int32", "uint32", "int64", "uint64", "string",
];

/// The basic type of a name, if its values are numbers or `bool`s.
pub fn base_named(name: &str) -> Option<Base>
    ensures { result ≡ base_named name.now }
{
    match basic_type(name)? {
        BasicType::Scalar(base) => Some(base),
        BasicType::Text | BasicType::Float => None,
    }
}

/// Whether a name is that of a floating-point type.
pub fn is_float(name: &str) -> bool
    ensures { result ≡ is_float name.now }
{
    matches!(basic_type(name), Some(BasicType::Float))
}

/// Whether no declared type may have the name.
pub fn is_reserved(name: &str) -> bool
    ensures { result ≡ is_reserved name.now }
{
    basic_type(name).is_some()
}
