//! What a field or an element of a vector may be.
ghost use Rattle.std.specs.Prelude.{◌≡◌, ◌↔◌, IsTrue};
ghost use Rattle.fb_schema.specs.Alignments.{base_size};
ghost use Rattle.fb_schema.specs.Ranges.{holds};
ghost use Rattle.fb_schema.specs.WellDeclared.{InRange};

/// The number of a type's declaration, from 0, over tables, structs, enums and unions together.
#[derive(Clone, Copy, Debug, PartialEq, Eq, Drop)]
pub struct TypeId(pub u64);

/// A basic scalar type (Writing a schema, "Scalar types").
#[derive(Clone, Copy, Debug, PartialEq, Eq, Drop)]
pub enum Base {
    Bool,
    I8,
    U8,
    I16,
    U16,
    I32,
    U32,
    I64,
    U64,
}

impl Base {
    /// The bytes that a number takes; its place is a multiple of the same.
    pub fn size(self) -> u16
        ensures { result ≡ base_size self }
    {
        match self {
            Base::Bool | Base::I8 | Base::U8 => 1,
            Base::I16 | Base::U16 => 2,
            Base::I32 | Base::U32 => 4,
            Base::I64 | Base::U64 => 8,
        }
    }

    /// Whether a number is one of the type's; a `bool` is 0 or 1.
    pub fn holds(self, number: i128) -> bool
        ensures test { result ≡ holds self number }
        ensures range { IsTrue result ↔ InRange self number }
    {
        let (least, greatest) = match self {
            Base::Bool => (0, 1),
            Base::I8 => (i128::from(i8::MIN), i128::from(i8::MAX)),
            Base::U8 => (0, i128::from(u8::MAX)),
            Base::I16 => (i128::from(i16::MIN), i128::from(i16::MAX)),
            Base::U16 => (0, i128::from(u16::MAX)),
            Base::I32 => (i128::from(i32::MIN), i128::from(i32::MAX)),
            Base::U32 => (0, i128::from(u32::MAX)),
            Base::I64 => (i128::from(i64::MIN), i128::from(i64::MAX)),
            Base::U64 => (0, i128::from(u64::MAX)),
        };
        least <= number && number <= greatest
    }
}

/// What one field or element is. `Code(u)` is a union's `_type` slot.
#[derive(Clone, Copy, Debug, PartialEq, Eq, Drop)]
pub enum Kind {
    Scalar(Base),
    Enum(TypeId),
    Struct(TypeId),
    Table(TypeId),
    Union(TypeId),
    Code(TypeId),
    Text,
}

/// One value of a kind, or a vector of such values.
#[derive(Clone, Copy, Debug, PartialEq, Eq, Drop)]
pub enum Shape {
    One(Kind),
    Many(Kind),
}
