//! Values that a schema gives types to.
use fb_schema::TypeId;

/// A typed value.
#[derive(Debug, PartialEq, Drop)]
pub enum Value {
    /// A scalar or a value of an enum.
    Number(i128),
    /// A text.
    Text(String),
    /// The elements of a vector.
    Items(Vec<Value>),
    /// A struct, in the order of its fields.
    Fixed(Vec<Value>),
    /// A table of a type, with one entry a slot.
    Fields(TypeId, Vec<Option<Value>>),
    /// A union's member, under its code.
    Member(u8, Box<Value>),
    /// A union's code that no member has.
    Other(u8),
}
