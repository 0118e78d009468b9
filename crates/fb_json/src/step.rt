//! The steps of a path.
use fb_schema::TypeId;

/// A step of a path from the root of a JSON tree to a place in it.
#[derive(Clone, Copy, Debug, PartialEq, Eq)]
pub enum JsonStep {
    /// From an object that is a table of this type to the member of this slot, which may be absent.
    Slot(TypeId, u16),
    /// From an object that is a struct of this type to the member of this field, which may be absent.
    Field(TypeId, u16),
    /// From an array to this element.
    Element(usize),
}
