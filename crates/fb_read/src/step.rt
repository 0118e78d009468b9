//! The steps of a path.
use fb_schema::TypeId;

/// A step of a path from the root of a buffer to a place in it.
#[derive(Clone, Copy, Debug, PartialEq, Eq)]
pub enum Step {
    /// From a reference to the table, text or vector that it leads to.
    Reference,
    /// From a table of this type to what is stored in this slot.
    Slot(TypeId, u16),
    /// From a vector of references to this one of them.
    Element(u32),
}
