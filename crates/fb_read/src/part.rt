//! Parts of a buffer that references lead to.
use fb_schema::{Kind, TypeId};

/// What the part of a reference is.
#[derive(Clone, Copy, PartialEq, Eq, Drop)]
pub enum Part {
    /// A string.
    Text,
    /// A table of this type.
    Table(TypeId),
    /// A vector with elements of this kind.
    Vector(Kind),
}

/// A part, and where it begins.
#[derive(Clone, Copy, PartialEq, Eq, Drop)]
pub struct PartAt {
    pub part: Part,
    pub at: usize,
}
