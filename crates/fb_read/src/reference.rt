//! References to what a vector's elements are.
use fb_schema::TypeId;

/// What an element leads to that is a reference.
#[derive(Clone, Copy, Debug, PartialEq, Eq)]
pub enum Reference {
    ToText,
    ToTable(TypeId),
}
