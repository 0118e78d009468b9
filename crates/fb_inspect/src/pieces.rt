//! Ranges of a buffer's bytes, and what they are.

/// What a range of bytes is, of the part that it belongs to.
#[derive(Clone, Copy, Drop)]
pub(crate) enum What {
    SizePrefix,
    /// The reference to the root.
    Root,
    Identifier,
    Vtable,
    /// The offset from a table to its vtable.
    Table,
    /// What a table has in a slot.
    Field(u16),
    /// The reference to a union's member, under its code.
    Member(u16, u8),
    /// A union's value under a code that no member has.
    UnknownMember(u16, u8),
    /// The begin of a field that the table's type doesn't have.
    UnknownField(u16),
    /// How many bytes a string has, or how many elements a vector.
    Length,
    /// A string's bytes with the zero after them, or a vector's elements.
    Content,
    /// Bytes that nothing refers to.
    Gap,
    /// Where the fault is.
    Fault,
}

/// A range of a buffer's bytes from `start` up to `end`, and what it is.
#[derive(Clone, Copy, Drop)]
pub(crate) struct BufferPiece {
    pub start: u32,
    pub end: u32,
    /// The number of the part that it belongs to, as `Nodes` has it.
    pub node: u32,
    pub what: What,
}
