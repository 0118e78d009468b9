//! What may still follow in a tree.

/// How deep tables may be nested from here on, and how many cells are left.
#[derive(Clone, Copy, Debug, PartialEq, Eq)]
pub struct Room {
    pub levels: u8,
    pub left: u32,
}
