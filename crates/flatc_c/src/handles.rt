//! The handles that C keeps in its own memory.
ghost use Rattle.std.specs.Prelude.{◌≡◌, is_some};

use crate::held::Held;

/// A schema, or none. All zeros is one that is empty.
#[repr(C)]
#[derive(Drop)]
pub struct SchemaHandle {
    pub held: Held,
    pub(crate) full: bool,
    pub(crate) ghost agrees: { full ≡ is_some held.value },
}

/// Bytes that a call made, or none. All zeros is one that is empty.
#[repr(C)]
#[derive(Drop)]
pub struct Bytes {
    pub data: *const u8,
    pub size: usize,
    pub held: Held,
    pub(crate) full: bool,
    pub(crate) ghost agrees: { full ≡ is_some held.value },
}
