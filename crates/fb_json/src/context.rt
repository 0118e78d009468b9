//! What a JSON tree is read with.
use fb_layout::Layout;
use std::alloc::Global;

/// What a JSON tree is read with: the allocator, the layout of its schema, and an option.
#[derive(Clone, Copy)]
pub struct JsonContext<'a> {
    /// Where the memory of values comes from.
    pub alloc: Global,
    /// The layout of the schema that gives the tree its meaning.
    pub layout: &'a Layout,
    /// Whether unknown JSON fields are ignored.
    pub unknown: bool,
}
