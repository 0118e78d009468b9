//! A buffer, and how it is read.
ghost use Rattle.std.specs.Prelude.{◌<◌, ◌≤◌, ◌^◌, length};
ghost use Rattle.fb_layout.specs.Laid.{StoredKind, size_of, align_of};

use fb_layout::Layout;

/// The bytes that are read, their layout, and the limits: what never changes along a walk.
#[derive(Clone, Copy)]
pub struct Buffer<'a> {
    pub layout: &'a Layout,
    pub bytes: &'a [u8],
    pub most_depth: u8,
    pub most_cells: u32,
    ghost flat: { most_depth ≤ 127 },
    ghost short: { length bytes.now < 2 ^ 31 },
    ghost aligned: { (kind : StoredKind) → 1 ≤ align_of layout.now kind },
    ghost small: { (kind : StoredKind) → size_of layout.now kind < 2 ^ 16 },
}
