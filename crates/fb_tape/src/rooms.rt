//! The bytes that the parts of a value take in a buffer at most.
ghost use Rattle.std.specs.Prelude.{ℕ, ◌≡◌, ◌+◌, ◌-◌, length};
ghost use Rattle.fb_layout.specs.Seen.{kind_seen};
ghost use Rattle.fb_layout.specs.Widths.{greatest};
ghost use Rattle.fb_value.specs.Room.{table_room, vector_room};
ghost use Rattle.fb_value.specs.UpTo.{SomeUpTo, at_most_usize};
ghost use Rattle.fb_value.specs.Bounds.{most_bytes};

use fb_layout::Layout;
use fb_schema::{Kind, TypeId};
use fb_value::MOST_BYTES;

// The root's reference and an identifier.
const HEADER: usize = 8;

/// An upper bound on the length of a buffer in bytes whose root takes so many; None exactly where it is over
/// 2,147,483,647.
pub fn buffer_room(layout: &Layout, root: usize) -> Option<u32>
    ensures { (bytes : ℕ) → root ≡ at_most_usize bytes
        → SomeUpTo most_bytes result ((8 + (greatest layout.now - 1)) + bytes) }
{
    let sum = (HEADER + (layout.greatest() as usize - 1)).saturating_add(root);
    if sum <= MOST_BYTES {
        Some(sum as u32)
    } else {
        None
    }
}

/// The bytes that a text takes at most.
pub fn text_room(text: &str) -> usize
    ensures { result ≡ at_most_usize (length text.now + 8) }
{
    text.len().saturating_add(8)
}

/// The bytes that a table and its vtable take at most, without what its references name.
pub fn table_room(layout: &Layout, table: TypeId) -> usize
    ensures { result ≡ table_room layout.now table.0 }
{
    let slots = layout.slots_of(table).len();
    let padding = layout.table_align(table) as usize - 1;
    padding + (layout.widest(table) as usize + (4 + 2 * slots))
}

/// The bytes that the count and the elements of a vector take at most, without what its references name.
pub fn vector_room(layout: &Layout, kind: Kind, count: usize) -> usize
    ensures { result ≡ at_most_usize (vector_room layout.now (kind_seen layout.now kind) count) }
{
    let elements = count.saturating_mul(layout.size_of(kind) as usize);
    let padding = layout.align_of(kind).max(4) - 1;
    elements.saturating_add(4 + padding as usize)
}
