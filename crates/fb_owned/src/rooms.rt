//! An upper bound on the length of a value's buffer.
ghost use Rattle.std.specs.Prelude.{◌≡◌, ◌≤◌, option_map};
ghost use Rattle.fb_layout.specs.Seen.{kind_seen, shape_seen, slot_seen, slots_seen};
ghost use Rattle.fb_value.specs.View.{view, parts_view, entries_view};
ghost use Rattle.fb_value.specs.Counts.{nesting};
ghost use Rattle.fb_value.specs.Fits.{FitsRoot};
ghost use Rattle.fb_value.specs.Room.{room as room_at, parts_room, entries_room, room_of};
ghost use Rattle.fb_value.specs.Entries.{entry_room};
ghost use Rattle.fb_value.specs.UpTo.{SomeUpTo, at_most_usize};
ghost use Rattle.fb_value.specs.Bounds.{most_bytes};

use fb_layout::Layout;
use fb_schema::{FieldInfo, Kind, Shape};
use fb_tape::{buffer_room, table_room, text_room, vector_room};
use fb_value::Value;

/// An upper bound on the length of a root value's buffer in bytes; None exactly where it is over
/// 2,147,483,647.
pub fn room(layout: &Layout, value: &Value) -> Option<u32>
    requires nests { nesting (view value.now) ≤ 300 }
    requires fits { FitsRoot layout.now (view value.now) }
    ensures { SomeUpTo most_bytes result (room_of layout.now (view value.now)) }
{
    let shape = Shape::One(Kind::Table(layout.schema().root()));
    buffer_room(layout, room_in(layout, shape, value))
}

// The part that a value takes outside of where it stands.
#[cycle(room)]
fn room_in(layout: &Layout, shape: Shape, value: &Value) -> usize
    ensures { result ≡ at_most_usize (room_at layout.now (shape_seen layout.now shape) (view value.now)) }
{
    match value {
        Value::Number(_) | Value::Fixed(_) | Value::Other(_) => 0,
        Value::Text(text) => text_room(text),
        Value::Items(items) => match shape {
            Shape::One(_) => 0,
            Shape::Many(kind) => {
                let own = vector_room(layout, kind, items.len());
                own.saturating_add(room_in_parts(layout, kind, items))
            }
        },
        Value::Fields(owner, entries) => {
            let slots = layout.slots_of(*owner);
            let own = table_room(layout, *owner);
            own.saturating_add(room_in_entries(layout, slots, entries))
        }
        Value::Member(_, member) => room_in(layout, shape, member),
    }
}

#[cycle(room)]
fn room_in_parts(layout: &Layout, kind: Kind, parts: &[Value]) -> usize
    ensures { result ≡ at_most_usize
        (parts_room layout.now (kind_seen layout.now kind) (parts_view parts.now)) }
{
    let mut total = 0usize;
    for part in parts {
        // As most entries, most parts are numbers.
        if let Value::Number(_) = part {
            continue;
        }
        total = total.saturating_add(room_in(layout, Shape::One(kind), part));
    }
    total
}

#[cycle(room)]
fn room_in_entries(layout: &Layout, slots: &[FieldInfo], entries: &[Option<Value>]) -> usize
    ensures { result ≡ at_most_usize
        (entries_room layout.now (slots_seen layout.now slots.now) (entries_view entries.now)) }
{
    let mut total = 0usize;
    for i in 0..slots.len().min(entries.len()) {
        total = total.saturating_add(room_in_entry(layout, &slots[i], &entries[i]));
    }
    total
}

// Most entries are numbers, which take no room of their own.
#[cycle(room)]
fn room_in_entry(layout: &Layout, slot: &FieldInfo, entry: &Option<Value>) -> usize
    ensures { result ≡ at_most_usize
        (entry_room layout.now (slot_seen layout.now slot.now) (option_map view entry.now)) }
{
    match entry {
        None | Some(Value::Number(_)) => 0,
        Some(value) => room_in(layout, slot.shape, value),
    }
}
