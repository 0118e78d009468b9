//! What is counted of values.
ghost use Rattle.std.specs.Prelude.{◌≡◌, ◌≤◌, ◌^◌, ◌+◌, max, ◌&&◌};
ghost use Rattle.fb_value.specs.View.{view, parts_view, entries_view};
ghost use Rattle.fb_value.specs.Counts.{cells as cells_of, depth as depth_of, is_whole, nesting};
ghost use Rattle.fb_owned.specs.Counted.{IsCountOf, IsCountOfParts, IsCountOfEntries};
ghost use Rattle.fb_value.specs.UpTo.{SomeBelow, at_most_usize};

use fb_value::Value;

/// One for each table, text and vector, for each byte of a text and each element of a vector; None
/// where that is over the type's range.
pub fn cells(value: &Value) -> Option<u32>
    requires { nesting (view value.now) ≤ 300 }
    ensures { SomeBelow (2 ^ 32) result (cells_of (view value.now)) }
{
    u32::try_from(count(value).cells).ok()
}

/// The number of tables on the longest way, the outermost counted; None where that is over the
/// type's range.
pub fn depth(value: &Value) -> Option<u8>
    requires { nesting (view value.now) ≤ 300 }
    ensures { SomeBelow (2 ^ 8) result (depth_of (view value.now)) }
{
    u8::try_from(count(value).depth).ok()
}

/// Whether no union in it has a code that no member has.
pub fn whole(value: &Value) -> bool
    requires { nesting (view value.now) ≤ 300 }
    ensures { result ≡ is_whole (view value.now) }
{
    count(value).is_whole
}

// What is counted of a value, with each number up to its type's greatest.
#[derive(Clone, Copy)]
struct Counts {
    cells: usize,
    depth: usize,
    is_whole: bool,
}

const NOTHING: Counts = Counts {
    cells: 0,
    depth: 0,
    is_whole: true,
};

#[cycle(count)]
fn count(value: &Value) -> Counts
    ensures { IsCountOf result (view value.now) }
{
    match value {
        Value::Number(_) => NOTHING,
        Value::Text(text) => Counts {
            cells: text.len().saturating_add(1),
            ..NOTHING
        },
        Value::Items(items) => {
            let within = count_parts(items);
            let own = items.len().saturating_add(1);
            Counts {
                cells: own.saturating_add(within.cells),
                ..within
            }
        }
        Value::Fixed(parts) => count_parts(parts),
        Value::Fields(_, entries) => {
            let within = count_entries(entries);
            Counts {
                cells: within.cells.saturating_add(1),
                depth: within.depth.saturating_add(1),
                ..within
            }
        }
        Value::Member(_, member) => count(member),
        Value::Other(_) => Counts {
            is_whole: false,
            ..NOTHING
        },
    }
}

#[cycle(count)]
fn count_parts(parts: &[Value]) -> Counts
    ensures { IsCountOfParts result (parts_view parts.now) }
{
    let mut total = NOTHING;
    for part in parts {
        total = join(total, count(part));
    }
    total
}

#[cycle(count)]
fn count_entries(entries: &[Option<Value>]) -> Counts
    ensures { IsCountOfEntries result (entries_view entries.now) }
{
    let mut total = NOTHING;
    for entry in entries {
        if let Some(value) = entry {
            total = join(total, count(value));
        }
    }
    total
}

// What is counted of one value and of the next together.
fn join(first: Counts, next: Counts) -> Counts
    ensures cells { result.cells ≡ at_most_usize (first.cells + next.cells) }
    ensures depth { result.depth ≡ max first.depth next.depth }
    ensures whole { result.is_whole ≡ (first.is_whole && next.is_whole) }
{
    Counts {
        cells: first.cells.saturating_add(next.cells),
        depth: first.depth.max(next.depth),
        is_whole: first.is_whole && next.is_whole,
    }
}
