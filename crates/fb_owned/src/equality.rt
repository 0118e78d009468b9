//! Whether two values are equal.
ghost use Rattle.std.specs.Prelude.{◌≡◌, ◌≤◌, ◌↔◌, IsTrue, option_map};
ghost use Rattle.fb_value.specs.View.{view, parts_view, entries_view};
ghost use Rattle.fb_value.specs.Counts.{nesting};

use fb_value::Value;

/// Whether both are the same value, whatever memory they are in.
pub fn same(first: &Value, second: &Value) -> bool
    requires first_nests { nesting (view first.now) ≤ 300 }
    requires second_nests { nesting (view second.now) ≤ 300 }
    ensures { IsTrue result ↔ (view first.now ≡ view second.now) }
{
    same_in(first, second)
}

#[cycle(same)]
fn same_in(first: &Value, second: &Value) -> bool
    ensures { IsTrue result ↔ (view first.now ≡ view second.now) }
{
    match (first, second) {
        (Value::Number(a), Value::Number(b)) => *a == *b,
        (Value::Text(a), Value::Text(b)) => a.as_str() == b.as_str(),
        (Value::Items(a), Value::Items(b)) => same_parts(a, b),
        (Value::Fixed(a), Value::Fixed(b)) => same_parts(a, b),
        (Value::Fields(s, a), Value::Fields(t, b)) => s == t && same_entries(a, b),
        (Value::Member(s, a), Value::Member(t, b)) => *s == *t && same_in(a, b),
        (Value::Other(a), Value::Other(b)) => *a == *b,
        _ => false,
    }
}

#[cycle(same)]
fn same_parts(first: &[Value], second: &[Value]) -> bool
    ensures { IsTrue result ↔ (parts_view first.now ≡ parts_view second.now) }
{
    if first.len() != second.len() {
        return false;
    }
    for i in 0..first.len() {
        if !same_in(&first[i], &second[i]) {
            return false;
        }
    }
    true
}

#[cycle(same)]
fn same_entries(first: &[Option<Value>], second: &[Option<Value>]) -> bool
    ensures { IsTrue result ↔ (entries_view first.now ≡ entries_view second.now) }
{
    if first.len() != second.len() {
        return false;
    }
    for (i, entry) in first.iter().enumerate() {
        if !same_entry(entry, &second[i]) {
            return false;
        }
    }
    true
}

#[cycle(same)]
fn same_entry(first: &Option<Value>, second: &Option<Value>) -> bool
    ensures { IsTrue result ↔ (option_map view first.now ≡ option_map view second.now) }
{
    match (first, second) {
        (None, None) => true,
        (Some(a), Some(b)) => same_in(a, b),
        _ => false,
    }
}
