//! Values in memory, as a printer reads them.
ghost use Rattle.std.specs.Prelude.{◌≡◌, ℕ, ◌<◌, Some, None, option_map};
ghost use Rattle.fb_json.specs.declared.faults.Place.{Place};
ghost use Rattle.fb_text.specs.Unnamed.{nth_child, unnamed_from};
ghost use Rattle.fb_value.specs.Datum.{SlotEntries, a_table};
ghost use Rattle.fb_value.specs.View.{view, entries_view};
ghost use Rattle.fb_text.specs.Shown.{IsTop, HasWeight};
ghost use Rattle.fb_owned.specs.ShownValues.{size, size_in, count_in};

use fb_read::{NumberItems, TextItems};
use fb_text::{Shown, ValueHead};
use fb_value::Value;

/// What a value is.
fn top_of(value: &Value) -> ValueHead<'_>
    ensures top { IsTop result (Some (view value.now)) }
    ensures heavy { HasWeight result (size (view value.now)) }
{
    match value {
        Value::Number(number) => ValueHead::Number(*number),
        Value::Text(text) => ValueHead::Text(text.as_str()),
        Value::Items(_) => ValueHead::Vector,
        Value::Fixed(_) => ValueHead::Struct,
        Value::Fields(owner, _) => ValueHead::Table(*owner),
        Value::Member(code, _) => ValueHead::Member(*code),
        Value::Other(_) => ValueHead::Unknown,
    }
}

/// The entries of a table; none of another value.
fn entries_of(value: &Value) -> &[Option<Value>]
    ensures { (t : ℕ) (es : SlotEntries) → view value.now ≡ a_table t es → es ≡ entries_view result.now }
{
    match value {
        Value::Fields(_, entries) => entries.as_slice(),
        _ => &[],
    }
}

/// How many elements a vector has; none are in another value.
fn count_of(value: &Value) -> usize
    ensures { result ≡ count_in (Some (view value.now)) }
{
    match value {
        Value::Items(items) => items.len(),
        _ => 0,
    }
}

/// How many entries, elements or fields are in a value; a union has one member.
fn children_of(value: &Value) -> usize
    ensures behind { (at : Place) → unnamed_from at (Some (view value.now)) result ≡ None }
    ensures heavy { 0 < result → 0 < size (view value.now) }
{
    match value {
        Value::Items(items) => items.len(),
        Value::Fixed(parts) => parts.len(),
        Value::Fields(_, entries) => entries.len(),
        Value::Member(_, _) => 1,
        Value::Number(_) | Value::Text(_) | Value::Other(_) => 0,
    }
}

/// One of them, if there is one.
fn child_of(value: &Value, i: usize) -> Option<&Value>
    ensures known { option_map (λ v. view v.now) result ≡ nth_child (Some (view value.now)) i }
    ensures lighter { size_in (option_map (λ v. view v.now) result) < size (view value.now) }
{
    match value {
        Value::Items(items) => items.as_slice().get(i),
        Value::Fixed(parts) => parts.as_slice().get(i),
        Value::Fields(_, entries) => {
            let entry = entries.as_slice().get(i)?;
            entry.as_ref()
        }
        Value::Member(_, member) if i == 0 => Some(member),
        _ => None,
    }
}

/// A `Value` or what is in one, if there is one.
#[derive(Clone, Copy)]
pub(crate) struct ValueEntry<'a>(pub Option<&'a Value>);

impl Shown for ValueEntry<'_> {
    ghost use Rattle.std.specs.Prelude.{◌≡◌, ◌^◌};
    ghost use Rattle.fb_owned.specs.ShownValues.{datum_of, size_in};

    ghost shows = { λ e L o. o ≡ datum_of e };

    ghost weight = { λ e. size_in (datum_of e) };

    ghost width = { λ _. 2 ^ 64 };

    #[inline]
    fn head(&self) -> ValueHead<'_> {
        match self.0 {
            Some(value) => top_of(value),
            None => ValueHead::Absent,
        }
    }

    #[inline]
    fn printed_slots(self, _defaults: bool, all: usize) -> usize {
        match self.0 {
            Some(value) => all.min(entries_of(value).len()),
            None => 0,
        }
    }

    #[inline]
    fn next_printed(self, _defaults: bool, from: usize, _end: usize) -> usize {
        from
    }

    #[inline]
    fn count(self) -> usize {
        match self.0 {
            Some(value) => count_of(value),
            None => 0,
        }
    }

    #[inline]
    fn numbers(&self) -> Option<NumberItems<'_>> {
        None
    }

    #[inline]
    fn texts(&self) -> Option<TextItems<'_>> {
        None
    }

    #[inline]
    fn searched(&self) -> usize {
        match self.0 {
            Some(value) => children_of(value),
            None => 0,
        }
    }

    #[inline]
    fn next_searched(&self, from: usize, _end: usize) -> usize {
        from
    }

    #[inline]
    fn is_searched(&self, _i: usize) -> bool {
        true
    }

    #[inline]
    fn child(self, i: usize) -> Self {
        match self.0 {
            Some(value) => ValueEntry(child_of(value, i)),
            None => ValueEntry(None),
        }
    }
}
