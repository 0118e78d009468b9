//! Few names are compared one after another.
ghost use Rattle.std.specs.Prelude.{◌≡◌, map, find, bytes_eq, option_copied, option_map};
ghost use Rattle.fb_schema.specs.Found.{index_of};
ghost use Rattle.fb_schema.specs.Seen.{field_seen};

use crate::named::Named;
use crate::types::FieldInfo;

/// If there are at most this many names, they are compared one after another, which takes fewer instructions than a
/// digest.
pub const FEW_NAMES: usize = 16;

/// Whether two names are equal. Most that differ do so in their length or in their first byte, and most are short.
#[inline(always)]
fn is_same(one: &str, other: &str) -> bool
    ensures { result ≡ bytes_eq one.now other.now }
{
    let (one, other) = (one.as_bytes(), other.as_bytes());
    if one.len() != other.len() {
        return false;
    }
    for k in 0..one.len() {
        if one[k] != other[k] {
            return false;
        }
    }
    true
}

/// The number of the first item that has a name, from 0.
#[inline(always)]
pub(crate) fn position_among<T: Named>(items: &[T], name: &str) -> Option<usize>
    ensures { result ≡ index_of (map T.name items.now) name.now }
{
    for (place, item) in items.iter().enumerate() {
        if is_same(name, item.name()) {
            return Some(place);
        }
    }
    None
}

/// The first of a few fields that has a name.
#[inline(always)]
pub fn field_among<'s>(fields: &'s [FieldInfo], name: &str) -> Option<&'s FieldInfo>
    ensures { option_map field_seen (option_copied result)
        ≡ find (λ f. bytes_eq name.now f.name) (map field_seen fields.now) }
{
    fields.get(position_among(fields, name)?)
}
