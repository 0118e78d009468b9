//! Slots without a member.
ghost use Rattle.std.specs.Prelude.{◌≡◌, ℕ, None, Some, Ok, true, false, option_map};
ghost use Rattle.serde_json.specs.View.{view as tree_view};
ghost use Rattle.fb_schema.specs.Schema.{DeclaredSchema};
ghost use Rattle.fb_schema.specs.Seen.{field_seen};
ghost use Rattle.fb_layout.specs.Laid.{LaidSchema, slot_of};
ghost use Rattle.fb_value.specs.Datum.{a_number};
ghost use Rattle.fb_value.specs.View.{view};
ghost use Rattle.fb_json.specs.Outcome.{Gives};
ghost use Rattle.fb_json.specs.Meant.{Look, as_absent, code_after, entry_meant, is_null, used_meant};
ghost use Rattle.fb_json.specs.SlotMembers.{is_of_union};

use crate::faults::{JsonFault, Place};
use fb_schema::{FieldInfo, Kind, Shape};
use fb_value::Value;
use serde_json::Value as Json;

/// What a slot is given that has no member and needs none: its default, if it has one.
#[inline(always)]
pub(crate) fn default_of(slot: &FieldInfo) -> Option<Value>
    ensures { (S : DeclaredSchema) → option_map view result
        ≡ option_map a_number (slot_of S (field_seen slot.now)).if_absent }
{
    if slot.deprecated || slot.optional {
        return None;
    }
    match slot.shape {
        Shape::One(Kind::Scalar(_) | Kind::Enum(_)) => Some(Value::Number(slot.default)),
        _ => None,
    }
}

/// The entry of a slot that has no member.
fn entry_by_default(
    slot: &FieldInfo,
    place: Place,
    left: u32,
) -> Result<(Option<Value>, u32), JsonFault>
    requires { slot.now.deprecated ≡ false }
    ensures { (S : DeclaredSchema) → let s = slot_of S (field_seen slot.now) in
        Gives (λ x. (option_map view x.0, x.1)) result
        (as_absent s.if_absent s.required place left) }
{
    match default_of(slot) {
        Some(number) => Ok((Some(number), left)),
        None if slot.required => Err(JsonFault::MissingRequired(place)),
        None => Ok((None, left)),
    }
}

/// Whether a slot is that of a union's code or of its value.
fn is_of_union(slot: &FieldInfo) -> bool
    ensures { result ≡ is_of_union slot.now.shape }
{
    matches!(slot.shape, Shape::One(Kind::Union(_) | Kind::Code(_)))
}

/// Whether a slot has no member and needs none. Such a slot passes on the code that it was given, and what it is given
/// is its default, if it has one. In a table of many fields most slots are so.
#[inline(always)]
pub fn is_absent(slot: &FieldInfo, tree: Option<&Json>) -> bool
    ensures none { result ≡ true → tree.entry ≡ None }
    ensures code { (S : DeclaredSchema) (seen : Look) (place : Place) (code : ℕ) → result ≡ true →
        let f = field_seen slot.now in code_after S seen place code f.deprecated f.name f.shape ≡ Ok code }
    ensures entry { (L : LaidSchema) (seen : Look) (place : Place) (code levels left : ℕ) → result ≡ true →
        let f = field_seen slot.now in seen f.name ≡ None → entry_meant L seen f place code levels left
        ≡ Ok (option_map a_number (slot_of L.schema f).if_absent, left) }
    ensures others { result ≡ false → tree.entry ≡ None → slot.now.required ≡ false
        → is_of_union slot.now.shape ≡ true }
{
    match tree {
        None => !slot.required && !is_of_union(slot),
        Some(_) => false,
    }
}

/// The entry of a slot in use that has no member.
#[tactic(auto, unfolding(crate::specs::Meant::union_meant, crate::specs::Meant::plain_meant))]
pub fn entry_without_member(
    slot: &FieldInfo,
    place: Place,
    code: u8,
    left: u32,
) -> Result<(Option<Value>, u32), JsonFault>
    requires { slot.now.deprecated ≡ false }
    ensures { (L : LaidSchema) (levels : ℕ) → let f = field_seen slot.now in
        Gives (λ x. (option_map view x.0, x.1)) result
        (used_meant L f code None place levels left f.shape) }
{
    match slot.shape {
        Shape::One(Kind::Code(_)) => Ok((None, left)),
        Shape::One(Kind::Union(_)) => {
            if code != 0 {
                return Err(JsonFault::UnionMismatch(place));
            }
            entry_by_default(slot, place, left)
        }
        _ => entry_by_default(slot, place, left),
    }
}

/// Whether a tree is `null`.
pub fn is_null(tree: &Json) -> bool
    ensures { result ≡ is_null (tree_view tree.now) }
{
    matches!(tree, Json::Null)
}
