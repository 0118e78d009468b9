//! Numbers of trees.
ghost use Rattle.std.specs.Prelude.{◌≡◌};
ghost use Rattle.serde_json.specs.View.{view as tree_view};
ghost use Rattle.fb_json.specs.Leaves.{in_range, scalar_meant, enum_meant};

use crate::faults::{JsonFault, Place};
use crate::flags::number_told;
use fb_layout::Layout;
use fb_schema::{Base, TypeId};
use serde_json::{Number, Value as Json};

/// The number, where it is whole and in range.
fn in_range(base: Base, number: Option<i128>, place: Place) -> Result<i128, JsonFault>
    ensures { result ≡ in_range base place number }
{
    let number = number.ok_or(JsonFault::NotWhole(place))?;
    if base.holds(number) {
        Ok(number)
    } else {
        Err(JsonFault::OutOfRange(place))
    }
}

/// The number of a basic type that a tree gives.
#[tactic(auto, unfolding(crate::specs::Leaves::scalar_meant))]
#[inline(always)]
pub(crate) fn scalar_of(base: Base, tree: &Json, place: Place) -> Result<i128, JsonFault>
    ensures { result ≡ scalar_meant base (tree_view tree.now) place }
{
    match tree {
        Json::Number(number) => in_range(base, number.as_i128(), place),
        Json::Bool(bit) => match base {
            Base::Bool => Ok(if *bit { 1 } else { 0 }),
            _ => Err(JsonFault::WrongShape(place)),
        },
        _ => Err(JsonFault::WrongShape(place)),
    }
}

/// The number of an enum that a tree gives.
#[tactic(auto, unfolding(crate::specs::Leaves::enum_meant))]
pub(crate) fn enum_of(
    layout: &Layout,
    enumeration: TypeId,
    tree: &Json,
    place: Place,
) -> Result<i128, JsonFault>
    ensures { result ≡ enum_meant layout.now.schema enumeration.0 (tree_view tree.now) place }
{
    match tree {
        Json::Number(number) => in_range(layout.base_of(enumeration), number.as_i128(), place),
        Json::String(text) => number_told(layout.schema(), enumeration, text.as_str()).ok_or(
            JsonFault::UnknownName(place),
        ),
        _ => Err(JsonFault::WrongShape(place)),
    }
}
