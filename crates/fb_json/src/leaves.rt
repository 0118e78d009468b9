//! Trees without members and elements.
ghost use Rattle.std.specs.Prelude.{◌≡◌, ◌≢◌, IfErr};
ghost use Rattle.serde_json.specs.View.{view as tree_view};
ghost use Rattle.fb_value.specs.Datum.{a_text};
ghost use Rattle.fb_value.specs.View.{view};
ghost use Rattle.fb_json.specs.Outcome.{Gives};
ghost use Rattle.fb_json.specs.Leaves.{text_meant, leaf_meant};

use crate::context::JsonContext;
use crate::faults::{JsonFault, Place};
use crate::scalars::{enum_of, scalar_of};
use fb_schema::{Kind, Shape};
use fb_value::Value;
use serde_json::Value as Json;
use std::alloc::Global;

/// The text that a tree is, which isn't copied, and the cells that are left.
#[tactic(auto, unfolding(crate::specs::Leaves::text_meant))]
pub fn text_of(tree: &Json, place: Place, left: u32) -> Result<(&str, u32), JsonFault>
    ensures gives { Gives (λ x. (a_text x.0.now, x.1)) result (text_meant (tree_view tree.now) place left) }
    ensures memory { IfErr result (λ f. f ≢ JsonFault.Memory) }
{
    let Json::String(text) = tree else {
        return Err(JsonFault::WrongShape(place));
    };
    if text.len() >= left as usize {
        return Err(JsonFault::TooManyCells(place));
    }
    let rest = left - 1 - text.len() as u32;
    Ok((text.as_str(), rest))
}

/// A text, and the cells that are left.
fn text(alloc: Global, tree: &Json, place: Place, left: u32) -> Result<(Value, u32), JsonFault>
    ensures { Gives (λ x. (view x.0, x.1)) result (text_meant (tree_view tree.now) place left) }
{
    let (text, left) = text_of(tree, place, left)?;
    Ok((Value::Text(String::from_str(alloc, text)?), left))
}

/// What a tree without members and elements gives.
#[tactic(auto, unfolding(crate::specs::Leaves::leaf_meant))]
pub(crate) fn leaf(
    source: JsonContext,
    tree: &Json,
    shape: Shape,
    place: Place,
    left: u32,
) -> Result<(Value, u32), JsonFault>
    ensures { Gives (λ x. (view x.0, x.1)) result
        (leaf_meant source.entry.layout.now.schema (tree_view tree.now) shape place left) }
{
    let Shape::One(kind) = shape else {
        return Err(JsonFault::WrongShape(place));
    };
    match kind {
        Kind::Scalar(base) => {
            let number = scalar_of(base, tree, place)?;
            Ok((Value::Number(number), left))
        }
        Kind::Enum(enumeration) => {
            let number = enum_of(source.layout, enumeration, tree, place)?;
            Ok((Value::Number(number), left))
        }
        Kind::Text => text(source.alloc, tree, place, left),
        Kind::Struct(_) | Kind::Table(_) | Kind::Union(_) | Kind::Code(_) => {
            Err(JsonFault::WrongShape(place))
        }
    }
}
