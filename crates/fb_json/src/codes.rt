//! Codes of unions.
ghost use Rattle.std.specs.Prelude.{◌≡◌};
ghost use Rattle.fb_schema.specs.Seen.{field_seen};
ghost use Rattle.fb_json.specs.Meant.{Look, code_after, code_in};
ghost use Rattle.serde_json.specs.View.{view as tree_view};
ghost use Rattle.fb_json.specs.Leaves.{code_numbered, code_told};
ghost use Rattle.fb_json.specs.SlotMembers.{looked_up};

use crate::context::JsonContext;
use crate::faults::{JsonFault, Place};
use fb_layout::Layout;
use fb_schema::{FieldInfo, Kind, Shape, TypeId};
use serde_json::Value as Json;

/// The code of a number.
fn code_numbered(
    layout: &Layout,
    union: TypeId,
    number: Option<i128>,
    place: Place,
) -> Result<u8, JsonFault>
    ensures { result ≡ code_numbered layout.now.schema union.0 place number }
{
    let number = number.ok_or(JsonFault::WrongShape(place))?;
    if number < 0 || number > 255 {
        return Err(JsonFault::OutOfRange(place));
    }
    let code = number as u8;
    if code != 0 && layout.schema().member_by_code(union, code).is_none() {
        return Err(JsonFault::UnknownName(place));
    }
    Ok(code)
}

/// The code that a tree has; `null` has none.
#[tactic(auto, unfolding(crate::specs::Leaves::code_told))]
fn code_told(layout: &Layout, union: TypeId, tree: &Json, place: Place) -> Result<u8, JsonFault>
    ensures { result ≡ code_told layout.now.schema union.0 (tree_view tree.now) place }
{
    match tree {
        Json::Null => Ok(0),
        Json::Number(number) => code_numbered(layout, union, number.as_i128(), place),
        Json::String(name) => layout
            .schema()
            .code_by_path(union, name.as_str())
            .ok_or(JsonFault::UnknownName(place)),
        _ => Err(JsonFault::WrongShape(place)),
    }
}

/// The code that the member of a union's code has, and 0 where there is none.
fn code_in(
    source: JsonContext,
    union: TypeId,
    tree: Option<&Json>,
    place: Place,
) -> Result<u8, JsonFault>
    ensures { let L = source.entry.layout.now in
        result ≡ code_in L.schema union.0 place (looked_up L source.entry.unknown tree.entry) }
{
    match tree {
        Some(tree) => code_told(source.layout, union, tree, place),
        None => Ok(0),
    }
}

/// The code that a slot has whose member is this tree, or which has none; another slot returns what it was passed.
#[inline(always)]
#[tactic(auto, unfolding(crate::specs::Meant::code_after))]
pub fn code_of_slot(
    source: JsonContext,
    slot: &FieldInfo,
    tree: Option<&Json>,
    place: Place,
    code: u8,
) -> Result<u8, JsonFault>
    ensures { (seen : Look) → let L = source.entry.layout.now in let f = field_seen slot.now in
        seen f.name ≡ looked_up L source.entry.unknown tree.entry →
        result ≡ code_after L.schema seen place code f.deprecated f.name f.shape }
{
    if slot.deprecated {
        return Ok(code);
    }
    let Shape::One(kind) = slot.shape else {
        return Ok(code);
    };
    match kind {
        Kind::Code(union) => code_in(source, union, tree, place),
        _ => Ok(code),
    }
}
