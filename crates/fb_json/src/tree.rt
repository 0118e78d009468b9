//! Values of trees under their types.
ghost use Rattle.std.specs.Prelude.{map, length};
ghost use Rattle.serde_json.specs.Data.{array, object};
ghost use Rattle.serde_json.specs.View.{view as tree_view, items_view, members_view};
ghost use Rattle.fb_schema.specs.declared.kinds.Shape.TheVariants.{Many};
ghost use Rattle.fb_value.specs.View.{view};
ghost use Rattle.fb_json.specs.FaultPaths.{IsFirstAt, IsFirstIn, ToElement, Trails, tree_spot};
ghost use Rattle.fb_json.specs.Outcome.{Gives};
ghost use Rattle.fb_json.specs.Meant.{meant, items_meant, vector_meant, object_meant, look};

use crate::context::JsonContext;
use crate::faults::{JsonFault, Place};
use crate::leaves::leaf;
use crate::room::Room;
use crate::step::JsonStep;
use crate::structs::structure;
use crate::tables::table;
use crate::trail::JsonTrail;
use fb_schema::{Kind, Shape};
use fb_value::Value;
use serde_json::{Map, Value as Json};

/// What a tree gives under a shape, and the cells that are left.
#[cycle(tree)]
pub(crate) fn value(
    source: JsonContext,
    trail: &mut JsonTrail,
    tree: &Json,
    shape: Shape,
    place: Place,
    room: Room,
) -> Result<(Value, u32), JsonFault>
    ensures gives { Gives (λ x. (view x.0, x.1)) result
        (meant source.entry.layout.now source.entry.unknown (tree_view tree.now)
        shape place room.levels room.left) }
    ensures trail { Trails result trail.old trail.new
        (IsFirstAt source.entry.layout.now source.entry.unknown
        (tree_spot (tree_view tree.now) shape place room.levels room.left)) }
{
    match tree {
        Json::Object(members) => object(source, trail, members, shape, place, room),
        Json::Array(elements) => vector(source, trail, elements, shape, place, room),
        _ => leaf(source, tree, shape, place, room.left),
    }
}

#[cycle(tree)]
#[tactic(auto, unfolding(crate::specs::Meant::vector_meant, crate::specs::FaultPaths::vector_front))]
fn vector(
    source: JsonContext,
    trail: &mut JsonTrail,
    elements: &[Json],
    shape: Shape,
    place: Place,
    room: Room,
) -> Result<(Value, u32), JsonFault>
    ensures gives { Gives (λ x. (view x.0, x.1)) result
        (vector_meant
        (items_meant source.entry.layout.now source.entry.unknown (items_view elements.now))
        (length elements.now) shape place room.levels room.left) }
    ensures trail { Trails result trail.old trail.new
        (IsFirstAt source.entry.layout.now source.entry.unknown
        (tree_spot (array (items_view elements.now)) shape place room.levels room.left)) }
{
    let Shape::Many(kind) = shape else {
        return Err(JsonFault::WrongShape(place));
    };
    if elements.len() >= room.left as usize {
        return Err(JsonFault::TooManyCells(place));
    }
    let room = Room {
        levels: room.levels,
        left: room.left - 1 - elements.len() as u32,
    };
    let (items, left) = items(source, trail, elements, kind, place, room)?;
    Ok((Value::Items(items), left))
}

#[cycle(tree)]
fn items(
    source: JsonContext,
    trail: &mut JsonTrail,
    elements: &[Json],
    kind: Kind,
    place: Place,
    room: Room,
) -> Result<(Vec<Value>, u32), JsonFault>
    ensures gives { Gives (λ x. (map view x.0.items, x.1)) result
        (items_meant source.entry.layout.now source.entry.unknown (items_view elements.now)
        kind place room.levels room.left) }
    ensures trail { let L = source.entry.layout.now in Trails result trail.old trail.new
        (IsFirstIn L source.entry.unknown
        (ToElement L source.entry.unknown kind place (map tree_view elements.now) room.levels room.left)) }
{
    let mut found = Vec::with_capacity(source.alloc, elements.len())?;
    let mut left = room.left;
    for (i, element) in elements.iter().enumerate() {
        let room = Room { left, ..room };
        match value(source, trail, element, Shape::One(kind), place, room) {
            Ok((item, rest)) => {
                found.push_reserved(item);
                left = rest;
            }
            Err(fault) => return Err(trail.push_step(JsonStep::Element(i), fault)),
        }
    }
    Ok((found, left))
}

#[cycle(tree)]
#[tactic(auto, unfolding(crate::specs::Meant::object_meant, crate::specs::FaultPaths::object_front))]
fn object(
    source: JsonContext,
    trail: &mut JsonTrail,
    members: &Map<String, Json>,
    shape: Shape,
    place: Place,
    room: Room,
) -> Result<(Value, u32), JsonFault>
    ensures gives { let L = source.entry.layout.now in let ms = members_view members.now.entries in
        Gives (λ x. (view x.0, x.1)) result
        (object_meant L source.entry.unknown ms (look L source.entry.unknown ms)
        shape place room.levels room.left) }
    ensures trail { Trails result trail.old trail.new
        (IsFirstAt source.entry.layout.now source.entry.unknown
        (tree_spot (object (members_view members.now.entries)) shape place room.levels room.left)) }
{
    let Shape::One(kind) = shape else {
        return Err(JsonFault::WrongShape(place));
    };
    match kind {
        Kind::Table(owner) => table(source, trail, members, owner, place, room),
        Kind::Struct(owner) => structure(source, trail, members, owner, place, room),
        _ => Err(JsonFault::WrongShape(place)),
    }
}
