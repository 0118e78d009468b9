//! The path of a tree's first fault.
ghost use Rattle.std.specs.Prelude.{◌≡◌, IfOk, MatchOption};
ghost use Rattle.serde_json.specs.View.{view as tree_view};
ghost use Rattle.fb_schema.specs.Seen.{field_seen};
ghost use Rattle.fb_json.specs.FaultPaths.{IsFirstAt, LeadsToFirst, Trails, entry_spot, rest_of, tree_spot};
ghost use Rattle.fb_json.specs.Means.{Means};
ghost use Rattle.fb_json.specs.Meant.{Look, entry_meant, meant};
ghost use Rattle.fb_json.specs.Outcome.{Gives};
ghost use Rattle.fb_json.specs.SlotMembers.{looked_up};
ghost use Rattle.fb_value.specs.Datum.{Datum};

use crate::context::JsonContext;
use crate::entries::{TableSlot, entry};
use crate::faults::{JsonFault, Place};
use crate::room::Room;
use crate::step::JsonStep;
use crate::trail::JsonTrail;
use crate::tree::value;
use fb_layout::Layout;
use fb_schema::{Kind, Shape};
use fb_value::Limits;
use serde_json::Value as Json;
use std::alloc::{AllocError, Global};

/// The cells that are left after a tree that is read under a shape, or its first fault. A trail that is kept has the
/// steps from the tree to that fault then, before those that it had.
pub fn trace(
    source: JsonContext,
    trail: &mut JsonTrail,
    tree: &Json,
    shape: Shape,
    place: Place,
    room: Room,
) -> Result<u32, JsonFault>
    ensures gives { Gives (λ left. left) result (rest_of (meant source.entry.layout.now source.entry.unknown
        (tree_view tree.now) shape place room.levels room.left)) }
    ensures trail { Trails result trail.old trail.new (IsFirstAt source.entry.layout.now source.entry.unknown
        (tree_spot (tree_view tree.now) shape place room.levels room.left)) }
{
    match value(source, trail, tree, shape, place, room) {
        Ok((_value, left)) => Ok(left),
        Err(fault) => Err(fault),
    }
}

/// The cells that are left after a slot whose member is this tree, or which has none; or the first fault of what it is
/// given. A trail that is kept has the steps from the member to that fault then, before those that it had.
pub fn trace_slot(
    source: JsonContext,
    trail: &mut JsonTrail,
    slot: TableSlot<'_>,
    tree: Option<&Json>,
    room: Room,
) -> Result<u32, JsonFault>
    ensures gives { (seen : Look) → let L = source.entry.layout.now in let f = field_seen slot.entry.field.now in
        seen f.name ≡ looked_up L source.entry.unknown tree.entry →
        Gives (λ left. left) result
        (rest_of (entry_meant L seen f slot.entry.place slot.entry.code room.levels room.left)) }
    ensures trail { (seen : Look) → let L = source.entry.layout.now in let f = field_seen slot.entry.field.now in
        seen f.name ≡ looked_up L source.entry.unknown tree.entry →
        Trails result trail.old trail.new (IsFirstAt L source.entry.unknown
        (entry_spot L seen f slot.entry.place slot.entry.code room.levels room.left)) }
{
    match entry(source, trail, slot, tree, room) {
        Ok((_entry, left)) => Ok(left),
        Err(fault) => Err(fault),
    }
}

/// The steps from the root to the first fault of a tree, the one that `value_of` returns; none where the tree
/// means a value.
pub fn fault_path(
    alloc: Global,
    layout: &Layout,
    tree: &Json,
    unknown: bool,
    limits: Limits,
) -> Result<Option<Vec<JsonStep>>, AllocError>
    ensures { IfOk result (λ found. MatchOption found
        ((d : Datum) × Means layout.now limits unknown (tree_view tree.now) d)
        (λ steps. LeadsToFirst layout.now limits unknown (tree_view tree.now) steps.items)) }
{
    let source = JsonContext {
        alloc,
        layout,
        unknown,
    };
    let owner = layout.schema().root();
    let shape = Shape::One(Kind::Table(owner));
    let place = Place { owner, slot: None };
    let room = Room {
        levels: limits.most_depth(),
        left: limits.most_cells(),
    };
    let mut trail = JsonTrail::new(alloc);
    let Err(fault) = value(source, &mut trail, tree, shape, place, room) else {
        return Ok(None);
    };
    match fault {
        JsonFault::Memory => Err(AllocError),
        _ => Ok(trail.into_steps()),
    }
}
