//! Values of tables.
ghost use Rattle.std.specs.Prelude.{◌≡◌, ◌≤◌, IfErr, map, length, option_map};
ghost use Rattle.serde_json.specs.Data.{Members, object};
ghost use Rattle.serde_json.specs.View.{members_view};
ghost use Rattle.fb_schema.specs.Seen.{field_seen};
ghost use Rattle.fb_schema.specs.declared.kinds.Kind.TheVariants.{Table};
ghost use Rattle.fb_schema.specs.declared.kinds.Shape.TheVariants.{One};
ghost use Rattle.fb_value.specs.View.{view};
ghost use Rattle.fb_json.specs.FaultPaths.{IsFirstAt, IsFirstIn, ToSlot, Trails, tree_spot};
ghost use Rattle.fb_json.specs.Outcome.{Gives};
ghost use Rattle.fb_json.specs.Refuses.{LeavesRoom};
ghost use Rattle.fb_json.specs.Meant.{look, slots_meant, table_meant};
ghost use Rattle.fb_json.specs.SlotMembers.{AreMembersOf};

use crate::absent::{default_of, is_absent};
use crate::codes::code_of_slot;
use crate::context::JsonContext;
use crate::entries::{TableSlot, entry};
use crate::faults::{JsonFault, Place};
use crate::room::Room;
use crate::slot_members::{SlotMembers, members_by_slot};
use crate::step::JsonStep;
use crate::trail::JsonTrail;
use fb_schema::{FieldInfo, TypeId};
use fb_value::Value;
use serde_json::{Map, Value as Json};

#[cycle(tree)]
#[tactic(auto, unfolding(crate::specs::Meant::table_meant))]
pub(crate) fn table(
    source: JsonContext,
    trail: &mut JsonTrail,
    members: &Map<String, Json>,
    owner: TypeId,
    place: Place,
    room: Room,
) -> Result<(Value, u32), JsonFault>
    ensures gives { let L = source.entry.layout.now in let ms = members_view members.now.entries in
        Gives (λ x. (view x.0, x.1)) result
        (table_meant L source.entry.unknown ms (look L source.entry.unknown ms)
        owner.0 place room.levels room.left) }
    ensures trail { Trails result trail.old trail.new
        (IsFirstAt source.entry.layout.now source.entry.unknown
        (tree_spot (object (members_view members.now.entries)) (One (Table owner)) place room.levels room.left)) }
    ensures memory { IfErr result (LeavesRoom room.levels room.left) }
{
    if room.levels == 0 {
        return Err(JsonFault::TooDeep(place));
    }
    if room.left == 0 {
        return Err(JsonFault::TooManyCells(place));
    }
    let slots = source.layout.slots_of(owner);
    let mut trees = SlotMembers::new(source.alloc);
    members_by_slot(source, owner, slots, members, &mut trees)?;
    let room = Room {
        levels: room.levels - 1,
        left: room.left - 1,
    };
    let (entries, left) = entries(source, trail, owner, slots, &trees, room)?;
    Ok((Value::Fields(owner, entries), left))
}

/// What the slots of a table are given that have these members.
#[cycle(tree)]
fn entries(
    source: JsonContext,
    trail: &mut JsonTrail,
    owner: TypeId,
    slots: &[FieldInfo],
    trees: &SlotMembers<'_>,
    room: Room,
) -> Result<(Vec<Option<Value>>, u32), JsonFault>
    requires few { length slots.now ≤ 32765 }
    requires all { length trees.now ≡ length slots.now }
    ensures gives { (ms : Members) → AreMembersOf trees.now (map field_seen slots.now) ms →
        let L = source.entry.layout.now in
        Gives (λ x. (map (option_map view) x.0.items, x.1)) result
        (slots_meant L (look L source.entry.unknown ms) owner.0 (map field_seen slots.now) 0 0
        room.levels room.left) }
    ensures trail { (ms : Members) → AreMembersOf trees.now (map field_seen slots.now) ms →
        let L = source.entry.layout.now in Trails result trail.old trail.new
        (IsFirstIn L source.entry.unknown
        (ToSlot L (look L source.entry.unknown ms) owner (map field_seen slots.now) room.levels room.left)) }
{
    let mut found = Vec::with_capacity(source.alloc, slots.len())?;
    let mut left = room.left;
    let mut code = 0;
    for (k, slot) in slots.iter().enumerate() {
        let place = Place {
            owner,
            slot: Some(k as u16),
        };
        let tree = trees.get(k);
        if is_absent(slot, tree) {
            found.push_reserved(default_of(slot));
            continue;
        }
        match code_of_slot(source, slot, tree, place, code) {
            Ok(told) => code = told,
            Err(fault) => return Err(trail.push_step(JsonStep::Slot(owner, k as u16), fault)),
        }
        let room = Room { left, ..room };
        let slot = TableSlot {
            field: slot,
            place,
            code,
        };
        match entry(source, trail, slot, tree, room) {
            Ok((entry, rest)) => {
                found.push_reserved(entry);
                left = rest;
            }
            Err(fault) => return Err(trail.push_step(JsonStep::Slot(owner, k as u16), fault)),
        }
    }
    Ok((found, left))
}
