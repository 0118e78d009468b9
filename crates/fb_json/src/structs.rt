//! Values of structs.
ghost use Rattle.std.specs.Prelude.{◌≡◌, ◌≤◌, [], map, length};
ghost use Rattle.serde_json.specs.Data.{Members, object};
ghost use Rattle.serde_json.specs.View.{members_view};
ghost use Rattle.fb_schema.specs.Seen.{field_seen};
ghost use Rattle.fb_schema.specs.declared.kinds.Kind.TheVariants.{Struct};
ghost use Rattle.fb_schema.specs.declared.kinds.Shape.TheVariants.{One};
ghost use Rattle.fb_value.specs.Datum.{a_struct};
ghost use Rattle.fb_value.specs.View.{parts_view, view};
ghost use Rattle.fb_json.specs.FaultPaths.{IsFirstAt, IsFirstIn, ToField, Trails, field_spot, tree_spot};
ghost use Rattle.fb_json.specs.Outcome.{Gives};
ghost use Rattle.fb_json.specs.Meant.{look, part_meant, parts_meant, struct_meant};
ghost use Rattle.fb_json.specs.SlotMembers.{AreMembersOf, looked_up};

use crate::context::JsonContext;
use crate::elements::number_of;
use crate::faults::{JsonFault, Place};
use crate::room::Room;
use crate::slot_members::{SlotMembers, members_by_slot};
use crate::step::JsonStep;
use crate::trail::JsonTrail;
use crate::tree::value;
use fb_schema::{FieldInfo, Shape, TypeId};
use fb_value::Value;
use serde_json::{Map, Value as Json};

#[cycle(tree)]
#[tactic(auto, unfolding(crate::specs::Meant::struct_meant, crate::specs::FaultPaths::object_front))]
pub(crate) fn structure(
    source: JsonContext,
    trail: &mut JsonTrail,
    members: &Map<String, Json>,
    owner: TypeId,
    place: Place,
    room: Room,
) -> Result<(Value, u32), JsonFault>
    ensures gives { let L = source.entry.layout.now in let ms = members_view members.now.entries in
        Gives (λ x. (view x.0, x.1)) result
        (struct_meant L source.entry.unknown ms (look L source.entry.unknown ms)
        owner.0 room.levels room.left) }
    ensures trail { Trails result trail.old trail.new
        (IsFirstAt source.entry.layout.now source.entry.unknown
        (tree_spot (object (members_view members.now.entries)) (One (Struct owner)) place room.levels room.left)) }
{
    let mut parts = Vec::new(source.alloc);
    let left = struct_of(source, trail, members, owner, room, &mut parts)?;
    Ok((Value::Fixed(parts), left))
}

/// The parts of a struct are put where none are yet, and the cells that are left are returned.
#[cycle(tree)]
#[tactic(auto, unfolding(crate::specs::Meant::struct_meant, crate::specs::FaultPaths::object_front))]
pub(crate) fn struct_of(
    source: JsonContext,
    trail: &mut JsonTrail,
    members: &Map<String, Json>,
    owner: TypeId,
    room: Room,
    found: &mut Vec<Value>,
) -> Result<u32, JsonFault>
    requires none { found.old.items ≡ [] }
    ensures gives { let L = source.entry.layout.now in let ms = members_view members.now.entries in
        Gives (λ left. (a_struct (parts_view found.new.items), left)) result
        (struct_meant L source.entry.unknown ms (look L source.entry.unknown ms) owner.0 room.levels room.left) }
    ensures trail { (place : Place) → Trails result trail.old trail.new
        (IsFirstAt source.entry.layout.now source.entry.unknown
        (tree_spot (object (members_view members.now.entries)) (One (Struct owner)) place room.levels room.left)) }
{
    let fields = source.layout.parts_of(owner);
    let mut trees = SlotMembers::new(source.alloc);
    members_by_slot(source, owner, fields, members, &mut trees)?;
    let structure = StructType { owner, fields };
    let left = parts(source, trail, &trees, structure, room, found)?;
    Ok(left)
}

/// A struct's type, and its fields.
#[derive(Clone, Copy)]
struct StructType<'s> {
    owner: TypeId,
    fields: &'s [FieldInfo],
}

/// The parts of a struct whose fields have these members.
#[cycle(tree)]
fn parts(
    source: JsonContext,
    trail: &mut JsonTrail,
    trees: &SlotMembers<'_>,
    structure: StructType<'_>,
    room: Room,
    found: &mut Vec<Value>,
) -> Result<u32, JsonFault>
    requires few { length structure.fields.now ≤ 65535 }
    requires all { length trees.now ≡ length structure.fields.now }
    requires none { found.old.items ≡ [] }
    ensures gives { (ms : Members) → AreMembersOf trees.now (map field_seen structure.entry.fields.now) ms →
        let L = source.entry.layout.now in Gives (λ left. (map view found.new.items, left)) result
        (parts_meant (look L source.entry.unknown ms) structure.entry.owner.0
        (map field_seen structure.entry.fields.now) 0 room.levels room.left) }
    ensures trail { (ms : Members) → AreMembersOf trees.now (map field_seen structure.entry.fields.now) ms →
        let L = source.entry.layout.now in Trails result trail.old trail.new
        (IsFirstIn L source.entry.unknown
        (ToField (look L source.entry.unknown ms) structure.entry.owner
        (map field_seen structure.entry.fields.now) room.levels room.left)) }
{
    let StructType { owner, fields } = structure;
    found.reserve(fields.len())?;
    let mut left = room.left;
    for (k, field) in fields.iter().enumerate() {
        let place = Place {
            owner,
            slot: Some(k as u16),
        };
        let room = Room { left, ..room };
        match part(source, trail, trees.get(k), field, place, room) {
            Ok((part, rest)) => {
                found.push_reserved(part);
                left = rest;
            }
            Err(fault) => return Err(trail.push_step(JsonStep::Field(owner, k as u16), fault)),
        }
    }
    Ok(left)
}

/// What a field of a struct is given. Most are numbers.
#[inline(always)]
#[cycle(tree)]
fn part(
    source: JsonContext,
    trail: &mut JsonTrail,
    tree: Option<&Json>,
    field: &FieldInfo,
    place: Place,
    room: Room,
) -> Result<(Value, u32), JsonFault>
    ensures gives { let L = source.entry.layout.now in let f = field_seen field.now in
        Gives (λ x. (view x.0, x.1)) result
        (part_meant (looked_up L source.entry.unknown tree.entry) f.shape place room.levels room.left) }
    ensures trail { let L = source.entry.layout.now in let f = field_seen field.now in
        Trails result trail.old trail.new (IsFirstAt L source.entry.unknown
        (field_spot (looked_up L source.entry.unknown tree.entry) f.shape place room.levels room.left)) }
{
    let Some(tree) = tree else {
        return Err(JsonFault::MissingMember(place));
    };
    if let Shape::One(kind) = field.shape {
        if let Some(number) = number_of(source, tree, kind, place) {
            return Ok((Value::Number(number?), room.left));
        }
    }
    value(source, trail, tree, field.shape, place, room)
}
