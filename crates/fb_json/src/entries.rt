//! Entries of slots.
ghost use Rattle.std.specs.Prelude.{◌≡◌, Some, false, option_map};
ghost use Rattle.serde_json.specs.View.{view as tree_view};
ghost use Rattle.fb_schema.specs.Seen.{field_seen};
ghost use Rattle.fb_schema.specs.declared.kinds.Kind.TheVariants.{Table};
ghost use Rattle.fb_schema.specs.declared.kinds.Shape.TheVariants.{One, Many};
ghost use Rattle.fb_layout.specs.Laid.{member_by_code};
ghost use Rattle.fb_value.specs.View.{view};
ghost use Rattle.fb_json.specs.FaultPaths.{IsFirstAt, Trails, entry_spot, member_spot, shaped_spot, tree_spot};
ghost use Rattle.fb_json.specs.FaultPaths.{read_shape, rest_of};
ghost use Rattle.fb_json.specs.Outcome.{Gives};
ghost use Rattle.fb_json.specs.Meant.{Look, as_member, entry_meant, meant, unless_null, used_meant};
ghost use Rattle.fb_json.specs.SlotMembers.{looked_up};

use crate::absent::{entry_without_member, is_null};
use crate::context::JsonContext;
use crate::faults::{JsonFault, Place};
use crate::room::Room;
use crate::trail::JsonTrail;
use crate::tree::value;
use fb_schema::{FieldInfo, Kind, Shape, TypeId};
use fb_value::Value;
use serde_json::Value as Json;

/// A slot of a table, its place, and the code of the union whose value it has.
#[derive(Clone, Copy)]
pub struct TableSlot<'s> {
    pub field: &'s FieldInfo,
    pub place: Place,
    pub code: u8,
}

/// The entry of a slot whose member is this tree, or which has none.
#[inline(always)]
#[cycle(tree)]
#[tactic(auto, unfolding(crate::specs::Meant::entry_meant))]
pub(crate) fn entry(
    source: JsonContext,
    trail: &mut JsonTrail,
    slot: TableSlot<'_>,
    tree: Option<&Json>,
    room: Room,
) -> Result<(Option<Value>, u32), JsonFault>
    ensures gives { (seen : Look) → let L = source.entry.layout.now in let f = field_seen slot.entry.field.now in
        seen f.name ≡ looked_up L source.entry.unknown tree.entry →
        Gives (λ x. (option_map view x.0, x.1)) result
        (entry_meant L seen f slot.entry.place slot.entry.code room.levels room.left) }
    ensures trail { (seen : Look) → let L = source.entry.layout.now in let f = field_seen slot.entry.field.now in
        seen f.name ≡ looked_up L source.entry.unknown tree.entry →
        Trails result trail.old trail.new (IsFirstAt L source.entry.unknown
        (entry_spot L seen f slot.entry.place slot.entry.code room.levels room.left)) }
{
    if slot.field.deprecated {
        return Ok((None, room.left));
    }
    match tree {
        Some(tree) if !is_null(tree) => with_tree(source, trail, slot, tree, room),
        _ => entry_without_member(slot.field, slot.place, slot.code, room.left),
    }
}

/// The entry of a slot in use that has a member.
#[inline(always)]
#[cycle(tree)]
#[tactic(auto, unfolding(crate::specs::Meant::union_meant, crate::specs::Meant::plain_meant))]
fn with_tree(
    source: JsonContext,
    trail: &mut JsonTrail,
    slot: TableSlot<'_>,
    tree: &Json,
    room: Room,
) -> Result<(Option<Value>, u32), JsonFault>
    ensures gives { let L = source.entry.layout.now in let f = field_seen slot.entry.field.now in
        Gives (λ x. (option_map view x.0, x.1)) result
        (used_meant L f slot.entry.code (Some (meant L source.entry.unknown (tree_view tree.now)))
        slot.entry.place room.levels room.left f.shape) }
    ensures trail { let L = source.entry.layout.now in let f = field_seen slot.entry.field.now in
        let t = tree_view tree.now in let m = meant L source.entry.unknown t in
        Trails result trail.old trail.new (IsFirstAt L source.entry.unknown
        (shaped_spot t (read_shape L slot.entry.code f.shape) slot.entry.place room.levels room.left
        (rest_of (used_meant L f slot.entry.code (Some m) slot.entry.place room.levels room.left f.shape)))) }
{
    match slot.field.shape {
        Shape::One(Kind::Code(_)) => Ok((None, room.left)),
        Shape::One(Kind::Union(union)) => member(source, trail, union, slot, tree, room),
        shape => {
            let (value, left) = value(source, trail, tree, shape, slot.place, room)?;
            Ok((Some(value), left))
        }
    }
}

/// The member of a union that a code names.
#[cycle(tree)]
fn member(
    source: JsonContext,
    trail: &mut JsonTrail,
    union: TypeId,
    slot: TableSlot<'_>,
    tree: &Json,
    room: Room,
) -> Result<(Option<Value>, u32), JsonFault>
    ensures gives { let L = source.entry.layout.now in
        Gives (λ x. (option_map view x.0, x.1)) result
        (as_member slot.entry.code (member_by_code L union.0 slot.entry.code)
        (meant L source.entry.unknown (tree_view tree.now)) slot.entry.place room.levels room.left) }
    ensures trail { let L = source.entry.layout.now in let code = slot.entry.code in
        let table = member_by_code L union.0 code in
        let t = tree_view tree.now in Trails result trail.old trail.new (IsFirstAt L source.entry.unknown
        (shaped_spot t (option_map (λ t. One (Table (record { 0 = t }))) table) slot.entry.place room.levels
        room.left
        (rest_of (as_member code table (meant L source.entry.unknown t) slot.entry.place room.levels room.left)))) }
{
    let Some(table) = source.layout.schema().member_by_code(union, slot.code) else {
        return Err(JsonFault::UnionMismatch(slot.place));
    };
    let shape = Shape::One(Kind::Table(table));
    let (value, left) = value(source, trail, tree, shape, slot.place, room)?;
    let member = Value::Member(slot.code, Box::new(source.alloc, value)?);
    Ok((Some(member), left))
}
