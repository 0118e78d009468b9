//! Tables, slot by slot.
ghost use Rattle.std.specs.Prelude.{◌≡◌, ◌<◌, [], IfErr, IfOk};
ghost use Rattle.serde_json.specs.View.{members_view};
ghost use Rattle.fb_layout.specs.Laid.{one_of, table_kind};
ghost use Rattle.fb_json.specs.Meant.{look, table_meant};
ghost use Rattle.fb_json.specs.Outcome.{Fails};
ghost use Rattle.fb_json.specs.Refuses.{LeavesRoom};
ghost use Rattle.fb_encode.specs.TreesNoted.{IsNoted};

use crate::entries::{SlotRead, note_slot};
use fb_build::Noting;
use fb_json::{
    JsonContext, JsonFault, Place, SlotMembers, code_of_slot, is_absent, members_by_slot,
};
use fb_layout::layout_is_well_made;
use fb_schema::TypeId;
use serde_json::{Map, Value as Json};

/// Notes a table, and returns the cells that are left. A slot without a member mostly costs a look at it.
#[cycle(notes)]
pub(crate) fn note_table(
    source: JsonContext,
    noting: &mut Noting<'_>,
    members: &Map<String, Json>,
    owner: TypeId,
    place: Place,
    levels: u8,
    left: u32,
) -> Result<u32, JsonFault>
    requires layout { noting.old.tape.layout ≡ source.layout.now }
    requires whole { noting.old.tape.unfinished ≡ [] }
    ensures noted { let L = source.entry.layout.now in let ms = members_view members.now.entries in
        IfOk result (IsNoted L (one_of (table_kind owner.0))
        (table_meant L source.entry.unknown ms (look L source.entry.unknown ms) owner.0 place levels left)
        noting.old.tape noting.new.tape) }
    ensures opened { IfOk result (λ rest. noting.new.opened ≡ noting.old.opened) }
    ensures refused { let L = source.entry.layout.now in let ms = members_view members.now.entries in
        IfErr result (λ f. Fails f
        (table_meant L source.entry.unknown ms (look L source.entry.unknown ms) owner.0 place levels left)) }
    ensures memory { IfErr result (LeavesRoom levels left) }
{
    if levels == 0 {
        return Err(JsonFault::TooDeep(place));
    }
    if left == 0 {
        return Err(JsonFault::TooManyCells(place));
    }
    layout_is_well_made(source.layout);
    let slots = source.layout.slots_of(owner);
    let mut trees = SlotMembers::new(source.alloc);
    members_by_slot(source, owner, slots, members, &mut trees)?;
    let first = noting.opened.len();
    let mut left = left - 1;
    let mut code = 0;
    for (k, field) in slots.iter().enumerate() {
        let tree = trees.get(k);
        if is_absent(field, tree) {
            continue;
        }
        let number = k as u16;
        let place = Place {
            owner,
            slot: Some(number),
        };
        code = code_of_slot(source, field, tree, place, code)?;
        let slot = SlotRead {
            owner,
            number,
            field,
            code,
        };
        left = note_slot(source, noting, slot, tree, levels - 1, left)?;
    }
    noting.tape.close_table(owner, &noting.opened, first)?;
    noting.opened.truncate(first);
    Ok(left)
}
