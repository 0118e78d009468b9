//! The way back from a fault: each level of a walk adds its step to a trail that is kept.
ghost use Rattle.std.specs.Prelude.{◌≡◌, Some};
ghost use Rattle.fb_encode.specs.Found.{IfFound, found_of};

use crate::elements::Elements;
use crate::entries::SlotRead;
use crate::excerpts::Wanted;
use crate::reader::Unread;
use crate::runs::AfterElements;
use crate::unnoted::Unnoted;
use fb_json::{JsonContext, JsonFault, JsonStep, JsonTrail, Room, TableSlot, trace, trace_slot};
use fb_schema::Shape;
use serde_json::Value as Json;

/// What was found after a step, which is added to the trail if that is a fault.
pub(crate) fn after_step<T>(
    trail: &mut JsonTrail,
    step: JsonStep,
    found: Result<T, Unnoted>,
) -> Result<T, Unnoted>
    ensures { IfFound result (λ same. found_of found ≡ Some same) }
{
    if let Err(Unnoted::Fault(fault)) = found {
        if let JsonFault::Memory = trail.push_step(step, fault) {
            return Err(Unnoted::Unread(Unread::Memory));
        }
    }
    found
}

/// Fails if a walk ran out of memory, so that the trail lacks steps.
fn check_memory(walked: Result<u32, JsonFault>) -> Result<(), Unread> {
    match walked {
        Err(JsonFault::Memory) => Err(Unread::Memory),
        _ => Ok(()),
    }
}

/// Adds the steps from a tree to its fault.
pub(crate) fn trace_tree(
    source: JsonContext,
    trail: &mut JsonTrail,
    tree: &Json,
    wanted: Wanted,
) -> Result<(), Unread> {
    if !trail.is_kept() {
        return Ok(());
    }
    let Wanted {
        shape,
        place,
        levels,
        left,
    } = wanted;
    check_memory(trace(source, trail, tree, shape, place, Room { levels, left }))
}

/// Adds the steps from a slot's member to its fault.
pub(crate) fn trace_member(
    source: JsonContext,
    trail: &mut JsonTrail,
    slot: SlotRead<'_>,
    tree: Option<&Json>,
    room: Room,
) -> Result<(), Unread> {
    if !trail.is_kept() {
        return Ok(());
    }
    let place = slot.place();
    let slot = TableSlot {
        field: slot.field,
        place,
        code: slot.code,
    };
    check_memory(trace_slot(source, trail, slot, tree, room))
}

/// Adds the steps to the first fault of some elements of a vector, which come after others.
pub(crate) fn trace_elements(
    source: JsonContext,
    trail: &mut JsonTrail,
    trees: &[Json],
    elements: Elements,
    after: AfterElements,
) -> Result<(), Unread> {
    if !trail.is_kept() {
        return Ok(());
    }
    let Elements {
        kind,
        place,
        levels,
    } = elements;
    let mut left = after.left;
    for (i, tree) in trees.iter().enumerate() {
        let room = Room { levels, left };
        match trace(source, trail, tree, Shape::One(kind), place, room) {
            Ok(rest) => left = rest,
            Err(fault) => {
                let step = JsonStep::Element(after.count.saturating_add(i));
                return check_memory(Err(trail.push_step(step, fault)));
            }
        }
    }
    Ok(())
}
