//! The value of a whole tree.
ghost use Rattle.std.specs.Prelude.{◌≡◌, ◌⊎◌, true, IfOk, IfErr};
ghost use Rattle.serde_json.specs.View.{view as tree_view};
ghost use Rattle.fb_value.specs.Counts.{is_whole};
ghost use Rattle.fb_value.specs.Datum.{Datum};
ghost use Rattle.fb_value.specs.Fits.{FitsRoot};
ghost use Rattle.fb_value.specs.View.{view};
ghost use Rattle.fb_json.specs.Means.{Means};
ghost use Rattle.fb_json.specs.Refuses.{IsFirst, MayLackMemory, Refuses};

use crate::context::JsonContext;
use crate::faults::{JsonFault, Place};
use crate::room::Room;
use crate::tables::table;
use crate::trail::JsonTrail;
use fb_layout::Layout;
use fb_value::{Limits, Value};
use serde_json::Value as Json;
use std::alloc::Global;

/// The value of the root table that a tree means. `unknown` ignores unknown JSON fields.
pub fn value_of(
    alloc: Global,
    layout: &Layout,
    tree: &Json,
    limits: Limits,
    unknown: bool,
) -> Result<Value, JsonFault>
    ensures means { IfOk result (λ v. Means layout.now limits unknown (tree_view tree.now) (view v)) }
    ensures fits { IfOk result (λ v. FitsRoot layout.now (view v)) }
    ensures whole { IfOk result (λ v. is_whole (view v) ≡ true) }
    ensures refuses { IfErr result (λ f. (f ≡ JsonFault.Memory)
        ⊎ Refuses layout.now limits unknown (tree_view tree.now) f) }
    ensures first { IfErr result (λ f. (f ≡ JsonFault.Memory)
        ⊎ IsFirst layout.now limits unknown (tree_view tree.now) f) }
    ensures none { IfErr result (λ f. (f ≡ JsonFault.Memory)
        ⊎ ((d : Datum) → ¬ Means layout.now limits unknown (tree_view tree.now) d)) }
    ensures memory { IfErr result (MayLackMemory limits (tree_view tree.now)) }
{
    let source = JsonContext {
        alloc,
        layout,
        unknown,
    };
    let root = layout.schema().root();
    let place = Place {
        owner: root,
        slot: None,
    };
    let room = Room {
        levels: limits.most_depth(),
        left: limits.most_cells(),
    };
    let Some(members) = tree.as_object() else {
        return Err(JsonFault::WrongShape(place));
    };
    let read = table(source, &mut JsonTrail::none(), members, root, place, room);
    match read {
        Ok((value, _)) => Ok(value),
        Err(fault) => Err(fault),
    }
}
