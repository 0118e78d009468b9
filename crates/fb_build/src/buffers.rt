//! Plans the buffer of a tape.
ghost use Rattle.std.specs.Prelude.{◌≡◌, ◌≤◌, ◌<◌, IfOk, IfErr, length};
ghost use Rattle.fb_value.specs.Datum.{Datum};
ghost use Rattle.fb_value.specs.Num.{Bytes};
ghost use Rattle.fb_value.specs.Bounds.{most_bytes};
ghost use Rattle.fb_build.specs.FramedRoom.{framed_room};
ghost use Rattle.fb_build.specs.NotedRoots.{NotesRoot};
ghost use Rattle.fb_build.specs.Planned.{IsLaidBy, IsRootLaid};
ghost use Rattle.fb_build.specs.declared.faults.BuildFault.TheVariants.{TooBig, Memory};

use crate::faults::BuildFault;
use crate::plans::TapePlan;
use fb_layout::Layout;
use fb_tape::{Tape, buffer_room};
use fb_value::front_of;
use std::alloc::Global;

/// The plan by which the bytes of a value of the root table are laid, which is noted on a tape. It has all the memory
/// that laying them takes: `TapePlan::finish` needs no more, and can't fail. Where it is `prefixed`, the buffer has a
/// size prefix, and is aligned from there.
pub fn plan_root<'l>(
    alloc: Global,
    layout: &'l Layout,
    tape: Tape<'l>,
    prefixed: bool,
) -> Result<TapePlan<'l>, BuildFault>
    requires { (d : Datum) × NotesRoot layout.now tape d }
    ensures laid { IfOk result (λ plan. (b : Bytes) → IsLaidBy plan b
        → IsRootLaid prefixed layout.now tape.entry b) }
    ensures short { IfOk result (λ plan. (b : Bytes) → IsLaidBy plan b
        → (d : Datum) → NotesRoot layout.now tape.entry d → length b ≤ framed_room prefixed layout.now d) }
    ensures small { IfOk result (λ plan. (d : Datum) → NotesRoot layout.now tape.entry d
        → framed_room prefixed layout.now d ≤ most_bytes) }
    ensures too_big { IfErr result (λ e. (d : Datum) → NotesRoot layout.now tape.entry d → e ≡ TooBig
        → most_bytes < framed_room prefixed layout.now d) }
    ensures memory { IfErr result (λ e. (d : Datum) → NotesRoot layout.now tape.entry d → e ≡ Memory
        → framed_room prefixed layout.now d ≤ most_bytes) }
{
    // What is too big is so whatever memory there is.
    let Some(_) = buffer_room(layout, tape.room().saturating_add(front_of(prefixed))) else {
        return Err(BuildFault::TooBig);
    };
    let plan = TapePlan::for_tape(alloc, layout, tape, prefixed)?;
    Ok(plan)
}
