//! Builds buffers of values.
ghost use Rattle.std.specs.Prelude.{◌≡◌, ◌≤◌, ◌<◌, length, true, Bool, IfOk, IfErr};
ghost use Rattle.fb_value.specs.Bounds.{Bounds, most_bytes};
ghost use Rattle.fb_value.specs.Counts.{cells, depth, is_whole};
ghost use Rattle.fb_value.specs.Fits.{FitsRoot};
ghost use Rattle.fb_value.specs.Holds.{Holds};
ghost use Rattle.fb_value.specs.OldSlots.{OnlyOld};
ghost use Rattle.fb_value.specs.Room.{room_of};
ghost use Rattle.fb_value.specs.View.{view};
ghost use Rattle.fb_build.specs.Covered.{Covered, EndsAligned};
ghost use Rattle.fb_build.specs.declared.faults.BuildFault.TheVariants.{TooBig, Memory};

use crate::noting::note_root;
use crate::plans::Plan;
use crate::rooms::room;
use fb_build::{BuildFault, TapePlan};
use fb_layout::{Layout, layout_is_well_made};
use fb_value::Value;
use std::alloc::Global;

/// Takes all the memory that building a value takes, and lays no byte.
pub fn plan<'v>(alloc: Global, layout: &'v Layout, value: &'v Value) -> Result<Plan<'v>, BuildFault>
    requires fits { FitsRoot layout.now (view value.now) }
    requires whole { is_whole (view value.now) ≡ true }
    requires deep { depth (view value.now) ≤ 127 }
    ensures layout { IfOk result (λ p. p.layout ≡ layout.now) }
    ensures value { IfOk result (λ p. view p.value ≡ view value.now) }
    ensures small { IfOk result (λ p. room_of layout.now (view value.now) ≤ most_bytes) }
    ensures too_big { IfErr result (λ e. e ≡ TooBig → most_bytes < room_of layout.now (view value.now)) }
    ensures memory { IfErr result (λ e. e ≡ Memory → room_of layout.now (view value.now) ≤ most_bytes) }
{
    layout_is_well_made(layout);
    let Value::Fields(table, entries) = value else {
        unreachable!();
    };
    // What is too big is so whatever memory there is.
    let Some(_) = room(layout, value) else {
        return Err(BuildFault::TooBig);
    };
    let tape = note_root(alloc, layout, *table, entries)?;
    let plan = TapePlan::for_tape(alloc, layout, tape, false)?;
    Ok(Plan { value, plan })
}

/// The bytes that encode a value of the root table.
pub fn build(alloc: Global, layout: &Layout, value: &Value) -> Result<Vec<u8>, BuildFault>
    requires fits { FitsRoot layout.now (view value.now) }
    requires whole { is_whole (view value.now) ≡ true }
    requires deep { depth (view value.now) ≤ 127 }
    ensures holds { IfOk result (λ b. (most : Bounds) (raw : Bool) → depth (view value.now) ≤ most.depth
        → cells (view value.now) ≤ most.cells → Holds layout.now most raw b.items (view value.now)) }
    ensures old_slots { IfOk result (λ b. OnlyOld layout.now b.items) }
    ensures covered { IfOk result (λ b. Covered layout.now b.items) }
    ensures aligned { IfOk result (λ b. EndsAligned layout.now b.items) }
    ensures short { IfOk result (λ b. length b.items ≤ room_of layout.now (view value.now)) }
    ensures small { IfOk result (λ b. room_of layout.now (view value.now) ≤ most_bytes) }
    ensures too_big { IfErr result (λ e. e ≡ TooBig → most_bytes < room_of layout.now (view value.now)) }
    ensures memory { IfErr result (λ e. e ≡ Memory → room_of layout.now (view value.now) ≤ most_bytes) }
{
    Ok(plan(alloc, layout, value)?.finish())
}
