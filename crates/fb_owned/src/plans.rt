//! Values that are to be laid, with all the memory that laying them takes.
ghost use Rattle.std.specs.Prelude.{Bool, ◌≤◌, length};
ghost use Rattle.fb_value.specs.Bounds.{Bounds};
ghost use Rattle.fb_value.specs.Counts.{cells, depth};
ghost use Rattle.fb_value.specs.Holds.{Holds};
ghost use Rattle.fb_value.specs.OldSlots.{OnlyOld};
ghost use Rattle.fb_value.specs.Room.{room_of};
ghost use Rattle.fb_value.specs.View.{view};
ghost use Rattle.fb_build.specs.Covered.{Covered, EndsAligned};

use fb_build::TapePlan;
use fb_value::Value;
use std::marker::Model;

/// A value for which all memory is taken.
#[derive(Drop)]
pub struct Plan<'v> {
    pub(crate) value: &'v Value,
    pub(crate) plan: TapePlan<'v>,
}

impl<'v> Model for Plan<'v> {
    ghost use Rattle.fb_owned.specs.Planned.{Planned};

    ghost Value = { Planned };

    ghost use Rattle.fb_value.specs.contracts.values.Value as value_contracts;
    ghost use Rattle.std.specs.Coded.{codes};

    ghost coded = { Prim.hlevel (codes, value_contracts.the_row.coded) };

    ghost use Rattle.fb_owned.specs.Ready.{planned_seen, IsReady};

    ghost view = { planned_seen };

    ghost invariant = { IsReady };
}

impl Plan<'_> {
    /// Lays the bytes, with no memory but what the plan has.
    pub fn finish(self) -> Vec<u8>
        ensures holds { (most : Bounds) (raw : Bool) → depth (view self.entry.value) ≤ most.depth
            → cells (view self.entry.value) ≤ most.cells → Holds self.entry.layout most raw result.items
            (view self.entry.value) }
        ensures old_slots { OnlyOld self.entry.layout result.items }
        ensures covered { Covered self.entry.layout result.items }
        ensures aligned { EndsAligned self.entry.layout result.items }
        ensures short { length result.items ≤ room_of self.entry.layout (view self.entry.value) }
    {
        self.plan.finish()
    }
}
