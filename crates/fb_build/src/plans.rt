//! What is to be laid, with all the memory that laying it takes.
ghost use Rattle.std.specs.Prelude.{Bool, List, Option, ◌≡◌, ◌≤◌, ◌+◌, ◌-◌, length, IfOk};
ghost use Rattle.fb_layout.specs.Widths.{greatest};
ghost use Rattle.fb_value.specs.Bounds.{Bounds, most_bytes};
ghost use Rattle.fb_value.specs.Counts.{cells, depth};
ghost use Rattle.fb_value.specs.Datum.{Datum, a_table};
ghost use Rattle.fb_value.specs.Holds.{HoldsFramed, front_of};
ghost use Rattle.fb_value.specs.OldSlots.{OnlyOldBehind};
ghost use Rattle.fb_value.specs.View.{entries_in};
ghost use Rattle.fb_tape.specs.Tapes.{MeansRoot};
ghost use Rattle.fb_build.specs.Covered.{CoveredFramed, EndsAlignedFramed};
ghost use Rattle.fb_build.specs.Planned.{IsLaidBy};
ghost use Rattle.fb_build.specs.TapeLaid.{SomeRoot};

use crate::laying::Laying;
use crate::roots::close_tail;
use crate::taped_lengths::buffer_end;
use crate::taped_ops::lay_tape;
use fb_layout::Layout;
use fb_tape::Tape;
use fb_value::front_of;
use std::alloc::{AllocError, Global};
use std::marker::Model;

/// A tape that means a value of the root table, with all the memory that laying its buffer takes: a block as long as
/// that, a count for each part that waits, and a place for each vtable. A `prefixed` buffer has a size prefix.
#[derive(Drop)]
pub struct TapePlan<'l> {
    layout: &'l Layout,
    tape: Tape<'l>,
    prefixed: bool,
    laying: Laying,
}

impl<'l> Model for TapePlan<'l> {
    ghost use Rattle.fb_build.specs.Planned.{TapePlanned};

    ghost Value = { TapePlanned };

    ghost use Rattle.fb_build.specs.Ready.{tape_planned_seen, IsTapeReady};

    ghost view = { tape_planned_seen };

    ghost invariant = { IsTapeReady };
}

impl<'l> TapePlan<'l> {
    /// Takes all the memory that laying a tape takes.
    pub fn for_tape(
        alloc: Global,
        layout: &'l Layout,
        tape: Tape<'l>,
        prefixed: bool,
    ) -> Result<TapePlan<'l>, AllocError>
        requires layout { tape.layout ≡ layout.now }
        requires means { SomeRoot tape }
        requires room { front_of prefixed + (tape.room + (8 + (greatest layout.now - 1))) ≤ most_bytes }
        ensures layout { IfOk result (λ p. p.layout ≡ layout.now) }
        ensures tape { IfOk result (λ p. p.tape ≡ tape.entry) }
        ensures prefixed { IfOk result (λ p. p.prefixed ≡ prefixed) }
    {
        let end = buffer_end(layout, &tape, front_of(prefixed));
        let laying = Laying::with_room(alloc, end, tape.ops().len(), tape.vtable_count())?;
        Ok(TapePlan {
            layout,
            tape,
            prefixed,
            laying,
        })
    }

    /// Lays the bytes, with no memory but what the plan has.
    pub fn finish(self) -> Vec<u8>
        ensures laid { IsLaidBy self.entry result.items }
        ensures holds { (xs : List (Option Datum)) (most : Bounds) (raw : Bool) → MeansRoot self.entry.tape xs
            → depth (a_table self.entry.layout.schema.root (entries_in xs)) ≤ most.depth
            → cells (a_table self.entry.layout.schema.root (entries_in xs)) ≤ most.cells
            → HoldsFramed self.entry.prefixed self.entry.layout most raw result.items
            (a_table self.entry.layout.schema.root (entries_in xs)) }
        ensures old_slots { OnlyOldBehind (front_of self.entry.prefixed) self.entry.layout result.items }
        ensures covered { CoveredFramed self.entry.prefixed self.entry.layout result.items }
        ensures aligned { EndsAlignedFramed self.entry.prefixed self.entry.layout result.items }
        ensures short { length result.items
            ≤ front_of self.entry.prefixed + (self.entry.tape.room + (8 + (greatest self.entry.layout - 1))) }
    {
        let TapePlan {
            layout,
            tape,
            prefixed,
            mut laying,
        } = self;
        lay_tape(&mut laying, layout, &tape);
        let place = laying.waiting[0];
        close_tail(layout, laying.tail, place, prefixed).into_bytes()
    }
}
