//! Lays references.
ghost use Rattle.std.specs.Prelude.{◌≡◌, ◌≤◌, ◌+◌, length, true};
ghost use Rattle.fb_layout.specs.Laid.{LaidSchema};
ghost use Rattle.fb_value.specs.Datum.{Datum};
ghost use Rattle.fb_value.specs.Num.{divides};
ghost use Rattle.fb_value.specs.Places.{Target, part_place, ref_place};
ghost use Rattle.fb_build.specs.Made.{LeadsEnd};
ghost use Rattle.fb_build.specs.Tails.{Grows, LaidInTail};

use crate::tail::Tail;

/// Lays a reference to what was laid at an end-count.
pub(crate) fn lay_reference(out: &mut Tail, target: u32)
    requires inside { target ≤ length out.old.bytes }
    requires room { 4 ≤ out.old.free }
    requires whole { divides 4 (length out.old.bytes) ≡ true }
    requires wide { divides 4 out.old.most ≡ true }
    ensures lies { (L : LaidSchema) (X : Target) (d : Datum) → LaidInTail L out.old.most out.old.bytes
        (part_place X) target d
        → LaidInTail L out.new.most out.new.bytes (ref_place X) (length out.new.bytes) d }
    ensures leads { LeadsEnd out.new.bytes (length out.new.bytes) target }
    ensures free { out.new.free + 4 ≡ out.old.free }
    ensures long { length out.new.bytes ≡ length out.old.bytes + 4 }
    ensures most { out.new.most ≡ out.old.most }
    ensures grows { Grows out.old out.new }
{
    let place = out.count() + 4;
    out.lay_u32((place - target as usize) as u32);
}
