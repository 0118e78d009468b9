//! Lays the data of a tape: texts, and vectors of numbers or structs.
ghost use Rattle.std.specs.Prelude.{ℕ, List, ◌≡◌, ◌≤◌, ◌+◌, ◌-◌, length, max};
ghost use Rattle.fb_layout.specs.Laid.{LaidSchema};
ghost use Rattle.fb_layout.specs.Sizes.{IsAlignment};
ghost use Rattle.fb_value.specs.Places.{part_place};
ghost use Rattle.fb_tape.specs.NamedParts.{NamedPart};
ghost use Rattle.fb_tape.specs.Tapes.{IsData};
ghost use Rattle.fb_build.specs.CoveredTails.{parts_in_tail};
ghost use Rattle.fb_build.specs.Lengths.{data_end};
ghost use Rattle.fb_build.specs.Made.{Adds};
ghost use Rattle.fb_build.specs.Tails.{Grows, LaidInTail};

use crate::tail::{Tail, laid_is_short};

/// Lays bytes that refer to nothing, aligned after their count, which they begin with.
pub(crate) fn lay_data(out: &mut Tail, align: usize, bytes: &[u8])
    requires power { IsAlignment align }
    requires counted { 4 ≤ length bytes.now }
    requires room { data_end align (length bytes.now) (length out.old.bytes)
        ≤ length out.old.bytes + out.old.free }
    ensures lies { (L : LaidSchema) (part : NamedPart) → IsData L part align bytes.now
        → LaidInTail L out.new.most out.new.bytes (part_place part.target) (length out.new.bytes) part.value }
    ensures adds { (L : LaidSchema) (part : NamedPart) (places : List ℕ) → IsData L part align bytes.now
        → Adds L out.old places out.new places
        (parts_in_tail L out.new.bytes part.target (length out.new.bytes) part.value) }
    ensures long { length out.new.bytes ≡ data_end align (length bytes.now) (length out.old.bytes) }
    ensures most { out.new.most ≡ max out.old.most align }
    ensures grows { Grows out.old out.new }
{
    laid_is_short(out);
    out.fit(align, bytes.len() - 4);
    out.lay(bytes);
}
