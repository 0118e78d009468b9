//! Lays the vectors of references of a tape.
ghost use Rattle.std.specs.Prelude.{ℕ, List, [], ◌∷◌, ◌≡◌, ◌≤◌, ◌+◌, ◌-◌, ◌*◌, length, true, max, slice_index};
ghost use Rattle.fb_layout.specs.Laid.{LaidSchema, StoredKind};
ghost use Rattle.fb_value.specs.Datum.{Datum, a_vector};
ghost use Rattle.fb_value.specs.Num.{divides};
ghost use Rattle.fb_value.specs.Places.{part_place, vector_part};
ghost use Rattle.fb_value.specs.View.{parts_in};
ghost use Rattle.fb_build.specs.CoveredTails.{parts_in_tail};
ghost use Rattle.fb_build.specs.Items.{ItemsEnd};
ghost use Rattle.fb_build.specs.Lengths.{references_end};
ghost use Rattle.fb_build.specs.Made.{Adds, ItemsLead, named_items, ends_parts};
ghost use Rattle.fb_build.specs.Referred.{AreReferred};
ghost use Rattle.fb_build.specs.Tails.{Grows, LaidInTail};

use crate::references::lay_reference;
use crate::tail::{Tail, laid_is_short};

/// Lays references to what was laid at some end-counts, from the last to the first.
fn lay_elements(out: &mut Tail, ends: &[u32])
    requires inside { (i : ℕ) → slice_index ends.now i ≤ length out.old.bytes }
    requires room { length ends.now * 4 ≤ out.old.free }
    requires whole { divides 4 (length out.old.bytes) ≡ true }
    requires wide { divides 4 out.old.most ≡ true }
    ensures lies { (L : LaidSchema) (kind : StoredKind) (ds : List Datum) → AreReferred L kind ds out.old ends.now
        → ItemsEnd L out.new.most out.new.bytes kind (parts_in ds) }
    ensures leads { (L : LaidSchema) (kind : StoredKind) (ds : List Datum) → AreReferred L kind ds out.old ends.now
        → ItemsLead L out.new.bytes (length out.old.bytes) kind ds ends.now }
    ensures free { out.new.free + length ends.now * 4 ≡ out.old.free }
    ensures most { out.new.most ≡ out.old.most }
    ensures grows { Grows out.old out.new }
{
    for k in 0..ends.len() {
        let i = ends.len() - 1 - k;
        lay_reference(out, ends[i]);
    }
}

/// Lays a vector of references to what was laid at some end-counts.
pub(crate) fn lay_references(out: &mut Tail, ends: &[u32])
    requires inside { (i : ℕ) → slice_index ends.now i ≤ length out.old.bytes }
    requires room { references_end (length ends.now) (length out.old.bytes)
        ≤ length out.old.bytes + out.old.free }
    ensures lies { (L : LaidSchema) (kind : StoredKind) (ds : List Datum) → AreReferred L kind ds out.old ends.now
        → LaidInTail L out.new.most out.new.bytes (part_place (vector_part kind)) (length out.new.bytes)
        (a_vector (parts_in ds)) }
    ensures adds { (L : LaidSchema) (kind : StoredKind) (ds : List Datum) (places : List ℕ)
        → AreReferred L kind ds out.old ends.now → Adds L out.old places out.new places
        (record { target = vector_part kind; at = length out.new.bytes - length out.new.bytes } ∷ []) }
    ensures leads { (L : LaidSchema) (kind : StoredKind) (ds : List Datum) → AreReferred L kind ds out.old ends.now
        → parts_in_tail L out.new.bytes (vector_part kind) (length out.new.bytes) (a_vector (parts_in ds))
        ≡ record { target = vector_part kind; at = length out.new.bytes - length out.new.bytes }
        ∷ ends_parts L out.new.bytes (named_items kind ds) ends.now }
    ensures long { length out.new.bytes ≡ references_end (length ends.now) (length out.old.bytes) }
    ensures most { out.new.most ≡ max out.old.most 4 }
    ensures grows { Grows out.old out.new }
{
    laid_is_short(out);
    out.fit(4, ends.len() * 4);
    lay_elements(out, ends);
    out.lay_u32(ends.len() as u32);
}
