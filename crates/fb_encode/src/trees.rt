//! Buffers of trees.
ghost use Rattle.std.specs.Prelude.{◌≡◌, ◌⊎◌, [], IfErr, IfOk};
ghost use Rattle.std.specs.Prelude.{Bool};
ghost use Rattle.serde_json.specs.Data.{Data};
ghost use Rattle.serde_json.specs.View.{view as tree_view};
ghost use Rattle.fb_value.specs.Bounds.{Bounds};
ghost use Rattle.fb_value.specs.Datum.{Datum};
ghost use Rattle.fb_value.specs.Num.{Bytes};
ghost use Rattle.fb_tape.specs.Tapes.{Waits};
ghost use Rattle.fb_json.specs.Refuses.{IsFirst, MayLackMemory};
ghost use Rattle.fb_build.specs.NotedRoots.{NotesRoot};
ghost use Rattle.fb_build.specs.Planned.{IsLaidBy};
ghost use Rattle.fb_encode.specs.Encoded.{EncodeRefusedFramed, IsEncodedFramed};
ghost use Rattle.fb_encode.specs.RootsNoted.{IsRootNoted};
ghost use Rattle.fb_encode.specs.declared.faults.EncodeFault.TheVariants.{Build};

use crate::parts::note_object;
use fb_build::{BuildFault, Noting, TapePlan, plan_root};
use fb_json::{JsonContext, JsonFault, Place, only_what_is_meant};
use fb_tape::Tape;
use fb_value::Limits;
use serde_json::Value as Json;

/// The tape with the value that a tree means under the root table, where nothing was noted yet.
pub(crate) fn note_root<'l>(
    source: JsonContext<'l>,
    noting: Noting<'l>,
    tree: &Json,
    limits: Limits,
) -> Result<Tape<'l>, JsonFault>
    requires layout { noting.tape.layout ≡ source.layout.now }
    requires waits { Waits noting.tape [] }
    requires whole { noting.tape.unfinished ≡ [] }
    requires room { noting.tape.room ≡ 0 }
    ensures noted { IfOk result
        (IsRootNoted source.entry.layout.now limits source.entry.unknown (tree_view tree.now)) }
    ensures first { IfErr result (λ f. (f ≡ JsonFault.Memory)
        ⊎ IsFirst source.entry.layout.now limits source.entry.unknown (tree_view tree.now) f) }
    ensures memory { IfErr result (MayLackMemory limits (tree_view tree.now)) }
{
    only_what_is_meant();
    let root = source.layout.schema().root();
    let place = Place {
        owner: root,
        slot: None,
    };
    let levels = limits.most_depth();
    let cells = limits.most_cells();
    let mut noting = noting;
    let noted = note_object(source, &mut noting, tree, root, place, levels, cells);
    let Noting { tape, .. } = noting;
    match noted {
        Ok(_left) => Ok(tape),
        Err(fault) => Err(fault),
    }
}

/// The plan of the buffer of the value that is noted on a tape, as the root's. A `prefixed` buffer has a size prefix.
pub(crate) fn plan_noted<'l>(
    source: JsonContext<'l>,
    tape: Tape<'l>,
    prefixed: bool,
) -> Result<TapePlan<'l>, BuildFault>
    requires { (d : Datum) × NotesRoot source.layout.now tape d }
    ensures planned { let L = source.entry.layout.now in (most : Bounds) (unknown : Bool) (t : Data)
        → IsRootNoted L most unknown t tape.entry
        → IfOk result (λ plan. (b : Bytes) → IsLaidBy plan b → IsEncodedFramed prefixed L most unknown t b) }
    ensures refused { let L = source.entry.layout.now in (most : Bounds) (unknown : Bool) (t : Data)
        → IsRootNoted L most unknown t tape.entry
        → IfErr result (λ fault. EncodeRefusedFramed prefixed L most unknown t (Build fault)) }
{
    match plan_root(source.alloc, source.layout, tape, prefixed) {
        Ok(plan) => Ok(plan),
        Err(fault) => Err(fault),
    }
}
