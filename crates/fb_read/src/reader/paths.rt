//! The path of a buffer's least fault.
ghost use Rattle.std.specs.Prelude.{◌≡◌, ◌⊎◌, ◌+◌, ◌≤◌, map, Some, IfOk, MatchOption};
ghost use Rattle.fb_value.specs.Counts.{entered};
ghost use Rattle.fb_value.specs.Datum.{Datum};
ghost use Rattle.fb_value.specs.declared.faults.ReadFault.{ReadFault};
ghost use Rattle.fb_value.specs.Holds.{front_fault, checked_identifier, HasNoFaultFramed};
ghost use Rattle.fb_value.specs.Holds.{front_of, root_at, HoldsFramed};
ghost use Rattle.fb_read.specs.Entered.{parts_along};
ghost use Rattle.fb_read.specs.FaultPaths.{number_of, IsFaultPathFramed};

use crate::buffer::Buffer;
use crate::entries::Entries;
use crate::reader::ticks::visit_buffer;
use crate::step::Step;
use crate::trail::Trail;
use fb_layout::Layout;
use fb_value::Limits;
use std::alloc::{AllocError, Global};

/// What comes before the root of a buffer, and what of that is checked.
#[derive(Clone, Copy, Debug, PartialEq, Eq)]
pub struct Framing {
    /// Whether the file identifier isn't checked.
    pub raw: bool,
    /// Whether the buffer has a size prefix.
    pub prefixed: bool,
}

/// The steps from the root to the least fault of the bytes.
///
/// None where the bytes hold a value, and where the fault is in the size prefix or the header. A step of a slot has the
/// table's type, so a layout is enough to name what each step leads to.
///
/// It checks the bytes once more, and is for a buffer that was refused. `entries` rises by one for each table, vector
/// and text that is entered.
pub fn fault_path(
    alloc: Global,
    layout: &Layout,
    bytes: &[u8],
    limits: Limits,
    framing: Framing,
    entries: &mut Entries,
) -> Result<Option<Vec<Step>>, AllocError>
    ensures path { IfOk result (λ found. MatchOption found
        (((f : ReadFault) × (front_fault framing.prefixed bytes.now (checked_identifier layout.now framing.raw)
        ≡ Some f)) ⊎ HasNoFaultFramed framing.prefixed layout.now limits framing.raw bytes.now)
        (λ steps. (f : ReadFault) × IsFaultPathFramed framing.prefixed layout.now limits framing.raw bytes.now
        steps.items f)) }
    ensures rises { entries.old.count ≤ entries.new.count }
    ensures counted { entries.new.count ≤ entries.old.count + (limits.cells + 1) }
    ensures front { (f : ReadFault)
        → front_fault framing.prefixed bytes.now (checked_identifier layout.now framing.raw) ≡ Some f
        → entries.new.count ≡ entries.old.count }
    ensures each { IfOk result (λ found. MatchOption found ((v : Datum)
        → HoldsFramed framing.prefixed layout.now limits framing.raw bytes.now v
        → entries.new.count ≡ entries.old.count + entered v)
        (λ steps. entries.new.count ≡ entries.old.count + parts_along layout.now bytes.now
        (root_at layout.now (front_of framing.prefixed)) (map number_of steps.items))) }
{
    let prefixed = framing.prefixed;
    let Ok(buffer) = Buffer::checked(layout, bytes, limits, framing.raw, prefixed) else {
        return Ok(None);
    };
    let (trail, visited, _whole) = visit_buffer(&buffer, Trail::new(alloc), prefixed, entries);
    match visited {
        Ok(()) => Ok(None),
        Err(_) => Ok(Some(trail.into_steps()?)),
    }
}
