//! The calls that read a buffer to a value.
ghost use Rattle.std.specs.Prelude.{◌≡◌, ◌≢◌, ◌+◌, ◌≤◌, IfOk, IfErr, Err, false};
ghost use Rattle.fb_value.specs.View.{view};
ghost use Rattle.fb_value.specs.Counts.{depth, entered, nesting};
ghost use Rattle.fb_value.specs.Fits.{FitsRoot};
ghost use Rattle.fb_value.specs.Holds.{Holds, RootKeeps, Refuses};
ghost use Rattle.fb_value.specs.Holds.{HoldsFramed, RootKeepsFramed, RefusesFramed};
ghost use Rattle.fb_read.specs.Entered.{EntersRefused};
ghost use Rattle.fb_owned.specs.Memory.{PartIsReached, PartIsReachedFramed};

use crate::values::value_of_view;
use fb_layout::{Layout, layout_is_well_made};
use fb_read::{Entries, Framing, verify_framed};
use fb_value::{Limits, ReadFault, Value};
use std::alloc::Global;

/// The value that the bytes hold, or the least of their faults.
///
/// `raw` skips the file identifier check. `entries` rises by one for each table, vector
/// and text that is entered. The bytes are read as the FlatBuffers documentation lays them out
/// ("FlatBuffer Internals").
///
/// The bytes are verified before memory is allocated. `Memory` is returned only where a table, vector or text is
/// reached that keeps its rules and is within the limits, with no fault at or before it.
///
/// A struct takes stack for each level of its nesting, and so does its drop.
pub fn read<'a>(
    alloc: Global,
    layout: &'a Layout,
    bytes: &'a [u8],
    limits: Limits,
    raw: bool,
    entries: &mut Entries,
) -> Result<Value, ReadFault>
    ensures value { IfOk result (λ v. Holds layout.now limits raw bytes.now (view v)) }
    ensures fits { IfOk result (λ v. FitsRoot layout.now (view v)) }
    ensures deep { IfOk result (λ v. depth (view v) ≤ 127) }
    ensures nests { IfOk result (λ v. nesting (view v) ≤ 300) }
    ensures fault { IfErr result
        (λ f. f ≢ ReadFault.Memory → Refuses layout.now limits raw bytes.now f) }
    ensures memory { result ≡ Err ReadFault.Memory →
        RootKeeps layout.now limits raw bytes.now }
    ensures reached { result ≡ Err ReadFault.Memory →
        PartIsReached layout.now limits raw bytes.now }
    ensures rises { entries.old.count ≤ entries.new.count }
    ensures counted { entries.new.count ≤ entries.old.count + (limits.cells + 1) }
    ensures each { IfOk result (λ v. entries.new.count ≡ entries.old.count + entered (view v)) }
    ensures refused { IfErr result (λ f. f ≢ ReadFault.Memory → EntersRefused false layout.now limits raw bytes.now f
        entries.old.count entries.new.count) }
{
    let framing = Framing {
        raw,
        prefixed: false,
    };
    read_framed(alloc, layout, bytes, limits, framing, entries)
}

/// The same of a buffer that may have a size prefix, from which positions and alignment count.
pub fn read_framed<'a>(
    alloc: Global,
    layout: &'a Layout,
    bytes: &'a [u8],
    limits: Limits,
    framing: Framing,
    entries: &mut Entries,
) -> Result<Value, ReadFault>
    ensures value { IfOk result (λ v. HoldsFramed framing.prefixed layout.now limits framing.raw bytes.now (view v)) }
    ensures fits { IfOk result (λ v. FitsRoot layout.now (view v)) }
    ensures deep { IfOk result (λ v. depth (view v) ≤ 127) }
    ensures nests { IfOk result (λ v. nesting (view v) ≤ 300) }
    ensures fault { IfErr result
        (λ f. f ≢ ReadFault.Memory → RefusesFramed framing.prefixed layout.now limits framing.raw bytes.now f) }
    ensures memory { result ≡ Err ReadFault.Memory →
        RootKeepsFramed framing.prefixed layout.now limits framing.raw bytes.now }
    ensures reached { result ≡ Err ReadFault.Memory →
        PartIsReachedFramed framing.prefixed layout.now limits framing.raw bytes.now }
    ensures rises { entries.old.count ≤ entries.new.count }
    ensures counted { entries.new.count ≤ entries.old.count + (limits.cells + 1) }
    ensures each { IfOk result (λ v. entries.new.count ≡ entries.old.count + entered (view v)) }
    ensures refused { IfErr result (λ f. f ≢ ReadFault.Memory → EntersRefused framing.prefixed layout.now limits
        framing.raw bytes.now f entries.old.count entries.new.count) }
{
    layout_is_well_made(layout);
    limits.most_depth(); // at most 127
    let root = verify_framed(
        layout,
        bytes,
        limits,
        framing.raw,
        framing.prefixed,
        entries,
    )?;
    Ok(value_of_view(alloc, root)?)
}
