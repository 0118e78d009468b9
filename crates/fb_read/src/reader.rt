//! The calls that verify a buffer, for reading it in place.
ghost use Rattle.std.specs.Prelude.{◌≡◌, ◌+◌, ◌≤◌, OnOk, IfOk, IfErr, false};
ghost use Rattle.fb_value.specs.Datum.{Datum};
ghost use Rattle.fb_value.specs.Counts.{entered};
ghost use Rattle.fb_value.specs.Holds.{Holds, Refuses, HoldsFramed, RefusesFramed};
ghost use Rattle.fb_read.specs.Entered.{EntersRefused};
ghost use Rattle.fb_read.specs.Shows.{Shows};

pub(crate) mod paths;
pub(crate) mod ticks;

use crate::buffer::Buffer;
use crate::entries::Entries;
use crate::hearer::Nobody;
use crate::numbers::u32_at;
use crate::view::{View, vtable_in};
use fb_layout::Layout;
use fb_value::{Limits, ReadFault, front_of};
use ticks::visit_buffer;

/// Whether the bytes hold a value; else the least of their faults.
///
/// `raw` skips the file identifier check. `entries` rises by one for each table, vector
/// and text that is entered. Nothing is allocated.
pub fn verify<'a>(
    layout: &'a Layout,
    bytes: &'a [u8],
    limits: Limits,
    raw: bool,
    entries: &mut Entries,
) -> Result<View<'a>, ReadFault>
    ensures held { OnOk result ((v : Datum) × Holds layout.now limits raw bytes.now v) }
    ensures root { IfOk result (λ view. (view.layout.now ≡ layout.now)
        × (view.table.0 ≡ layout.now.schema.root)) }
    ensures stands { IfOk result (λ view. (v : Datum) → Holds layout.now limits raw bytes.now v
        → Shows view v) }
    ensures fault { IfErr result (Refuses layout.now limits raw bytes.now) }
    ensures rises { entries.old.count ≤ entries.new.count }
    ensures counted { entries.new.count ≤ entries.old.count + (limits.cells + 1) }
    ensures each { OnOk result ((v : Datum) → Holds layout.now limits raw bytes.now v
        → entries.new.count ≡ entries.old.count + entered v) }
    ensures refused { IfErr result (λ f. EntersRefused false layout.now limits raw bytes.now f entries.old.count
        entries.new.count) }
{
    verify_framed(layout, bytes, limits, raw, false, entries)
}

/// The same of a buffer that may be `prefixed`: with a size prefix, from which positions and alignment count.
pub fn verify_framed<'a>(
    layout: &'a Layout,
    bytes: &'a [u8],
    limits: Limits,
    raw: bool,
    prefixed: bool,
    entries: &mut Entries,
) -> Result<View<'a>, ReadFault>
    ensures held { OnOk result ((v : Datum) × HoldsFramed prefixed layout.now limits raw bytes.now v) }
    ensures root { IfOk result (λ view. (view.layout.now ≡ layout.now)
        × (view.table.0 ≡ layout.now.schema.root)) }
    ensures stands { IfOk result (λ view. (v : Datum) → HoldsFramed prefixed layout.now limits raw bytes.now v
        → Shows view v) }
    ensures fault { IfErr result (RefusesFramed prefixed layout.now limits raw bytes.now) }
    ensures rises { entries.old.count ≤ entries.new.count }
    ensures counted { entries.new.count ≤ entries.old.count + (limits.cells + 1) }
    ensures each { OnOk result ((v : Datum) → HoldsFramed prefixed layout.now limits raw bytes.now v
        → entries.new.count ≡ entries.old.count + entered v) }
    ensures refused { IfErr result (λ f. EntersRefused prefixed layout.now limits raw bytes.now f entries.old.count
        entries.new.count) }
{
    let buffer = Buffer::checked(layout, bytes, limits, raw, prefixed)?;
    let root = layout.schema().root();
    let (_nobody, visited, whole) = visit_buffer(&buffer, Nobody, prefixed, entries);
    visited?;
    let front = front_of(prefixed);
    let at = front + u32_at(bytes, front) as usize;
    Ok(View {
        layout,
        bytes,
        table: root,
        at,
        vtable_at: vtable_in(layout, bytes, root, at),
        whole,
    })
}
