//! What becomes of values under a later schema.
ghost use Rattle.std.specs.Prelude.{◌≤◌};
ghost use Rattle.fb_value.specs.View.{view};
ghost use Rattle.fb_value.specs.Counts.{nesting};
ghost use Rattle.fb_value.specs.Fits.{FitsRoot};
ghost use Rattle.fb_conform.specs.Conforms.{Conforms};

use crate::values::Case;
use crate::values::meanings::{buffer_of, meaning, write_unmeant};
use crate::values::readings::{value_in, write_unread};
use crate::values::texts::try_alike;
use fb_conform::{conform, moved_names};
use fb_layout::Layout;
use fb_owned::carry;
use fb_value::Value;
use std::alloc::AllocError;

/// Writes a value, where a later program finds it in bytes.
fn try_found(
    later: &Case,
    bytes: &[u8],
    carried: &Value,
    line: &mut String,
) -> Result<(), AllocError> {
    match value_in(later, bytes, false) {
        Ok(found) if found == *carried => try_alike(later, bytes, false, carried, line),
        Ok(found) => write!(line, "{carried:?} is carried, and {found:?} is read"),
        Err(unread) => write_unread(unread, line),
    }
}

/// Writes a carried value, where a later program reads it of what an older one writes.
fn try_carried(
    case: &Case,
    later: &Case,
    json: &str,
    carried: &Value,
    line: &mut String,
) -> Result<(), AllocError> {
    match buffer_of(case, json, false) {
        Ok(bytes) => try_found(later, bytes.as_slice(), carried, line),
        Err(fault) => write!(line, "fault {}", fault.number()),
    }
}

/// Writes a value as it is under a later schema, where the buffer of its text holds it so.
fn try_value(
    case: &Case,
    later: &Case,
    json: &str,
    value: &Value,
    line: &mut String,
) -> Result<(), AllocError>
    requires conforms { Conforms case.now.layout.now later.now.layout.now }
    requires fits { FitsRoot case.now.layout.now (view value.now) }
    requires flat { nesting (view value.now) ≤ 300 }
{
    let carried = carry(case.alloc, case.layout, later.layout, value)?;
    try_carried(case, later, json, &carried, line)
}

fn try_conforming(
    case: &Case,
    later: &Case,
    json: &str,
    line: &mut String,
) -> Result<(), AllocError>
    requires { Conforms case.now.layout.now later.now.layout.now }
{
    match meaning(case, json, false) {
        Ok(value) => try_value(case, later, json, &value, line),
        Err(unmeant) => write_unmeant(unmeant, line),
    }
}

/// Writes the value that a JSON text means, carried to the later schema, where the buffer of the
/// text holds it under that schema; the breach where the later schema doesn't conform.
pub(crate) fn try_later(
    case: &Case,
    later: &Case,
    json: &str,
    line: &mut String,
) -> Result<(), AllocError> {
    match conform(case.layout, later.layout) {
        Ok(()) => try_conforming(case, later, json, line),
        Err(breach) => write!(line, "{breach:?}"),
    }
}

/// Writes the names that stand for something else in a later schema; the breach where it doesn't conform.
pub(crate) fn write_moved_names(
    case: &Case,
    later: &Layout,
    line: &mut String,
) -> Result<(), AllocError> {
    if let Err(breach) = conform(case.layout, later) {
        return write!(line, "{breach:?}");
    }
    let names = moved_names(case.alloc, case.layout, later)?;
    write!(line, "{names:?}")
}
