//! What both readers make of bytes.
use crate::values::Case;
use crate::values::agree::table_agrees;
use crate::values::texts::try_alike;
use fb_owned::read_framed;
use fb_read::{Entries, Framing, verify_framed};
use fb_value::{ReadFault, Value};
use std::alloc::AllocError;

/// Why there is no value: both readers refuse the bytes with one fault, or they differ.
#[derive(Clone, Copy, Drop)]
pub(crate) enum ReadRefusal {
    Fault(ReadFault),
    Apart,
}

/// The fault of `verify`, where it refuses the bytes.
fn fault_of(case: &Case, bytes: &[u8], raw: bool) -> Option<ReadFault> {
    let mut entries = Entries::new();
    verify_framed(
        case.layout,
        bytes,
        case.limits,
        raw,
        case.prefixed,
        &mut entries,
    )
    .err()
}

/// Whether `verify` accepts the bytes, and its view shows the value.
fn is_shown(case: &Case, bytes: &[u8], raw: bool, value: &Value) -> bool {
    let mut entries = Entries::new();
    match verify_framed(
        case.layout,
        bytes,
        case.limits,
        raw,
        case.prefixed,
        &mut entries,
    ) {
        Ok(view) => table_agrees(view, value),
        Err(_) => false,
    }
}

/// The value that bytes hold, read as a whole and shown by a view.
pub(crate) fn value_in(case: &Case, bytes: &[u8], raw: bool) -> Result<Value, ReadRefusal> {
    let mut entries = Entries::new();
    let framing = Framing {
        raw,
        prefixed: case.prefixed,
    };
    match read_framed(
        case.alloc,
        case.layout,
        bytes,
        case.limits,
        framing,
        &mut entries,
    ) {
        Ok(value) if is_shown(case, bytes, raw, &value) => Ok(value),
        Err(fault) if fault_of(case, bytes, raw) == Some(fault) => Err(ReadRefusal::Fault(fault)),
        _ => Err(ReadRefusal::Apart),
    }
}

/// Writes why there is no value.
pub(crate) fn write_unread(unread: ReadRefusal, line: &mut String) -> Result<(), AllocError> {
    match unread {
        ReadRefusal::Fault(fault) => write!(line, "{fault:?}"),
        ReadRefusal::Apart => line.push_str("two readers that differ"),
    }
}

/// Writes the value that bytes hold, where they print as its text, or the fault.
pub(crate) fn try_bytes(
    case: &Case,
    bytes: &[u8],
    raw: bool,
    line: &mut String,
) -> Result<(), AllocError> {
    match value_in(case, bytes, raw) {
        Ok(value) => try_alike(case, bytes, raw, &value, line),
        Err(unread) => write_unread(unread, line),
    }
}
