//! Buffers that are made of JSON texts and printed.
use crate::hex::write_hex;
use crate::values::Case;
use crate::values::meanings::{buffer_of, meaning, write_unmeant};
use crate::values::readings::{value_in, write_unread};
use crate::values::texts::{is_printed_alike, printed_of};
use fb_value::Value;
use flatc_tool::ToolFault;
use std::alloc::AllocError;

/// Writes a fault of the tool, as the layer that refuses names it.
fn write_fault(fault: ToolFault, line: &mut String) -> Result<(), AllocError> {
    match fault {
        ToolFault::Read(fault) => write!(line, "{fault:?}"),
        ToolFault::Text(fault) => write!(line, "{fault:?}"),
        other => write!(line, "fault {}", other.number()),
    }
}

/// Writes the text that the tool prints of bytes, or the fault.
pub(crate) fn try_printed(
    case: &Case,
    bytes: &[u8],
    raw: bool,
    defaults: bool,
    line: &mut String,
) -> Result<(), AllocError> {
    match printed_of(case, bytes, raw, defaults) {
        Ok(text) => line.push_str(text.as_str()),
        Err(fault) => write_fault(fault, line),
    }
}

/// Writes a text that was printed of a value, where it means that value again.
fn try_again(case: &Case, value: &Value, text: &str, line: &mut String) -> Result<(), AllocError> {
    match meaning(case, text, false) {
        Ok(again) if again == *value => line.push_str(text),
        _ => write!(line, "another value when it is read again: {text}"),
    }
}

/// Writes the text that the tool prints of a value's bytes.
fn try_text(
    case: &Case,
    bytes: &[u8],
    value: &Value,
    defaults: bool,
    line: &mut String,
) -> Result<(), AllocError> {
    match printed_of(case, bytes, false, defaults) {
        Ok(text) if is_printed_alike(case, bytes, false, defaults, value) => {
            try_again(case, value, text.as_str(), line)
        }
        Ok(text) => write!(line, "another text than the value's: {text}"),
        Err(fault) => write_fault(fault, line),
    }
}

/// Writes the text that is printed of bytes, where they hold a value.
fn try_value(
    case: &Case,
    bytes: &[u8],
    value: &Value,
    defaults: bool,
    line: &mut String,
) -> Result<(), AllocError> {
    match value_in(case, bytes, false) {
        Ok(found) if found == *value => try_text(case, bytes, value, defaults, line),
        Ok(found) => write!(line, "{found:?} when it is read"),
        Err(unread) => write_unread(unread, line),
    }
}

/// Writes the text that is printed of bytes, where the tool makes them of a JSON text that means a
/// value, and they hold it.
fn try_buffer(
    case: &Case,
    json: &str,
    bytes: &[u8],
    value: &Value,
    defaults: bool,
    line: &mut String,
) -> Result<(), AllocError> {
    match buffer_of(case, json, false) {
        Ok(made) if made.as_slice() == bytes => try_value(case, bytes, value, defaults, line),
        Ok(made) => write_hex(made.as_slice(), line),
        Err(fault) => write_fault(fault, line),
    }
}

/// Writes the text that a JSON text prints as, where it becomes these bytes and they hold the value
/// that it means.
pub(crate) fn try_both(
    case: &Case,
    json: &str,
    bytes: &[u8],
    defaults: bool,
    line: &mut String,
) -> Result<(), AllocError> {
    match meaning(case, json, false) {
        Ok(value) => try_buffer(case, json, bytes, &value, defaults, line),
        Err(unmeant) => write_unmeant(unmeant, line),
    }
}
