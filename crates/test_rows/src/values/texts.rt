//! Texts of values beside those of their bytes.
use crate::values::Case;
use fb_owned::spaced_text_of;
use fb_text::{Spacing, TextFault};
use fb_value::Value;
use flatc_tool::{DecodeOptions, ToolFault, decode};
use std::alloc::AllocError;

/// The text that the tool prints of bytes.
pub(crate) fn printed_of(
    case: &Case,
    bytes: &[u8],
    raw: bool,
    defaults: bool,
) -> Result<String, ToolFault> {
    let options = DecodeOptions {
        limits: case.limits,
        raw_binary: raw,
        defaults_json: defaults,
        size_prefixed: case.prefixed,
        compact: case.compact,
    };
    decode(case.alloc, case.layout, bytes, &options)
}

fn is_printed(case: &Case, bytes: &[u8], raw: bool, defaults: bool, text: &str) -> bool {
    match printed_of(case, bytes, raw, defaults) {
        Ok(printed) => printed.as_str() == text,
        Err(_) => false,
    }
}

/// Whether bytes are refused with a fault of their text that isn't memory's.
fn is_unprinted(case: &Case, bytes: &[u8], raw: bool, defaults: bool, fault: TextFault) -> bool {
    match printed_of(case, bytes, raw, defaults) {
        Err(ToolFault::Text(told)) => fault.place().is_some() && told.place() == fault.place(),
        _ => false,
    }
}

/// Whether bytes print as the text of the value that they hold, or both are refused for the same
/// union without a name.
pub(crate) fn is_printed_alike(
    case: &Case,
    bytes: &[u8],
    raw: bool,
    defaults: bool,
    value: &Value,
) -> bool {
    let spacing = if case.compact {
        Spacing::Compact
    } else {
        Spacing::Indented
    };
    match spaced_text_of(case.alloc, case.layout, value, defaults, spacing) {
        Ok(text) => is_printed(case, bytes, raw, defaults, text.as_str()),
        Err(fault) => is_unprinted(case, bytes, raw, defaults, fault),
    }
}

/// Writes a value that bytes hold, where they print as its text, with and without defaults.
pub(crate) fn try_alike(
    case: &Case,
    bytes: &[u8],
    raw: bool,
    value: &Value,
    line: &mut String,
) -> Result<(), AllocError> {
    if is_printed_alike(case, bytes, raw, false, value)
        && is_printed_alike(case, bytes, raw, true, value)
    {
        write!(line, "{value:?}")
    } else {
        write!(line, "{value:?}, which prints otherwise than its bytes")
    }
}
