//! Rows with values.
mod agree;
mod buffers;
mod damage;
mod meanings;
mod readings;
mod texts;
mod versions;

use crate::cuts::are_cuts_settled;
use crate::faults::RowFault;
use crate::fields::Fields;
use crate::hex::bytes_of;
use crate::values::buffers::{try_both, try_printed};
use crate::values::damage::try_damaged;
use crate::values::meanings::try_meaning;
use crate::values::readings::try_bytes;
use crate::values::versions::{try_later, write_moved_names};
use fb_layout::Layout;
use fb_value::Limits;
use flatc_tool::schema_of;
use std::alloc::Global;

/// What a row is tried under: the layout of its schema text, limits, whether its buffers have a size prefix, and
/// whether texts are printed without blanks and line feeds.
#[derive(Clone, Copy)]
pub(crate) struct Case<'l> {
    pub(crate) alloc: Global,
    pub(crate) layout: &'l Layout,
    pub(crate) limits: Limits,
    pub(crate) prefixed: bool,
    pub(crate) compact: bool,
}

/// A row of values: a schema text, with a JSON text, with bytes in hexadecimal or with both, and what
/// has to come of them.
///
/// Of a JSON text the value that it means is wanted, of bytes the value that they hold or, where it
/// is `printed`, its text, or the fault. Where both are there, the text becomes exactly these bytes,
/// they hold the value that it means, and what is wanted is the text that they print as. Of bytes
/// that are `damaged` what comes of each damage is counted. Of a JSON text beside a `later` schema
/// the value that it means is wanted as it is under that schema, or the breach; of a `later` schema alone
/// the names that stand for something else in it, or the breach. Wherever bytes hold
/// a value they print as that value's text, `compact` or not, or both name the same union without a name; and each cut
/// of a schema text gives a schema or a fault.
pub(crate) fn try_value_row(
    alloc: Global,
    row: &mut Fields<'_>,
    line: &mut String,
) -> Result<&'static str, RowFault> {
    let depth = row.number("depth")?;
    let cells = row.number("cells")?;
    let prefixed = row.flag("prefixed")?;
    let compact = row.flag("compact")?;
    let text = row.text("schema")?;
    if !are_cuts_settled(alloc, text.as_str()) {
        line.push_str("a cut of the schema runs out of memory; ")?;
    }
    let Some(limits) = limits_of(depth, cells) else {
        return Err(RowFault::Invalid("depth"));
    };
    let Ok(layout) = schema_of(alloc, text.as_bytes()) else {
        return Err(RowFault::Invalid("schema"));
    };
    let case = Case {
        alloc,
        layout: &layout,
        limits,
        prefixed,
        compact,
    };
    try_case(&case, row, line)
}

/// Limits of these levels and cells, or the usual ones.
fn limits_of(depth: Option<u64>, cells: Option<u64>) -> Option<Limits> {
    let depth = u8::try_from(depth.unwrap_or(64)).ok()?;
    let cells = u32::try_from(cells.unwrap_or(100_000_000)).ok()?;
    Limits::new(depth, cells)
}

fn try_case(
    case: &Case,
    row: &mut Fields<'_>,
    line: &mut String,
) -> Result<&'static str, RowFault> {
    let json = row.optional_text("json")?;
    match row.optional_text("bytes")? {
        Some(hex) => match json {
            Some(json) => try_built(case, row, json.as_str(), hex.as_str(), line),
            None => try_hex(case, row, hex.as_str(), line),
        },
        None => match json {
            Some(json) => try_json(case, row, json.as_str(), line),
            None => try_names(case, row, line),
        },
    }
}

/// A row with a JSON text and bytes.
fn try_built(
    case: &Case,
    row: &mut Fields<'_>,
    json: &str,
    hex: &str,
    line: &mut String,
) -> Result<&'static str, RowFault> {
    let defaults = row.flag("defaults")?;
    let bytes = bytes_of(case.alloc, hex)?;
    try_both(case, json, bytes.as_slice(), defaults, line)?;
    Ok("built")
}

/// A row with a JSON text.
fn try_json(
    case: &Case,
    row: &mut Fields<'_>,
    json: &str,
    line: &mut String,
) -> Result<&'static str, RowFault> {
    if let Some(later) = row.optional_text("later")? {
        return try_versions(case, later.as_bytes(), json, line);
    }
    let unknown = row.flag("unknown")?;
    try_meaning(case, json, unknown, line)?;
    Ok("meant")
}

/// A row with a JSON text and a later schema.
fn try_versions(
    case: &Case,
    schema: &[u8],
    json: &str,
    line: &mut String,
) -> Result<&'static str, RowFault> {
    let Ok(layout) = schema_of(case.alloc, schema) else {
        return Err(RowFault::Invalid("later"));
    };
    let later = Case {
        layout: &layout,
        ..*case
    };
    try_later(case, &later, json, line)?;
    Ok("carried")
}

/// A row with a later schema alone.
fn try_names(
    case: &Case,
    row: &mut Fields<'_>,
    line: &mut String,
) -> Result<&'static str, RowFault> {
    let Some(later) = row.optional_text("later")? else {
        return Err(RowFault::Missing("json"));
    };
    let Ok(layout) = schema_of(case.alloc, later.as_bytes()) else {
        return Err(RowFault::Invalid("later"));
    };
    write_moved_names(case, &layout, line)?;
    Ok("named")
}

/// A row with bytes.
fn try_hex(
    case: &Case,
    row: &mut Fields<'_>,
    hex: &str,
    line: &mut String,
) -> Result<&'static str, RowFault> {
    let raw = row.flag("raw")?;
    if row.flag("printed")? {
        let defaults = row.flag("defaults")?;
        let bytes = bytes_of(case.alloc, hex)?;
        try_printed(case, bytes.as_slice(), raw, defaults, line)?;
        return Ok("read");
    }
    let is_damaged = row.flag("damaged")?;
    let mut bytes = bytes_of(case.alloc, hex)?;
    if is_damaged {
        try_damaged(case, bytes.as_mut_slice(), raw, line)?;
        return Ok("damaged");
    }
    try_bytes(case, bytes.as_slice(), raw, line)?;
    Ok("read")
}
