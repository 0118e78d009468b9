//! Rows with schema texts.
mod asked;
mod laid;
mod shown;

use crate::cuts::are_cuts_settled;
use crate::faults::RowFault;
use crate::fields::Fields;
use crate::schemas::asked::write_asked;
use crate::schemas::laid::write_laid;
use crate::schemas::shown::write_schema;
use flatc_tool::{Layout, SchemaTextFault, schema_of};
use std::alloc::{AllocError, Global};

/// A row of a schema text, and what it has to give.
///
/// Where `ask` is there the schema is asked for it, where `laid` is its layout, and else the whole schema is shown.
/// A text that is refused gives its fault. Each cut of a text that is written out gives a schema or a fault too.
pub(crate) fn try_schema_row(
    alloc: Global,
    text: &str,
    row: &mut Fields<'_>,
    line: &mut String,
) -> Result<&'static str, RowFault> {
    if row.is_written_out() && !are_cuts_settled(alloc, text) {
        line.push_str("a cut of the text runs out of memory; ")?;
    }
    try_text(alloc, text, row, line)
}

fn try_text(
    alloc: Global,
    text: &str,
    row: &mut Fields<'_>,
    line: &mut String,
) -> Result<&'static str, RowFault> {
    match schema_of(alloc, text.as_bytes()) {
        Ok(layout) => try_layout(&layout, row, line),
        Err(fault) => try_fault(fault, row, line),
    }
}

/// What a layout is asked for, or the whole schema.
fn try_layout(
    layout: &Layout,
    row: &mut Fields<'_>,
    line: &mut String,
) -> Result<&'static str, RowFault> {
    if let Some(ask) = row.optional_text("ask")? {
        write_asked(layout.schema(), ask.as_str(), line)?;
        return Ok("asked");
    }
    if let Some(ask) = row.optional_text("laid")? {
        write_laid(layout, ask.as_str(), line)?;
        return Ok("asked");
    }
    write_schema(layout.schema(), line)?;
    Ok("declared")
}

/// The fault of a text, whatever it is asked for.
fn try_fault(
    fault: SchemaTextFault,
    row: &mut Fields<'_>,
    line: &mut String,
) -> Result<&'static str, RowFault> {
    let _ask = row.optional_text("ask")?;
    let _laid = row.optional_text("laid")?;
    write_fault(fault, line)?;
    Ok("refused")
}

/// Writes the fault of the layer that refuses.
fn write_fault(fault: SchemaTextFault, line: &mut String) -> Result<(), AllocError> {
    match fault {
        SchemaTextFault::Syntax(fault) => write!(line, "{fault:?}"),
        SchemaTextFault::Schema(fault) => write!(line, "{fault:?}"),
        SchemaTextFault::Layout(fault) => write!(line, "{fault:?}"),
    }
}
