//! What a layout is asked for.
use crate::faults::RowFault;
use fb_layout::Layout;
use fb_schema::{Kind, TypeId};
use std::alloc::AllocError;

/// Writes where a struct's fields begin.
fn write_offsets(layout: &Layout, id: TypeId, line: &mut String) -> Result<(), AllocError> {
    for field in 0..layout.parts_of(id).len() {
        let offset = layout.offset_of(id, field as u16);
        write!(line, " {offset}")?;
    }
    Ok(())
}

/// Writes a struct's size, its alignment and where its fields begin.
fn write_struct(layout: &Layout, id: TypeId, line: &mut String) -> Result<(), AllocError> {
    let size = layout.size_of(Kind::Struct(id));
    let align = layout.align_of(Kind::Struct(id));
    write!(line, "size {size}, align {align}, fields at")?;
    write_offsets(layout, id, line)
}

/// Writes a table's width and its alignment.
fn write_table(layout: &Layout, id: TypeId, line: &mut String) -> Result<(), AllocError> {
    let widest = layout.widest(id);
    let align = layout.table_align(id);
    write!(line, "widest {widest}, align {align}")
}

/// Writes what a layout answers where it is asked for the `greatest` alignment, or for the struct or table with a
/// number.
pub(crate) fn write_laid(layout: &Layout, ask: &str, line: &mut String) -> Result<(), RowFault> {
    if ask == "greatest" {
        return Ok(write!(line, "greatest {}", layout.greatest())?);
    }
    let (word, number) = ask.split_once(' ').unwrap_or((ask, ""));
    match (word, number.parse()) {
        ("struct", Ok(number)) => Ok(write_struct(layout, TypeId(number), line)?),
        ("table", Ok(number)) => Ok(write_table(layout, TypeId(number), line)?),
        _ => Err(RowFault::Invalid("laid")),
    }
}
