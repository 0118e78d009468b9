//! One schema, many messages: the first line of the input is a schema text, the second its next
//! version, and each line after them a JSON text, which becomes a buffer, is verified, read in place,
//! and printed as JSON again. Then it is read as a value, which is laid again, and carried to the next
//! version.
#![tactic(auto)]

use fb_owned::{build, carry, read, whole};
use flatc_tool::{
    DecodeOptions, EncodeOptions, Entries, Layout, SchemaTextFault, ToolFault, Value, View,
    conform, decode, encode, schema_of, verify,
};
use std::alloc::Global;
use std::io::{self, Write};
use std::process::ExitCode;

/// The slot of the root table's field with this name.
fn slot_of(layout: &Layout, name: &str) -> Option<u16> {
    let schema = layout.schema();
    let field = schema.field_by_name(schema.root(), name)?;
    u16::try_from(field.slot).ok()
}

/// Writes what a buffer's root has in two fields, read in place.
fn greet<W: Write>(layout: &Layout, view: View<'_>, out: &mut W) -> io::Result<()> {
    if let (Some(name), Some(hp)) = (slot_of(layout, "name"), slot_of(layout, "hp")) {
        let name = view.text(name).unwrap_or("nobody");
        let hp = view.number(hp).unwrap_or(0);
        writeln!(out, "{name} has {hp} points")?;
    }
    Ok(())
}

/// Encodes a JSON text, and returns the buffer and the JSON text that it prints as.
fn there_and_back(
    alloc: Global,
    layout: &Layout,
    json: &str,
) -> Result<(Vec<u8>, String), ToolFault> {
    let bytes = encode(alloc, layout, json.as_bytes(), &EncodeOptions::new())?;
    let text = decode(alloc, layout, bytes.as_slice(), &DecodeOptions::new())?;
    Ok((bytes, text))
}

/// Reads a buffer as a value, and lays that value again. Whether that gives the same bytes; not where it has a union
/// member that the schema doesn't know.
fn is_laid_alike(alloc: Global, layout: &Layout, bytes: &[u8]) -> Result<bool, ToolFault> {
    let limits = DecodeOptions::new().limits;
    let value = match read(alloc, layout, bytes, limits, false, &mut Entries::new()) {
        Ok(value) => value,
        Err(fault) => return Err(ToolFault::Read(fault)),
    };
    if !whole(&value) {
        return Ok(false);
    }
    match build(alloc, layout, &value) {
        Ok(again) => Ok(again.as_slice() == bytes),
        Err(fault) => Err(ToolFault::Build(fault)),
    }
}

/// The value that a buffer holds, under the next version of its schema.
fn carry_to(
    alloc: Global,
    layout: &Layout,
    next: &Layout,
    bytes: &[u8],
) -> Result<Value, ToolFault> {
    if let Err(breach) = conform(layout, next) {
        return Err(ToolFault::Breach(breach));
    }
    let limits = DecodeOptions::new().limits;
    let value = match read(alloc, layout, bytes, limits, false, &mut Entries::new()) {
        Ok(value) => value,
        Err(fault) => return Err(ToolFault::Read(fault)),
    };
    match carry(alloc, layout, next, &value) {
        Ok(carried) => Ok(carried),
        Err(_) => Err(ToolFault::Memory),
    }
}

/// How many slots a table has.
fn slot_count(value: &Value) -> usize {
    match value {
        Value::Fields(_, entries) => entries.len(),
        _ => 0,
    }
}

/// Writes what comes of a buffer that is read as a value.
fn compare<W: Write>(
    alloc: Global,
    layout: &Layout,
    next: &Layout,
    bytes: &[u8],
    out: &mut W,
) -> io::Result<()> {
    match is_laid_alike(alloc, layout, bytes) {
        Ok(true) => writeln!(out, "laid again: the same bytes")?,
        Ok(false) => writeln!(out, "laid again: other bytes")?,
        Err(fault) => writeln!(out, "laid again: {fault}")?,
    }
    match carry_to(alloc, layout, next, bytes) {
        Ok(value) => writeln!(out, "carried: {} slots", slot_count(&value)),
        Err(fault) => writeln!(out, "carried: {fault}"),
    }
}

/// Writes what a buffer holds, and the JSON text that it prints as.
fn show<W: Write>(layout: &Layout, bytes: &[u8], text: &str, out: &mut W) -> io::Result<()> {
    let limits = DecodeOptions::new().limits;
    match verify(layout, bytes, limits, false, &mut Entries::new()) {
        Ok(view) => greet(layout, view, out)?,
        Err(fault) => return writeln!(out, "refused: {fault}"),
    }
    write!(out, "{text}")
}

/// Writes what comes of a message, or why it is refused.
fn take_message<W: Write>(
    alloc: Global,
    layout: &Layout,
    next: &Layout,
    json: &str,
    out: &mut W,
) -> io::Result<()> {
    match there_and_back(alloc, layout, json) {
        Ok((bytes, text)) => {
            show(layout, bytes.as_slice(), text.as_str(), out)?;
            compare(alloc, layout, next, bytes.as_slice(), out)
        }
        Err(fault) => writeln!(out, "refused: {} {}", fault.number(), fault.name()),
    }
}

/// The layouts of a schema text and of its next version.
fn layouts_of(
    alloc: Global,
    schema: &str,
    next: &str,
) -> Result<(Layout, Layout), SchemaTextFault> {
    let layout = schema_of(alloc, schema.as_bytes())?;
    let next = schema_of(alloc, next.as_bytes())?;
    Ok((layout, next))
}

/// Writes what comes of each message of a text, whose first two lines are the schemas.
fn take_text<W: Write>(alloc: Global, text: &str, out: &mut W) -> io::Result<ExitCode> {
    let (schema, rest) = text.split_once('\n').unwrap_or((text, ""));
    let (next, messages) = rest.split_once('\n').unwrap_or((rest, ""));
    match layouts_of(alloc, schema, next) {
        Ok((layout, next)) => {
            for json in messages.lines() {
                take_message(alloc, &layout, &next, json, out)?;
            }
            Ok(ExitCode::SUCCESS)
        }
        Err(fault) => {
            writeln!(out, "a schema is refused: {fault}")?;
            Ok(ExitCode::FAILURE)
        }
    }
}

fn main(rt: HostRuntime) -> io::Result<ExitCode> {
    let text = io::read_to_string(rt.alloc(), rt.reader())?;
    take_text(rt.alloc(), text.as_str(), &mut rt.stdout())
}
