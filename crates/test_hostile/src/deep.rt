//! Calls on what is nested deep, for the stack that they take.
use fb_owned::{copy_part, read};
use fb_read::Entries;
use fb_value::Limits;
use flatc_tool::{ToolFault, schema_of, to_binary, to_json};
use std::alloc::{AllocError, Global};
use std::io;

/// A table with a struct of one byte in its only slot, whatever structs it is inside.
const BYTES: &[u8] = b"\x0c\x00\x00\x00\x06\x00\x05\x00\x04\x00\x00\x00\x08\x00\x00\x00\x07";

const TABLES: &[u8] = b"table N { n:N; } root_type N;";

/// The deepest limits.
fn limits() -> Limits {
    let Some(limits) = Limits::new(127, 100_000_000) else {
        unreachable!()
    };
    limits
}

/// A schema text with so many structs and one more, each in the next.
fn chain(alloc: Global, levels: u64) -> Result<String, AllocError> {
    let mut text = String::from_str(alloc, "struct S0 { a:ubyte; } ")?;
    for k in 0..levels {
        let next = k.saturating_add(1);
        write!(text, "struct S{next} {{ a:S{k}; }} ")?;
    }
    write!(text, "table T {{ s:S{levels}; }} root_type T;")?;
    Ok(text)
}

/// JSON with so many objects in one another.
fn objects(alloc: Global, levels: u64) -> Result<String, AllocError> {
    let mut text = String::new(alloc);
    for _ in 1..levels {
        text.push_str("{\"n\":")?;
    }
    text.push_str("{}")?;
    for _ in 1..levels {
        text.push_str("}")?;
    }
    Ok(text)
}

/// Reads a struct that is nested deep, copies it if it should, and drops it.
fn is_struct_read(alloc: Global, levels: u64, copies: bool) -> Result<bool, AllocError> {
    let text = chain(alloc, levels)?;
    let Ok(layout) = schema_of(alloc, text.as_bytes()) else {
        return Ok(false);
    };
    let mut entries = Entries::new();
    let Ok(value) = read(alloc, &layout, BYTES, limits(), false, &mut entries) else {
        return Ok(false);
    };
    if copies {
        let _copied = copy_part(alloc, &value)?;
    }
    Ok(true)
}

fn binary(alloc: Global, levels: u64) -> Result<Vec<u8>, ToolFault> {
    match objects(alloc, levels) {
        Ok(json) => to_binary(alloc, TABLES, json.as_bytes(), limits(), false),
        Err(_) => Err(ToolFault::Memory),
    }
}

/// Whether tables nested deep, made of JSON, print as a text of a table.
fn are_tables_printed(alloc: Global, levels: u64) -> bool {
    match binary(alloc, levels) {
        Ok(bytes) => to_json(alloc, TABLES, bytes.as_slice(), limits(), false, false).is_ok(),
        Err(_) => false,
    }
}

/// Does a call so many levels deep; whether it came to its end with what it should.
pub(crate) fn go_deep(rt: &HostRuntime, call: &str, levels: u64) -> io::Result<bool> {
    match call {
        "read" => Ok(is_struct_read(rt.alloc(), levels, false)?),
        "copy" => Ok(is_struct_read(rt.alloc(), levels, true)?),
        "tables" => Ok(are_tables_printed(rt.alloc(), levels)),
        _ => Ok(false),
    }
}
