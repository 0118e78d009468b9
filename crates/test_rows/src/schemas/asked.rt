//! What a schema is asked for.
use crate::faults::RowFault;
use crate::schemas::shown::write_field;
use fb_schema::{FieldInfo, Schema, TypeId};
use std::alloc::AllocError;

/// Writes a type's number.
fn write_type(found: Option<TypeId>, line: &mut String) -> Result<(), AllocError> {
    match found {
        Some(id) => write!(line, "type {}", id.0),
        None => line.push_str("none"),
    }
}

/// Writes a field.
fn write_found(found: Option<&FieldInfo>, line: &mut String) -> Result<(), AllocError> {
    match found {
        Some(field) => write_field(field, line),
        None => line.push_str("none"),
    }
}

/// Writes how many types a schema has, and its root.
fn write_size(schema: &Schema, line: &mut String) -> Result<(), AllocError> {
    let count = schema.types().len();
    let root = schema.root().0;
    write!(line, "{count} types, root {root}")
}

/// Writes what a schema answers of one of its types, `none` where it has nothing of the kind.
fn write_of_type(
    schema: &Schema,
    word: &str,
    owner: TypeId,
    sought: &str,
    line: &mut String,
) -> Result<(), RowFault> {
    match word {
        "field_of" => Ok(write_found(schema.field_by_name(owner, sought), line)?),
        "member_of" => match sought.parse() {
            Ok(code) => Ok(write_type(schema.member_by_code(owner, code), line)?),
            Err(_) => Err(RowFault::Invalid("ask")),
        },
        "value_of" => match sought.parse() {
            Ok(number) => Ok(line.push_str(
                schema.name_of_number(owner, number).unwrap_or("none"),
            )?),
            Err(_) => Err(RowFault::Invalid("ask")),
        },
        _ => Err(RowFault::Invalid("ask")),
    }
}

/// Writes what a schema answers where it is asked for its `size`, to `find` a type, or for a field, a member or a value
/// of the type with a number: a word, and after blanks what is sought.
pub(crate) fn write_asked(schema: &Schema, ask: &str, line: &mut String) -> Result<(), RowFault> {
    let (word, sought) = ask.split_once(' ').unwrap_or((ask, ""));
    match word {
        "size" => Ok(write_size(schema, line)?),
        "find" => Ok(write_type(schema.find(sought), line)?),
        _ => {
            let (owner, sought) = sought.split_once(' ').unwrap_or((sought, ""));
            match owner.parse() {
                Ok(owner) => write_of_type(schema, word, TypeId(owner), sought, line),
                Err(_) => Err(RowFault::Invalid("ask")),
            }
        }
    }
}
