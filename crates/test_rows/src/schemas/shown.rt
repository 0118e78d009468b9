//! A schema in one line.
use fb_schema::{Base, Body, FieldInfo, Kind, Schema, Shape, TypeId, TypeInfo};
use std::alloc::AllocError;

/// A basic type's name, by its size.
fn base_word(base: Base) -> &'static str {
    match base {
        Base::Bool => "bool",
        Base::I8 => "i8",
        Base::U8 => "u8",
        Base::I16 => "i16",
        Base::U16 => "u16",
        Base::I32 => "i32",
        Base::U32 => "u32",
        Base::I64 => "i64",
        Base::U64 => "u64",
    }
}

/// Writes a kind, with the number of its type.
fn write_kind(kind: Kind, line: &mut String) -> Result<(), AllocError> {
    match kind {
        Kind::Scalar(base) => line.push_str(base_word(base)),
        Kind::Enum(id) => write!(line, "enum {}", id.0),
        Kind::Struct(id) => write!(line, "struct {}", id.0),
        Kind::Table(id) => write!(line, "table {}", id.0),
        Kind::Union(id) => write!(line, "union {}", id.0),
        Kind::Code(id) => write!(line, "code {}", id.0),
        Kind::Text => line.push_str("text"),
    }
}

/// Writes a kind, in brackets where it is that of a vector.
fn write_shape(shape: Shape, line: &mut String) -> Result<(), AllocError> {
    match shape {
        Shape::One(kind) => write_kind(kind, line),
        Shape::Many(kind) => {
            line.push_str("[")?;
            write_kind(kind, line)?;
            line.push_str("]")
        }
    }
}

/// Writes a field's default where that is not 0, and its marks.
fn write_rules(field: &FieldInfo, line: &mut String) -> Result<(), AllocError> {
    if field.default != 0 {
        write!(line, " = {}", field.default)?;
    }
    line.push_str(if field.optional { " = null" } else { "" })?;
    line.push_str(if field.required { " required" } else { "" })?;
    line.push_str(if field.deprecated { " deprecated" } else { "" })
}

/// Writes a field's name, slot and shape, and its rules.
pub(crate) fn write_field(field: &FieldInfo, line: &mut String) -> Result<(), AllocError> {
    write!(line, "{}@{}: ", field.name, field.slot)?;
    write_shape(field.shape, line)?;
    write_rules(field, line)
}

/// Writes all fields of a table or struct.
fn write_fields(fields: &[FieldInfo], line: &mut String) -> Result<(), AllocError> {
    for field in fields {
        line.push_str("; ")?;
        write_field(field, line)?;
    }
    Ok(())
}

fn write_struct(
    name: &str,
    fields: &[FieldInfo],
    align: Option<u16>,
    line: &mut String,
) -> Result<(), AllocError> {
    write!(line, "struct {name}")?;
    if let Some(align) = align {
        write!(line, " align {align}")?;
    }
    write_fields(fields, line)
}

/// Writes all values of an enum.
fn write_values(values: &[(String, i128)], line: &mut String) -> Result<(), AllocError> {
    for (name, number) in values {
        write!(line, "; {name} = {number}")?;
    }
    Ok(())
}

/// Writes all members of a union.
fn write_members(members: &[(String, TypeId)], line: &mut String) -> Result<(), AllocError> {
    for (name, table) in members {
        write!(line, "; {name}: {}", table.0)?;
    }
    Ok(())
}

/// Writes a type, with all that it has.
fn write_type(info: &TypeInfo, line: &mut String) -> Result<(), AllocError> {
    let name = info.name.as_str();
    match &info.body {
        Body::Table(fields) => {
            write!(line, "table {name}")?;
            write_fields(fields.as_slice(), line)
        }
        Body::Struct(fields, align) => write_struct(name, fields.as_slice(), *align, line),
        Body::Enum(underlying, flags, values) => {
            let base = base_word(*underlying);
            let mark = if *flags { " flags" } else { "" };
            write!(line, "enum {name}: {base}{mark}")?;
            write_values(values.as_slice(), line)
        }
        Body::Union(members) => {
            write!(line, "union {name}")?;
            write_members(members.as_slice(), line)
        }
    }
}

/// Writes the root, and the identifier where there is one.
fn write_root(schema: &Schema, line: &mut String) -> Result<(), AllocError> {
    write!(line, "root {}", schema.root().0)?;
    if let Some(identifier) = schema.identifier() {
        line.push_str(" | identifier ")?;
        for byte in identifier {
            line.push(byte as char)?;
        }
    }
    Ok(())
}

/// Writes the types, with a bar after each, the root, and the identifier where there is one.
pub(crate) fn write_schema(schema: &Schema, line: &mut String) -> Result<(), AllocError> {
    for info in schema.types() {
        write_type(info, line)?;
        line.push_str(" | ")?;
    }
    write_root(schema, line)
}
