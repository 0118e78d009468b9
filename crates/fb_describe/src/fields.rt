//! The slots of tables and the fields of structs.
use crate::stored_types::{push_extent, push_reference, push_shape};
use fb_explain_pages::Page;
use fb_layout::Layout;
use fb_schema::{Base, FieldInfo, Kind, Schema, Shape};

/// Begins the line of a field: its number, its name and its type.
fn begin_field(page: &mut Page, schema: &Schema, word: &str, field: &FieldInfo) {
    page.line.push_str(word);
    page.line.push_number(field.slot);
    page.line.push_str(": ");
    page.line.push_str(field.name.as_str());
    page.line.push_str(", ");
    if field.optional {
        page.line.push_str("optional ");
    }
    push_shape(page, schema, field.shape);
}

/// Adds the number that a field has where none is stored.
fn push_default(page: &mut Page, schema: &Schema, kind: Kind, number: i128) {
    page.line.push_str(" = ");
    let name = match kind {
        Kind::Scalar(Base::Bool) => Some(if number == 0 { "false" } else { "true" }),
        Kind::Enum(enumeration) => schema.name_of_number(enumeration, number),
        _ => None,
    };
    match name {
        Some(name) => push_reference(page, name),
        None => page.line.push_integer(number),
    }
}

/// Adds the line of a table's slot.
pub(crate) fn push_slot(page: &mut Page, layout: &Layout, field: &FieldInfo) {
    let schema = layout.schema();
    begin_field(page, schema, "  slot ", field);
    if let Shape::One(kind @ (Kind::Scalar(_) | Kind::Enum(_))) = field.shape
        && !field.optional
    {
        push_default(page, schema, kind, field.default);
    }
    if field.required {
        page.line.push_str(", required");
    }
    if field.deprecated {
        page.line.push_str(", deprecated");
    }
    if let Shape::One(kind) = field.shape
        && is_inline(kind)
    {
        push_extent(page, layout, kind);
    }
    page.end_line();
}

/// Whether a value of a kind is stored in its table; of the others a reference is.
fn is_inline(kind: Kind) -> bool {
    matches!(
        kind,
        Kind::Scalar(_) | Kind::Enum(_) | Kind::Struct(_) | Kind::Code(_)
    )
}

/// Adds the line of a struct's field, with its offset in the struct.
pub(crate) fn push_field(page: &mut Page, schema: &Schema, field: &FieldInfo, offset: u32) {
    begin_field(page, schema, "  field ", field);
    page.line.push_str(", at byte ");
    page.line.push_number(u64::from(offset));
    page.end_line();
}
