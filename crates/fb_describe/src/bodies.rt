//! What a type has inside.
use crate::fields::{push_field, push_slot};
use crate::stored_types::push_extent;
use fb_explain_pages::Page;
use fb_layout::Layout;
use fb_schema::{Base, Body, FieldInfo, Kind, TypeId, TypeInfo, base_name};

/// Adds the lines of a type: what it is, and what it has inside.
pub(crate) fn push_body(page: &mut Page, layout: &Layout, number: TypeId, info: &TypeInfo) {
    page.line.push_str("type ");
    page.line.push_number(number.0);
    page.line.push_str(": ");
    page.line.push_str(word_of(&info.body));
    page.line.push_str(info.name.as_str());
    match &info.body {
        Body::Table(slots) => push_slots(page, layout, slots.as_slice()),
        Body::Struct(_, _) => push_fields(page, layout, number),
        Body::Enum(base, _, values) => {
            push_base(page, *base);
            push_extent(page, layout, Kind::Enum(number));
            push_values(page, values.as_slice());
        }
        Body::Union(members) => push_members(page, members.as_slice()),
    }
}

/// The word before a type's name, and a space.
fn word_of(body: &Body) -> &'static str {
    match body {
        Body::Table(_) => "table ",
        Body::Struct(_, _) => "struct ",
        Body::Enum(_, true, _) => "bit flags ",
        Body::Enum(_, false, _) => "enum ",
        Body::Union(_) => "union ",
    }
}

/// Adds the underlying type of an enum.
fn push_base(page: &mut Page, base: Base) {
    page.line.push_str(", of ");
    page.line.push_str(base_name(base));
}

/// Ends the line of a table, and adds those of its slots.
fn push_slots(page: &mut Page, layout: &Layout, slots: &[FieldInfo]) {
    page.end_line();
    for slot in slots {
        push_slot(page, layout, slot);
    }
}

/// Ends the line of a struct, and adds those of its fields.
fn push_fields(page: &mut Page, layout: &Layout, structure: TypeId) {
    push_extent(page, layout, Kind::Struct(structure));
    page.end_line();
    for (index, field) in layout.parts_of(structure).iter().enumerate() {
        push_field(
            page,
            layout.schema(),
            field,
            layout.offset_of(structure, index as u16),
        );
    }
}

/// Ends the line of an enum, and adds those of its values.
fn push_values(page: &mut Page, values: &[(String, i128)]) {
    page.end_line();
    for (name, number) in values {
        page.line.push_str("  ");
        page.line.push_str(name.as_str());
        page.line.push_str(" = ");
        page.line.push_integer(*number);
        page.end_line();
    }
}

/// Ends the line of a union, and adds those of its codes.
fn push_members(page: &mut Page, members: &[(String, TypeId)]) {
    page.end_line();
    page.push_line("  code 0: NONE");
    for (index, (name, table)) in members.iter().enumerate() {
        page.line.push_str("  code ");
        page.line.push_number(index as u64 + 1);
        page.line.push_str(": ");
        page.line.push_str(name.as_str());
        page.line.push_str(", table of type ");
        page.line.push_number(table.0);
        page.end_line();
    }
}
