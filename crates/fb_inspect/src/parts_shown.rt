//! The first line of each piece.
use crate::nodes::{Lead, Node};
use crate::notes::{u16_within, u32_within};
use crate::page_lines::begin_piece;
use crate::paths::{Scene, push_path};
use crate::pieces::{BufferPiece, What};
use crate::values_shown::{push_code, push_number_at, push_numbers, push_text};
use fb_explain_pages::Page;
use fb_findings::push_shape;
use fb_layout::kind_in;
use fb_read::Step;
use fb_schema::{Kind, Shape, TypeId, field_at, kind_name, type_name};

/// Adds that several references lead to a part.
fn push_shared(page: &mut Page, node: &Node, what: &str) {
    if node.references > 1 {
        page.line.push_str(", shared by ");
        page.line.push_number(u64::from(node.references));
        page.line.push_str(what);
    }
}

/// Adds where the reference at a position leads.
pub(crate) fn push_target(page: &mut Page, bytes: &[u8], at: usize) {
    page.line.push_str(" at ");
    page.line.push_number((at as u64).saturating_add(u64::from(u32_within(bytes, at))));
}

/// Adds what a table has in a slot.
fn push_field(page: &mut Page, scene: Scene<'_>, table: TypeId, slot: u16, at: usize) {
    let schema = scene.layout.schema();
    let Some(field) = field_at(schema, table, slot) else {
        return;
    };
    if let Shape::One(Kind::Code(union)) = field.shape {
        page.line.push_str("type of union ");
        page.line.push_str(type_name(schema, union));
        push_code(
            page,
            schema,
            union,
            scene.bytes.get(at).copied().unwrap_or(0),
        );
        return;
    }
    push_shape(
        &mut page.line,
        field.shape,
        kind_name(schema, kind_in(field.shape)),
    );
    match field.shape {
        Shape::One(Kind::Scalar(_) | Kind::Enum(_)) => {
            if let Shape::One(kind) = field.shape {
                push_number_at(page, scene.layout, scene.bytes, kind, at);
            }
        }
        Shape::One(Kind::Text | Kind::Table(_)) | Shape::Many(_) => {
            push_target(page, scene.bytes, at)
        }
        Shape::One(Kind::Struct(_) | Kind::Union(_) | Kind::Code(_)) => {}
    }
    if field.deprecated {
        page.line.push_str(", deprecated");
    }
}

/// Adds how long a string or a vector is.
fn push_length(page: &mut Page, scene: Scene<'_>, node: &Node) {
    let len = u64::from(u32_within(scene.bytes, node.at as usize));
    let unit = match node.lead {
        Lead::Vector(kind) => {
            let name = kind_name(scene.layout.schema(), kind);
            push_shape(&mut page.line, Shape::Many(kind), name);
            if len == 1 { " element" } else { " elements" }
        }
        _ => {
            page.line.push_str("string");
            if len == 1 { " byte" } else { " bytes" }
        }
    };
    page.line.push_str(", ");
    page.line.push_number(len);
    page.line.push_str(unit);
    push_shared(page, node, " references");
}

/// Adds what a string or a vector has.
fn push_content(page: &mut Page, scene: Scene<'_>, node: &Node, piece: &BufferPiece) {
    let at = piece.start as usize;
    match node.lead {
        Lead::Vector(kind) => {
            let name = kind_name(scene.layout.schema(), kind);
            push_shape(&mut page.line, Shape::Many(kind), name);
            let count = u32_within(scene.bytes, node.at as usize) as usize;
            push_numbers(page, scene.layout, scene.bytes, kind, at, count);
        }
        _ => {
            let end = (piece.end as usize).saturating_sub(1);
            let text = scene.bytes.get(at..end).unwrap_or(&[]);
            if let Ok(text) = std::str::from_utf8(text) {
                page.line.push_str("string = ");
                push_text(page, text);
            }
        }
    }
}

/// The step to a piece from the part that it is of; none where no path is shown.
fn step_to(what: What, table: TypeId) -> Option<Step> {
    match what {
        What::Field(slot) | What::Member(slot, _) | What::UnknownMember(slot, _) => {
            Some(Step::Slot(table, slot))
        }
        What::Table | What::UnknownField(_) | What::Length | What::Content => Some(Step::Reference),
        What::Vtable | What::SizePrefix | What::Root | What::Identifier | What::Gap | What::Fault =>
            { None }
    }
}

/// Adds what a piece of a part is.
fn push_part(page: &mut Page, scene: Scene<'_>, piece: &BufferPiece, node: &Node) {
    let schema = scene.layout.schema();
    let at = piece.start as usize;
    let table = match node.lead {
        Lead::Table(table) | Lead::Vtable(table) => table,
        Lead::Text | Lead::Vector(_) => schema.root(),
    };
    if let Some(step) = step_to(piece.what, table) {
        push_path(page, scene, piece.node, step);
        page.line.push_str(": ");
    }
    match piece.what {
        What::Vtable => {
            page.line.push_str("vtable of ");
            page.line.push_str(type_name(schema, table));
            push_shared(page, node, " tables");
        }
        What::Table => {
            page.line.push_str("table ");
            page.line.push_str(type_name(schema, table));
            page.line.push_str(", vtable at ");
            let back = i64::from(u32_within(scene.bytes, at).cast_signed());
            page.line
                .push_integer(i128::from(piece.start) - i128::from(back));
            push_shared(page, node, " references");
        }
        What::Field(slot) => push_field(page, scene, table, slot, at),
        What::Member(slot, code) => {
            push_member(page, scene, table, slot, code);
            push_target(page, scene.bytes, at);
        }
        What::UnknownMember(_, code) => {
            page.line.push_str("value of a union under code ");
            page.line.push_number(u64::from(code));
            page.line.push_str(", which no member has");
        }
        What::UnknownField(slot) => {
            page.line.push_str("field in slot ");
            page.line.push_number(u64::from(slot));
            page.line.push_str(", not in the schema");
        }
        What::Length => push_length(page, scene, node),
        What::Content => push_content(page, scene, node, piece),
        What::SizePrefix | What::Root | What::Identifier | What::Gap | What::Fault => {}
    }
}

/// Adds a union's member.
fn push_member(page: &mut Page, scene: Scene<'_>, table: TypeId, slot: u16, code: u8) {
    let schema = scene.layout.schema();
    if let Some(field) = field_at(schema, table, slot)
        && let Shape::One(Kind::Union(union)) = field.shape
        && let Some(member) = schema.member_by_code(union, code)
    {
        page.line.push_str(type_name(schema, member));
        page.line.push_str(" of union ");
        page.line.push_str(type_name(schema, union));
    }
}

/// Adds what the header of a buffer has.
fn push_front(page: &mut Page, scene: Scene<'_>, piece: &BufferPiece) {
    let at = piece.start as usize;
    match piece.what {
        What::SizePrefix => {
            page.line.push_str("count of the bytes after it: ");
            page.line
                .push_number(u64::from(u32_within(scene.bytes, at)));
        }
        What::Root if piece.end < piece.start.saturating_add(4) => {
            page.line.push_str("the bytes end inside the root's offset")
        }
        What::Root => {
            page.line.push_str("root: ");
            let schema = scene.layout.schema();
            page.line.push_str(type_name(schema, schema.root()));
            push_target(page, scene.bytes, at);
        }
        _ => {
            page.line.push_str("file identifier ");
            page.line
                .push_name(scene.bytes.get(at..piece.end as usize).unwrap_or(&[]));
        }
    }
}

/// What is said of bytes that nothing refers to.
fn gap_words(scene: Scene<'_>, piece: &BufferPiece, is_whole: bool) -> &'static str {
    let bytes = scene
        .bytes
        .get(piece.start as usize..piece.end as usize)
        .unwrap_or(&[]);
    let are_zeros = bytes.iter().all(|byte| *byte == 0);
    let is_short = bytes.len() < scene.layout.greatest() as usize;
    match (are_zeros && is_short, is_whole) {
        (true, _) => "padding",
        (false, true) => "nothing refers to these bytes",
        (false, false) => "not reached before the fault",
    }
}

/// Adds the first line of a piece. `is_whole` is whether there is no fault.
pub(crate) fn push_head(
    page: &mut Page,
    scene: Scene<'_>,
    piece: &BufferPiece,
    is_whole: bool,
    overlaps: bool,
) {
    begin_piece(page, scene.bytes, piece);
    match piece.what {
        What::Gap => page.line.push_str(gap_words(scene, piece, is_whole)),
        What::SizePrefix | What::Root | What::Identifier => push_front(page, scene, piece),
        _ => {
            if let Some(node) = scene.nodes.get(piece.node) {
                push_part(page, scene, piece, &node);
            }
        }
    }
    if overlaps {
        page.line.push_str(" (overlaps what is above)");
    }
    page.end_line();
}

/// How many slots a vtable has numbers for.
pub(crate) fn slots_held(bytes: &[u8], at: usize) -> u32 {
    u32::from(u16_within(bytes, at).saturating_sub(4) / 2)
}
