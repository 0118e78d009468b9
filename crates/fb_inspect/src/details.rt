//! The further lines of a piece: a vtable's slots, a struct's fields, a vector's elements.
use crate::nodes::Lead;
use crate::notes::{u16_within, u32_within};
use crate::page_lines::begin_line;
use crate::parts_shown::{push_target, slots_held};
use crate::paths::{Scene, path_of, push_cut_path};
use crate::pieces::{BufferPiece, What};
use crate::values_shown::push_number_at;
use fb_explain_pages::Page;
use fb_layout::kind_in;
use fb_read::Step;
use fb_schema::{FieldInfo, Kind, Shape, TypeId, field_at, kind_name};
use std::alloc::AllocError;

/// How many details a piece has.
pub(crate) fn details_of(scene: Scene<'_>, piece: &BufferPiece) -> u32 {
    let Some(node) = scene.nodes.get(piece.node) else {
        return 0;
    };
    match (piece.what, node.lead) {
        (What::Vtable, _) => slots_held(scene.bytes, piece.start as usize).saturating_add(2),
        (What::Field(slot), Lead::Table(table)) => match struct_in(scene, table, slot) {
            Some(_) => 1,
            None => 0,
        },
        (What::Content, Lead::Vector(Kind::Struct(_) | Kind::Table(_) | Kind::Text)) => {
            u32_within(scene.bytes, node.at as usize)
        }
        _ => 0,
    }
}

/// The struct that a slot has.
fn struct_in(scene: Scene<'_>, table: TypeId, slot: u16) -> Option<TypeId> {
    match field_at(scene.layout.schema(), table, slot) {
        Some(
            FieldInfo {
                shape: Shape::One(Kind::Struct(structure)),
                ..
            },
        ) => Some(*structure),
        _ => None,
    }
}

/// Begins the line of a detail.
fn begin_detail(page: &mut Page, scene: Scene<'_>, start: usize, len: usize) {
    begin_line(page, scene.bytes, start, start.saturating_add(len));
    page.line.push_str("  ");
}

/// Adds the line of a number of a vtable: its size, the table's, or a slot's.
fn push_vtable_number(
    page: &mut Page,
    scene: Scene<'_>,
    piece: &BufferPiece,
    table: TypeId,
    i: u32,
) {
    let at = (piece.start as usize).saturating_add((i as usize).saturating_mul(2));
    let number = u64::from(u16_within(scene.bytes, at));
    begin_detail(page, scene, at, 2);
    match i.checked_sub(2) {
        None => {
            page.line.push_str(if i == 0 {
                "size of the vtable: "
            } else {
                "size of the table: "
            });
            page.line.push_number(number);
        }
        Some(slot) => push_slot(page, scene, table, slot, number),
    }
    page.end_line();
}

/// Adds where a slot's field is.
fn push_slot(page: &mut Page, scene: Scene<'_>, table: TypeId, slot: u32, number: u64) {
    page.line.push_str("slot ");
    page.line.push_number(u64::from(slot));
    page.line.push_str(", ");
    match u16::try_from(slot) {
        Ok(slot) => match field_at(scene.layout.schema(), table, slot) {
            Some(field) => page.line.push_cut(field.name.as_bytes()),
            None => page.line.push_str("not in the schema"),
        },
        Err(_) => {}
    }
    if number == 0 {
        page.line.push_str(": absent");
    } else {
        page.line.push_str(": at ");
        page.line.push_number(number);
    }
}

/// A struct whose fields are being shown.
#[derive(Clone, Copy, Drop)]
struct OpenStruct {
    structure: TypeId,
    at: usize,
    next: u16,
    /// How long the path to the struct is.
    path: usize,
}

/// Leaves a struct open, whose next field is shown.
fn leave_open(page: &mut Page, open: &mut Vec<OpenStruct>, inner: OpenStruct) {
    if open.push(inner).is_err() {
        page.line.run_out();
    }
}

/// Adds a line for each number in a struct, those of the structs in it too.
fn push_struct(page: &mut Page, scene: Scene<'_>, structure: TypeId, at: usize, path: &mut String) {
    let mut open = Vec::new(scene.alloc);
    let outer = OpenStruct {
        structure,
        at,
        next: 0,
        path: path.len(),
    };
    leave_open(page, &mut open, outer);
    for _ in 0..u64::MAX {
        let Some(inner) = open.pop() else {
            break;
        };
        push_struct_field(page, scene, inner, path, &mut open);
    }
}

/// Adds the line of a struct's next field, or opens it where it is a struct. After the last one nothing is left open.
fn push_struct_field(
    page: &mut Page,
    scene: Scene<'_>,
    inner: OpenStruct,
    path: &mut String,
    open: &mut Vec<OpenStruct>,
) {
    let Some(field) = scene
        .layout
        .parts_of(inner.structure)
        .get(usize::from(inner.next))
    else {
        return;
    };
    let offset = scene.layout.offset_of(inner.structure, inner.next) as usize;
    let at = inner.at.saturating_add(offset);
    cut(path, inner.path);
    if path.push('.').is_err() || path.push_str(field.name.as_str()).is_err() {
        page.line.run_out();
    }
    let next = inner.next.saturating_add(1);
    leave_open(page, open, OpenStruct { next, ..inner });
    match kind_in(field.shape) {
        Kind::Struct(structure) => {
            let further = OpenStruct {
                structure,
                at,
                next: 0,
                path: path.len(),
            };
            leave_open(page, open, further);
        }
        kind => push_value(page, scene, kind, at, path.as_str()),
    }
}

/// Cuts a path to a length that it had.
fn cut(path: &mut String, len: usize) {
    for _ in 0..path.len() {
        if path.len() <= len {
            return;
        }
        let _last = path.pop();
    }
}

/// Adds the line of a number in a struct, or of an element that is a reference.
fn push_value(page: &mut Page, scene: Scene<'_>, kind: Kind, at: usize, path: &str) {
    begin_detail(page, scene, at, scene.layout.size_of(kind) as usize);
    push_cut_path(page, path);
    page.line.push_str(": ");
    page.line.push_str(kind_name(scene.layout.schema(), kind));
    match kind {
        Kind::Text | Kind::Table(_) => push_target(page, scene.bytes, at),
        _ => push_number_at(page, scene.layout, scene.bytes, kind, at),
    }
    page.end_line();
}

/// Adds a detail of a piece.
pub(crate) fn push_detail(page: &mut Page, scene: Scene<'_>, piece: &BufferPiece, i: u32) {
    let Some(node) = scene.nodes.get(piece.node) else {
        return;
    };
    let at = piece.start as usize;
    let (step, kind, at) = match (piece.what, node.lead) {
        (What::Vtable, Lead::Vtable(table)) => {
            return push_vtable_number(page, scene, piece, table, i);
        }
        (What::Field(slot), Lead::Table(table)) => match struct_in(scene, table, slot) {
            Some(structure) => (Step::Slot(table, slot), Kind::Struct(structure), at),
            None => return,
        },
        (What::Content, Lead::Vector(kind)) => {
            let size = scene.layout.size_of(kind) as usize;
            let at = at.saturating_add(size.saturating_mul(i as usize));
            (Step::Element(i), kind, at)
        }
        _ => return,
    };
    let path = path_of(scene, piece.node, step);
    if let Some(mut path) = page.line.keep(path) {
        match kind {
            Kind::Struct(structure) => push_struct(page, scene, structure, at, &mut path),
            _ => push_value(page, scene, kind, at, path.as_str()),
        }
    }
}
