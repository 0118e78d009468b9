//! The types of fields: their names, and what their values take.
use fb_explain_pages::Page;
use fb_layout::{Layout, kind_in};
use fb_schema::{Kind, Schema, Shape, kind_name};

// How many bytes are shown of a name that is declared elsewhere. Any number of fields may refer to one name.
const LONGEST_REFERENCE: usize = 256;

/// Adds a name that is declared elsewhere, cut if it is long.
pub(crate) fn push_reference(page: &mut Page, name: &str) {
    match name.get(..LONGEST_REFERENCE) {
        Some(front) if front.len() < name.len() => {
            page.line.push_str(front);
            page.line.push_str("...");
        }
        _ => page.line.push_str(name),
    }
}

/// Adds a field's type, as a schema text writes it. That of a union says which of its two slots the field is.
pub(crate) fn push_shape(page: &mut Page, schema: &Schema, shape: Shape) {
    let name = kind_name(schema, kind_in(shape));
    let (before, after) = match shape {
        Shape::One(Kind::Code(_)) => ("code of union ", ""),
        Shape::One(Kind::Union(_)) => ("union ", ""),
        Shape::One(_) => ("", ""),
        Shape::Many(_) => ("[", "]"),
    };
    page.line.push_str(before);
    push_reference(page, name);
    page.line.push_str(after);
}

/// Adds the size and the alignment of a kind's values, in brackets.
pub(crate) fn push_extent(page: &mut Page, layout: &Layout, kind: Kind) {
    let size = layout.size_of(kind);
    page.line.push_str(" (");
    page.line.push_number(u64::from(size));
    page.line
        .push_str(if size == 1 { " byte" } else { " bytes" });
    page.line.push_str(", aligned to ");
    page.line.push_number(u64::from(layout.align_of(kind)));
    page.line.push_str(")");
}
