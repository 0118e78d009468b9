//! All types of a schema, in the order of their numbers.
ghost use Rattle.std.specs.Prelude.{IfOk, chars};
ghost use Rattle.std.specs.String.{string_bytes};
ghost use Rattle.fb_explain_pages.specs.Lines.{IsPage};

use crate::bodies::push_body;
use fb_explain_pages::Page;
use fb_layout::Layout;
use fb_schema::{Schema, TypeId, type_name};
use std::alloc::{AllocError, Global};

/// Adds the root and the file identifier.
fn push_header(page: &mut Page, schema: &Schema) {
    let root = schema.root();
    page.line.push_str("root type ");
    page.line.push_number(root.0);
    page.line.push_str(", ");
    page.push_line(type_name(schema, root));
    if let Some(identifier) = schema.identifier() {
        page.line.push_str("file identifier \"");
        page.line.push_shown(&identifier);
        page.push_line("\"");
    }
    page.end_line();
}

/// The types of a schema by number, each with its slots, fields, values or members.
///
/// Lines have at most `columns` columns; fewer than 48 count as 48, and more than 120 as 120. The only error is a
/// refused allocation. A long name of a type or value is cut where a field refers to it, so that the text grows with
/// the schema.
pub fn description_of(alloc: Global, layout: &Layout, columns: usize) -> Result<String, AllocError>
    ensures plain { IfOk result (λ text. IsPage (chars (string_bytes text))) }
{
    let mut page = Page::new(alloc, columns);
    push_header(&mut page, layout.schema());
    for (number, info) in layout.schema().types().iter().enumerate() {
        push_body(&mut page, layout, TypeId(number as u64), info);
    }
    page.into_text()
}
