//! What the first bytes of a file say, without a schema.
ghost use Rattle.std.specs.Prelude.{IfOk, chars};
ghost use Rattle.std.specs.String.{string_bytes};
ghost use Rattle.fb_explain_pages.specs.Lines.{IsPage};

use crate::notes::u32_within;
use fb_explain_pages::Page;
use std::alloc::{AllocError, Global};

const COLUMNS: usize = 120;

/// Adds the bytes of an identifier where they are printable.
fn push_identifier(page: &mut Page, bytes: &[u8], at: usize) {
    match bytes.get(at..at.saturating_add(4)) {
        Some(identifier)
            if identifier
                .iter()
                .all(|byte| byte.is_ascii_graphic() || *byte == b' ') => {
            page.line.push_name(identifier)
        }
        _ => page.line.push_str("none"),
    }
    page.end_line();
}

/// Whether the offset at a position leads to a table's place within the bytes.
fn may_be_root(bytes: &[u8], at: usize) -> bool {
    let offset = u32_within(bytes, at) as usize;
    let target = at.saturating_add(offset);
    offset >= 4 && target % 4 == 0 && target.saturating_add(4) <= bytes.len()
}

/// Whether the first four bytes count those after them, which begin with the offset of a root.
fn looks_prefixed(bytes: &[u8]) -> bool {
    bytes.len().checked_sub(4).is_some_and(|rest| u32_within(bytes, 0) as usize == rest
        && may_be_root(bytes, 4))
}

/// What the header of a buffer says, in four lines: the length in bytes, the offset of the root, the file
/// identifier, and whether the buffer looks size-prefixed.
///
/// An identifier is optional, so four bytes that look like one may be another part of the buffer. The offset
/// and the identifier are those after the prefix where the buffer looks size-prefixed.
pub fn header_lines(alloc: Global, bytes: &[u8]) -> Result<String, AllocError>
    ensures plain { IfOk result (λ text. IsPage (chars (string_bytes text))) }
{
    let mut page = Page::new(alloc, COLUMNS);
    page.line.push_str("length: ");
    page.line.push_number(bytes.len() as u64);
    page.end_line();
    let is_prefixed = looks_prefixed(bytes);
    let front = if is_prefixed { 4usize } else { 0 };
    page.line.push_str("root offset: ");
    if bytes.len() < front.saturating_add(4) {
        page.line.push_str("none");
    } else {
        page.line.push_number(u64::from(u32_within(bytes, front)));
        if !may_be_root(bytes, front) {
            page.line.push_str(", where no table can be");
        }
    }
    page.end_line();
    page.line.push_str("identifier: ");
    push_identifier(&mut page, bytes, front.saturating_add(4));
    page.line.push_str("size-prefixed: ");
    page.push_line(if is_prefixed { "looks so" } else { "no" });
    page.into_text()
}
