//! A line of a text, with a caret under a place.
use crate::wrapping::{GUTTER, Page, shown_width};
use bstr::{ByteSlice, decode_last_utf8, decode_utf8};
use fb_findings::line_start;

const DOTS: &str = "...";

// Of half the columns each, what dots and gutter may take is left out of the rest's.
const SPARED: usize = 10;

/// A part of a line, and how many columns it takes.
#[derive(Clone, Copy)]
struct Part<'t> {
    bytes: &'t [u8],
    columns: usize,
}

/// The end of a line's front that is shown in `most` columns.
fn end_of(front: &[u8], most: usize) -> Part<'_> {
    let mut start = front.len();
    let mut columns = 0usize;
    for _ in 0..most {
        let (character, size) = decode_last_utf8(front.get(..start).unwrap_or(&[]));
        let width = shown_width(character, size);
        if start == 0 || columns.saturating_add(width) > most {
            break;
        }
        columns = columns.saturating_add(width);
        start = start.saturating_sub(size);
    }
    Part {
        bytes: front.get(start..).unwrap_or(&[]),
        columns,
    }
}

/// The beginning of a line's rest that is shown in `most` columns.
fn beginning_of(rest: &[u8], most: usize) -> Part<'_> {
    let mut end = 0usize;
    let mut columns = 0usize;
    for _ in 0..most {
        let (character, size) = decode_utf8(rest.get(end..).unwrap_or(&[]));
        let width = shown_width(character, size);
        if size == 0 || columns.saturating_add(width) > most {
            break;
        }
        columns = columns.saturating_add(width);
        end = end.saturating_add(size);
    }
    Part {
        bytes: rest.get(..end).unwrap_or(rest),
        columns,
    }
}

/// What is left of a line from its front on, without what ends it.
fn rest_of_line(text: &[u8]) -> &[u8] {
    let end = text.find_byte(b'\n').unwrap_or(text.len());
    let line = text.get(..end).unwrap_or(text);
    line.strip_suffix(b"\r").unwrap_or(line)
}

/// Adds the line of a place, cut round it where it is long, and a caret under the place.
pub(crate) fn push_excerpt(page: &mut Page, text: &[u8], offset: usize) {
    let before = text.get(..offset).unwrap_or(text);
    let start = line_start(before);
    let front = before.get(start..).unwrap_or(&[]);
    let front = if start == 0 {
        front.strip_prefix(b"\xef\xbb\xbf").unwrap_or(front)
    } else {
        front
    };
    let rest = rest_of_line(text.get(offset..).unwrap_or(&[]));
    let half = page.columns() / 2;
    let left = end_of(front, half);
    let right = beginning_of(rest, half.saturating_sub(SPARED));
    let mut caret = left.columns;
    page.line.push_str(GUTTER);
    if left.bytes.len() < front.len() {
        page.line.push_str(DOTS);
        caret = caret.saturating_add(DOTS.len());
    }
    page.line.push_shown(left.bytes);
    page.line.push_shown(right.bytes);
    if right.bytes.len() < rest.len() {
        page.line.push_str(DOTS);
    }
    page.end_line();
    page.line.push_str(GUTTER);
    page.line.push_spaces(caret);
    page.push_line("^");
}
