//! Bytes of a buffer in hexadecimal, with a place marked.
use crate::wrapping::{GUTTER, Page};
use itoa::Buffer;

// How many bytes a row has, and where there are few columns.
const ROW: usize = 16;

const SHORT_ROW: usize = 8;

const FEW_COLUMNS: usize = 80;

// The widths of an offset and of a byte with the space before it.
const OFFSET_DIGITS: usize = 10;

const CELL: usize = 3;

/// Adds an offset, in decimal as all offsets are, on the right of its column.
fn push_offset(page: &mut Page, offset: usize) {
    let mut buffer = Buffer::new();
    let digits = buffer.format(offset);
    page.line
        .push_spaces(OFFSET_DIGITS.saturating_sub(digits.len()));
    page.line.push_str(digits);
}

fn row_len(page: &Page) -> usize {
    if page.columns() < FEW_COLUMNS {
        SHORT_ROW
    } else {
        ROW
    }
}

/// Adds a row of bytes, and their characters where they are ASCII.
fn push_row(page: &mut Page, bytes: &[u8], start: usize) {
    let most = row_len(page);
    page.line.push_str(GUTTER);
    push_offset(page, start);
    page.line.push_str(" ");
    let row = bytes.get(start..).unwrap_or(&[]);
    let row = row.get(..most).unwrap_or(row);
    for byte in row {
        page.line.push_str(" ");
        page.line.push_hex(*byte);
    }
    page.line.push_spaces(
        CELL.saturating_mul(most.saturating_sub(row.len()))
            .saturating_add(2),
    );
    for byte in row {
        let is_shown = byte.is_ascii_graphic() || *byte == b' ';
        page.line.push_shown(&[if is_shown { *byte } else { b'.' }]);
    }
    page.end_line();
}

/// Adds the bytes round an offset, with a mark below it.
pub(crate) fn push_dump(page: &mut Page, bytes: &[u8], offset: usize) {
    let marked = offset.min(bytes.len());
    let row = row_len(page);
    let column = marked.checked_rem(row).unwrap_or(0);
    let own = marked.saturating_sub(column);
    if let Some(row_before) = own.checked_sub(row) {
        push_row(page, bytes, row_before);
    }
    push_row(page, bytes, own);
    page.line.push_str(GUTTER);
    page.line.push_spaces(
        OFFSET_DIGITS
            .saturating_add(2)
            .saturating_add(CELL.saturating_mul(column)),
    );
    page.push_line("^^");
    if bytes.len().saturating_sub(own) > row && own == 0 {
        push_row(page, bytes, own.saturating_add(row));
    }
}
