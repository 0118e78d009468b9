//! What each line begins with: a range and its bytes.
use crate::pieces::BufferPiece;
use fb_explain_pages::Page;

// How many bytes of a range are shown, and how many columns each takes with the space after it.
const SHOWN: usize = 8;

const CELL: usize = 3;

pub(crate) const DIGITS: [&str; 16] = [
    "0", "1", "2", "3", "4", "5", "6", "7", "8", "9", "a", "b", "c", "d", "e", "f",
];

/// How many digits a number has in decimal.
pub(crate) fn digits_of(number: u64) -> usize {
    let mut digits = 1usize;
    let mut left = number / 10;
    for _ in 0..20 {
        if left > 0 {
            digits = digits.saturating_add(1);
            left /= 10;
        }
    }
    digits
}

pub(crate) fn push_spaces(page: &mut Page, count: usize) {
    for _ in 0..count {
        page.line.push_str(" ");
    }
}

/// Adds a number at the right end of so many columns.
fn push_right(page: &mut Page, number: u64, columns: usize) {
    push_spaces(page, columns.saturating_sub(digits_of(number)));
    page.line.push_number(number);
}

/// Adds a byte as two hexadecimal digits, and a space.
fn push_byte(page: &mut Page, byte: u8) {
    page.line.push_str(DIGITS[usize::from(byte / 16)]);
    page.line.push_str(DIGITS[usize::from(byte % 16)]);
    page.line.push_str(" ");
}

/// Adds the front of a range's bytes, and two dots where there are more.
fn push_bytes(page: &mut Page, bytes: &[u8]) {
    let shown = bytes.get(..SHOWN).unwrap_or(bytes);
    for byte in shown {
        push_byte(page, *byte);
    }
    push_spaces(page, CELL.saturating_mul(SHOWN.saturating_sub(shown.len())));
    page.line
        .push_str(if bytes.len() > SHOWN { ".. " } else { "   " });
}

/// Begins a line on the bytes from one position up to another, in a buffer of these bytes.
pub(crate) fn begin_line(page: &mut Page, bytes: &[u8], start: usize, end: usize) {
    let columns = digits_of(bytes.len() as u64);
    push_right(page, start as u64, columns);
    page.line.push_str("..");
    page.line.push_number(end as u64);
    push_spaces(
        page,
        columns
            .saturating_sub(digits_of(end as u64))
            .saturating_add(2),
    );
    let range = bytes.get(start..end).unwrap_or(&[]);
    push_bytes(page, range);
}

/// Begins the line of a piece.
pub(crate) fn begin_piece(page: &mut Page, bytes: &[u8], piece: &BufferPiece) {
    begin_line(page, bytes, piece.start as usize, piece.end as usize);
}
