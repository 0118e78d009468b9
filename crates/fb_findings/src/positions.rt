//! Lines and columns of a text.
ghost use Rattle.std.specs.Prelude.{◌≡◌, ◌+◌, take, drop, count_by};
ghost use Rattle.fb_findings.specs.Positions.{mark_len, before, is_feed, begins_character};
ghost use Rattle.fb_findings.specs.Positions.{line_at, IsLineStart, IsColumn};

const BYTE_ORDER_MARK: &[u8] = b"\xef\xbb\xbf";

/// A line and a column of a text, both counted from 1.
///
/// A line ends with a line feed. A column counts characters, of which a byte order mark at the text's
/// start is none.
#[derive(Clone, Copy, Debug, PartialEq, Eq, Drop)]
pub struct Position {
    pub line: usize,
    pub column: usize,
}

pub(crate) fn is_feed(byte: u8) -> bool
    ensures { result ≡ is_feed byte }
{
    byte == b'\n'
}

fn begins_character(byte: u8) -> bool
    ensures { result ≡ begins_character byte }
{
    byte < 128 || 192 <= byte
}

/// How long the mark at the text's start is.
fn mark_len(text: &[u8]) -> usize
    ensures { result ≡ mark_len text.now }
{
    if text.starts_with(BYTE_ORDER_MARK) {
        3
    } else {
        0
    }
}

fn front(text: &[u8], offset: usize) -> &[u8]
    ensures { result.now ≡ take offset text.now }
{
    text.get(..offset).unwrap_or(text)
}

fn skip(text: &[u8], len: usize) -> &[u8]
    ensures { result.now ≡ drop len text.now }
{
    text.get(len..).unwrap_or(&[])
}

/// What is before an offset, without the mark.
fn text_before(text: &[u8], offset: usize) -> &[u8]
    ensures { result.now ≡ before text.now offset }
{
    skip(front(text, offset), mark_len(text))
}

fn feed_count(text: &[u8]) -> usize
    ensures { result ≡ count_by is_feed text.now }
{
    text.iter().filter(|byte| is_feed(**byte)).count()
}

fn character_count(text: &[u8]) -> usize
    ensures { result ≡ count_by begins_character text.now }
{
    text.iter().filter(|byte| begins_character(**byte)).count()
}

/// Where the last line begins.
pub fn line_start(text: &[u8]) -> usize
    ensures { IsLineStart text.now result }
{
    let mut start = text.len();
    while start > 0 && !is_feed(text[start - 1]) {
        start -= 1;
    }
    start
}

/// The column of an offset.
pub(crate) fn column_of(text: &[u8], offset: usize) -> usize
    ensures { IsColumn text.now offset result }
{
    let before = text_before(text, offset);
    1 + character_count(skip(before, line_start(before)))
}

impl Position {
    ghost use Rattle.std.specs.Prelude.{◌≡◌};
    ghost use Rattle.fb_findings.specs.Positions.{line_at, IsColumn};

    /// The position of an offset in bytes; one past the text is its end.
    pub fn of(text: &[u8], offset: usize) -> Position
        ensures line { result.line ≡ line_at text.now offset }
        ensures column { IsColumn text.now offset result.column }
    {
        Position {
            line: 1 + feed_count(text_before(text, offset)),
            column: column_of(text, offset),
        }
    }
}
