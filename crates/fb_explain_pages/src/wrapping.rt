//! Lines for people, wrapped at spaces.
ghost use Rattle.std.specs.Prelude.{IfOk, chars};
ghost use Rattle.std.specs.String.{string_bytes};
ghost use Rattle.fb_explain_pages.specs.Lines.{IsPage};

use crate::lines::{COLUMNS, Lines, plain_width};
use fb_findings::Note;
use std::alloc::{AllocError, Global};

/// What each line of an excerpt begins with, and no other line: a line that goes on begins with four spaces.
pub(crate) const GUTTER: &str = " | ";

// How many columns a tab takes.
const TAB: usize = 4;

// What a row of bytes takes; narrower lines would tear it apart.
const FEWEST_COLUMNS: usize = 48;

/// Lines that are wrapped at spaces.
///
/// Once memory ran out nothing is added any more.
#[derive(Drop)]
pub struct Page {
    /// The line that isn't ended yet, with nothing escaped.
    pub line: Note,
    /// Where lines are wrapped.
    columns: usize,
    lines: Lines,
}

/// How many columns a character takes as it is shown, or `size` bytes that are none.
pub(crate) fn shown_width(character: Option<char>, size: usize) -> usize {
    match character {
        Some('\t') => TAB,
        Some(character) => {
            plain_width(character).unwrap_or_else(|| character.escape_unicode().count())
        }
        None => 4usize.saturating_mul(size),
    }
}

/// The length in bytes of the longest front that takes at most `columns` columns.
fn fitting_len(line: &str, columns: usize) -> usize {
    let mut taken = 0usize;
    for (at, character) in line.char_indices() {
        taken = taken.saturating_add(shown_width(Some(character), 1));
        if taken > columns {
            return at;
        }
    }
    line.len()
}

/// Where a line is cut: after its last space that fits, and not before its first words.
fn cut_len(line: &str, columns: usize) -> usize {
    let fitting = fitting_len(line, columns);
    if fitting == line.len() {
        return fitting;
    }
    if line.as_bytes().get(fitting) == Some(&b' ') {
        return fitting.saturating_add(1);
    }
    match line.get(..fitting).and_then(|front| front.rfind(' ')) {
        Some(space) if space >= columns / 2 => space.saturating_add(1),
        _ => fitting,
    }
}

/// Adds a line, which goes on in further ones where it takes more columns.
fn put_wrapped(lines: &mut Lines, line: &str, most: usize) -> Result<(), AllocError> {
    let mut rest = line;
    let mut columns = most;
    for _ in 0..line.len() {
        let cut = cut_len(rest, columns);
        if cut == rest.len() {
            break;
        }
        lines.put_str(rest.get(..cut).unwrap_or("").trim_end_matches(' '))?;
        lines.end()?;
        lines.put_str("    ")?;
        rest = rest.get(cut..).unwrap_or("");
        columns = most.saturating_sub(4);
    }
    lines.put_str(rest)?;
    lines.end()
}

impl Page {
    /// A page without lines, of `columns` columns: at least 48 and at most 120.
    pub fn new(alloc: Global, columns: usize) -> Page {
        Page {
            line: Note::new(alloc),
            columns: columns.clamp(FEWEST_COLUMNS, COLUMNS),
            lines: Lines::new(alloc),
        }
    }

    /// How many columns its lines take at most.
    pub(crate) fn columns(&self) -> usize {
        self.columns
    }

    /// The lines, unless memory ran out.
    pub fn into_text(self) -> Result<String, AllocError>
        ensures plain { IfOk result (λ text. IsPage (chars (string_bytes text))) }
    {
        let Self {
            line,
            columns: _,
            lines,
        } = self;
        line.into_text()?;
        lines.into_text()
    }

    /// Ends the line, which goes on in further ones where it is too long.
    pub fn end_line(&mut self) {
        if self.line.failed().is_none() {
            let put = put_wrapped(&mut self.lines, self.line.as_str(), self.columns);
            self.line.keep(put);
        }
        self.line.clear();
    }

    /// Adds a line of its own.
    pub fn push_line(&mut self, line: &str) {
        self.line.push_str(line);
        self.end_line();
    }
}
