//! Lines that can't drive a terminal.
ghost use Rattle.std.specs.Prelude.{◌≡◌, ◌<◌, ◌≤◌, ◌+◌, false, Some, IfOk, IfSome, chars};
ghost use Rattle.std.specs.String.{string_bytes};
ghost use Rattle.unicode_width.specs.Width.{char_width};
ghost use Rattle.fb_explain_pages.specs.Lines.{columns_of, IsPage};

use std::alloc::{AllocError, Global};
use std::marker::Model;
use unicode_width::UnicodeWidthChar;

/// How many columns a line has at most.
pub const COLUMNS: usize = 120;

/// Whether a character takes columns and shows nothing: a blank that isn't a space, or a filler.
fn is_invisible(character: char) -> bool {
    match character {
        ' ' => false,
        '\u{ad}' | '\u{115f}' | '\u{1160}' | '\u{2800}' | '\u{3164}' | '\u{ffa0}' => true,
        _ => character.is_whitespace(),
    }
}

/// How many columns a character takes where it can be shown as it is.
pub(crate) fn plain_width(character: char) -> Option<usize>
    ensures taken { IfSome result (λ width. width ≡ columns_of character) }
    ensures some { IfSome result (λ width. 0 < width) }
    ensures few { IfSome result (λ width. width ≤ 3) }
{
    match character.width() {
        Some(width) if width > 0 && !is_invisible(character) => Some(width),
        _ => None,
    }
}

/// Lines of at most 120 columns, of which the last may go on.
///
/// Nothing else writes what is shown. A character that takes no column of its own, as a control
/// character or a mark that turns the direction of writing, is written as its escape; so is one that
/// shows nothing, as a no-break space.
#[derive(Drop)]
pub(crate) struct Lines {
    text: String,
    /// How many columns the last line takes.
    columns: usize,
}

impl Model for Lines {
    ghost use Rattle.std.specs.Prelude.{chars};
    ghost use Rattle.std.specs.String.{string_bytes};
    ghost use Rattle.fb_explain_pages.specs.Lines.{Written, IsWritten};

    ghost Value = { Written };

    ghost view = { λ l. record { text = chars (string_bytes l.text); columns = l.columns } };

    ghost invariant = { λ l. IsWritten (record { text = chars (string_bytes l.text); columns = l.columns }) };
}

impl Lines {
    pub(crate) fn new(alloc: Global) -> Lines {
        Lines {
            text: String::new(alloc),
            columns: 0,
        }
    }

    /// The lines, of which the last is ended.
    pub(crate) fn into_text(mut self) -> Result<String, AllocError>
        ensures plain { IfOk result (λ text. IsPage (chars (string_bytes text))) }
    {
        if self.columns > 0 {
            self.end()?;
        }
        Ok(self.text)
    }

    /// Ends the line.
    pub(crate) fn end(&mut self) -> Result<(), AllocError>
        ensures begun { IfOk result (λ _. self.new.columns ≡ 0) }
    {
        self.text.push('\n')?;
        self.columns = 0;
        Ok(())
    }

    /// Adds a character for which the line has columns left.
    fn put_fitting(&mut self, character: char, width: usize) -> Result<(), AllocError>
        requires taken { width ≡ columns_of character }
        requires some { 0 < width }
        requires fits { self.old.columns + width ≤ 120 }
    {
        self.text.push(character)?;
        self.columns += width;
        Ok(())
    }

    /// Adds a character as it is, in a new line where it doesn't fit; nothing where it can't be shown.
    fn put_plain(&mut self, character: char) -> Result<(), AllocError> {
        let Some(width) = plain_width(character) else {
            return Ok(());
        };
        if self.columns + width > COLUMNS {
            self.end()?;
        }
        self.put_fitting(character, width)
    }

    /// Adds a character, or its escape where it can't be shown.
    pub(crate) fn put(&mut self, character: char) -> Result<(), AllocError> {
        if plain_width(character).is_some() {
            return self.put_plain(character);
        }
        for escaped in character.escape_unicode() {
            self.put_plain(escaped)?;
        }
        Ok(())
    }

    pub(crate) fn put_str(&mut self, text: &str) -> Result<(), AllocError> {
        for character in text.chars() {
            self.put(character)?;
        }
        Ok(())
    }
}
