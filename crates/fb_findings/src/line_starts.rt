//! An index of a text's lines, for many offsets in one text.
ghost use Rattle.std.specs.Prelude.{◌≡◌, ℕ, List, Some, IfOk, IfSome, IsSome};
ghost use Rattle.fb_findings.specs.Positions.{line_at, line_starts, IsColumn, IsPosition};

use crate::positions::{Position, column_of, is_feed};
use crate::sources::{Location, Source};
use std::alloc::{AllocError, Global};
use std::marker::Model;

/// Where each line of a text but the first begins: the offsets after its line feeds, in order.
#[derive(Drop)]
pub struct LineStarts {
    starts: Vec<usize>,
}

impl Model for LineStarts {
    ghost use Rattle.std.specs.Prelude.{ℕ, List};

    ghost Value = { List ℕ };

    ghost view = { λ l. l.starts.items };
}

impl LineStarts {
    /// The index of a text.
    pub fn of(alloc: Global, text: &[u8]) -> Result<LineStarts, AllocError>
        ensures entries { IfOk result (λ starts. starts ≡ line_starts text.now) }
    {
        let mut starts = Vec::new(alloc);
        for (at, byte) in text.iter().enumerate() {
            if is_feed(*byte) {
                starts.push(at + 1)?;
            }
        }
        Ok(LineStarts { starts })
    }

    /// The line of an offset in the text, from 1, as `Position::of` has it.
    pub fn line_of(&self, offset: usize) -> usize
        ensures line { (text : List ℕ) → self.now ≡ line_starts text → result ≡ line_at text offset }
    {
        1 + self.starts.partition_point(|start| *start <= offset)
    }

    /// The position of an offset in the text, as `Position::of` has it.
    pub fn position_of(&self, text: &[u8], offset: usize) -> Position
        ensures line { self.now ≡ line_starts text.now → result.line ≡ line_at text.now offset }
        ensures column { IsColumn text.now offset result.column }
    {
        Position {
            line: self.line_of(offset),
            column: column_of(text, offset),
        }
    }

    /// An offset in the text, with its line and column.
    pub fn location_of<'a>(&self, source: Source<'a>, offset: u64) -> Location<'a>
        ensures offset { result.offset ≡ Some offset }
        ensures has_position { IsSome result.position }
        ensures position { self.now ≡ line_starts source.entry.bytes.now
            → IfSome result.position (IsPosition source.entry.bytes.now offset) }
    {
        Location {
            path: source.path,
            offset: Some(offset),
            position: Some(self.position_of(source.bytes, offset as usize)),
        }
    }
}
