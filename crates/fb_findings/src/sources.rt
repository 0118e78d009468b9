//! The texts and bytes that a job was done with, and places in them.
ghost use Rattle.std.specs.Prelude.{◌≡◌, Some, None, IfSome, IsSome};
ghost use Rattle.fb_findings.specs.Positions.{IsPosition};

use crate::positions::Position;
use fb_value::Limits;

/// A file's path, and the bytes that were read from it.
#[derive(Clone, Copy, Debug, PartialEq, Eq)]
pub struct Source<'a> {
    pub path: &'a str,
    pub bytes: &'a [u8],
}

/// A file that couldn't be read or written: its path, and the reason as the system says it.
#[derive(Clone, Copy)]
pub struct FileFailure<'a> {
    pub path: &'a str,
    pub reason: &'a str,
}

/// What a job was done with, as far as it had been read.
#[derive(Clone, Copy)]
pub struct Sources<'a> {
    /// The schema text; of `conform` the old one.
    pub schema: Source<'a>,
    /// The JSON text, the buffer, or the new schema text.
    pub input: Source<'a>,
    pub limits: Limits,
    /// Whether unknown JSON fields are ignored.
    pub unknown_json: bool,
    /// Whether the file identifier check is skipped.
    pub raw_binary: bool,
    /// Whether the buffer has a size prefix.
    pub size_prefixed: bool,
    /// The file that can't be read or written, or standard output.
    pub failure: Option<FileFailure<'a>>,
}

/// A file, and where there is one a place in it.
#[derive(Clone, Copy, Debug, PartialEq, Eq)]
pub struct Location<'a> {
    pub path: &'a str,
    /// In bytes from the file's start.
    pub offset: Option<u64>,
    /// The line and column of the offset, in a text.
    pub position: Option<Position>,
}

impl<'a> Location<'a> {
    /// A file, or an offset in it.
    pub fn in_file(path: &'a str, offset: Option<u64>) -> Location<'a>
        ensures offset { result.offset ≡ offset }
        ensures no_position { result.position ≡ None }
    {
        Location {
            path,
            offset,
            position: None,
        }
    }

    /// An offset in a text, with its line and column.
    pub fn in_text(source: Source<'a>, offset: u64) -> Location<'a>
        ensures offset { result.offset ≡ Some offset }
        ensures position { IfSome result.position (IsPosition source.entry.bytes.now offset) }
        ensures has_position { IsSome result.position }
    {
        Location {
            path: source.path,
            offset: Some(offset),
            position: Some(Position::of(source.bytes, offset as usize)),
        }
    }
}
