//! What findings are shown with, and don't say themselves.
ghost use Rattle.std.specs.Prelude.{◌≡◌};
ghost use Rattle.fb_explain_records.specs.Streams.{place_in_stream};

use fb_findings::{Location, Position, Source};

/// A message of a stream.
#[derive(Clone, Copy, Debug, PartialEq, Eq)]
pub struct StreamMessage {
    /// Its number in the stream, from 1.
    pub index: u64,
    /// How many lines of the stream are before it; none in a stream of buffers.
    pub lines: usize,
    /// Where it begins in the stream, in bytes.
    pub offset: u64,
}

impl StreamMessage {
    /// The place in the stream of a place in the message.
    pub fn place_of<'a>(self, place: Location<'a>) -> Location<'a>
        ensures { result ≡ place_in_stream self place.entry }
    {
        Location {
            path: place.path,
            offset: place
                .offset
                .map(|offset| offset.saturating_add(self.offset)),
            position: place.position.map(|position| Position {
                line: position.line.saturating_add(self.lines),
                column: position.column,
            }),
        }
    }
}

/// What findings are shown with.
#[derive(Clone, Copy)]
pub struct Context<'c> {
    /// The input that was refused. Findings without a place are shown at its file.
    pub input: Source<'c>,
    /// The message of a stream that was refused.
    pub message: Option<StreamMessage>,
    /// How many columns the lines for people have at most.
    pub columns: usize,
}
