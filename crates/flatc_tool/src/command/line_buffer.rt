//! A short text on the stack.
ghost use Rattle.std.specs.Prelude.{◌≡◌, ◌≤◌, ◌+◌, [], ◌++◌, length, take, IsUtf8};
ghost use Rattle.flatc_tool.specs.declared.command.line_buffer.TheConstants.{CAPACITY};

use std::str;

/// How many bytes a line has at most.
pub(crate) const CAPACITY: usize = 160;

/// A text of at most `CAPACITY` bytes. It takes no allocation.
#[derive(Drop)]
pub(crate) struct LineBuffer {
    bytes: [u8; CAPACITY],
    len: usize,
    ghost within: { len ≤ CAPACITY },
    ghost utf8: { ∥ IsUtf8 (take len bytes) ∥₁ },
}

impl LineBuffer {
    ghost use Rattle.flatc_tool.specs.LineBuffers.{text_of};

    /// A text without bytes.
    pub(crate) fn new() -> LineBuffer
        ensures { text_of result ≡ [] }
    {
        LineBuffer {
            bytes: [0; CAPACITY],
            len: 0,
        }
    }

    /// Adds a piece at the end.
    pub(crate) fn push_str(&mut self, piece: &str)
        requires room { length (text_of self.old) + length piece.now ≤ CAPACITY }
        ensures { text_of self.new ≡ text_of self.old ++ piece.now }
    {
        let end = self.len + piece.len();
        self.bytes[self.len..end].copy_from_slice(piece.as_bytes());
        self.len = end;
    }

    /// The text.
    pub(crate) fn as_str(&self) -> &str
        ensures { result.now ≡ text_of self.now }
    {
        match str::from_utf8(&self.bytes[..self.len]) {
            Ok(text) => text,
            Err(_) => unreachable!(),
        }
    }
}
