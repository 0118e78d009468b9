//! Writers that tests print to.
ghost use Rattle.std.specs.Prelude.{None};

use std::io;
use std::io::{ErrorKind, Write};

/// A writer that takes as many bytes as some text has, some a call, and then fails or takes none.
#[derive(Clone, Copy, Drop)]
pub(super) struct Front<'t> {
    left: &'t [u8],
    each: usize,
    fails: bool,
    is_alike: bool,
}

impl<'t> Front<'t> {
    pub(super) fn of(text: &'t [u8], each: usize, fails: bool) -> Front<'t> {
        Front {
            left: text,
            each,
            fails,
            is_alike: true,
        }
    }

    /// Whether the text was written, whole.
    pub(super) fn is_written(&self) -> bool {
        self.is_alike && self.left.is_empty()
    }
}

impl Write for Front<'_> {
    ghost contents = { λ _. None };

    fn write(&mut self, buf: &[u8]) -> io::Result<usize> {
        if self.left.is_empty() && self.fails && !buf.is_empty() {
            return Err(io::Error::from(ErrorKind::StorageFull));
        }
        let n = self.left.len().min(self.each).min(buf.len());
        self.is_alike = self.is_alike && self.left[..n] == buf[..n];
        self.left = &self.left[n..];
        Ok(n)
    }

    fn flush(&mut self) -> io::Result<()> {
        Ok(())
    }
}
