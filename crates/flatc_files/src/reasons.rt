//! Why a write failed, kept for an explanation.
ghost use Rattle.std.specs.Prelude.{◌≡◌, Ok, MatchResult, IsErr};
ghost use Rattle.std.specs.Io.{WritesAtMost};
ghost use Rattle.std.specs.Io.KnownBytes.{WriteAppends, Keeps};

use std::io::{self, Write};

/// A writer that keeps the error of its last write that failed.
///
/// An error can't be copied, so its kind alone is passed on.
#[derive(Drop)]
pub struct Reasoned<S> {
    inner: S,
    reason: Option<io::Error>,
}

impl<S> Reasoned<S> {
    /// A writer over another.
    pub fn over(inner: S) -> Reasoned<S> {
        Reasoned {
            inner,
            reason: None,
        }
    }
}

impl<S: Drop> Reasoned<S> {
    /// The error that is kept; none where no write failed.
    pub fn into_reason(self) -> Option<io::Error> {
        self.reason
    }
}

/// What a call returned, with its error kept.
fn keep_error(answer: io::Result<usize>, reason: &mut Option<io::Error>) -> io::Result<usize>
    ensures { MatchResult result (λ n. answer ≡ Ok n) (λ e. IsErr answer) }
{
    match answer {
        Ok(count) => Ok(count),
        Err(error) => {
            let kind = error.kind();
            *reason = Some(error);
            Err(io::Error::from(kind))
        }
    }
}

impl<W: Write> Write for Reasoned<W> {
    ghost contents = { λ r. W.contents r.inner };

    fn write(&mut self, buf: &[u8]) -> io::Result<usize>
        ensures bound { WritesAtMost result buf.now }
        ensures bytes { WriteAppends (W.contents self.old.inner) (W.contents self.new.inner) result buf.now }
    {
        let answer = self.inner.write(buf);
        keep_error(answer, &mut self.reason)
    }

    fn flush(&mut self) -> io::Result<()>
        ensures bytes { Keeps (W.contents self.old.inner) (W.contents self.new.inner) }
    {
        self.inner.flush()
    }
}
