//! A writer that remembers whether its last write failed, and the write buffer in which a text is collected for it.
ghost use Rattle.std.specs.Prelude.{◌≡◌, ◌↔◌, ◌<◌, ◌≤◌, [], ◌++◌, length, take, false, true, IsTrue};
ghost use Rattle.std.specs.Io.{WritesAtMost};
ghost use Rattle.std.specs.Io.KnownBytes.{Appends, WriteAppends, Keeps};
ghost use Rattle.fb_text.specs.Noted.{TookNone};

use crate::faults::WriteFault;
use crate::write_buffer::WriteBuffer;
use std::io;
use std::io::Write;

/// Calls a writer once, and notes whether that failed or took none of the bytes.
fn write_once<W: Write>(inner: &mut W, failed: &mut bool, bytes: &[u8]) -> io::Result<usize>
    ensures bound { WritesAtMost result bytes.now }
    ensures bytes { WriteAppends (W.contents inner.old) (W.contents inner.new) result bytes.now }
    ensures failed { 0 < length bytes.now → (IsTrue failed.new ↔ TookNone result) }
    ensures still { bytes.now ≡ [] → failed.new ≡ failed.old }
{
    let answer = inner.write(bytes);
    if !bytes.is_empty() {
        *failed = !matches!(&answer, Ok(1..));
    }
    answer
}

/// Writes bytes from their first to their last, until a write fails. Returns how many were written.
fn write_bytes<W: Write>(inner: &mut W, failed: &mut bool, bytes: &[u8]) -> usize
    requires { failed.old ≡ false }
    ensures all { failed.new ≡ false → (result ≡ length bytes.now)
        × Appends (W.contents inner.old) (W.contents inner.new) bytes.now }
    ensures some { failed.new ≡ true → (result < length bytes.now)
        × Appends (W.contents inner.old) (W.contents inner.new) (take result bytes.now) }
{
    let mut at = 0usize;
    while at < bytes.len() {
        match write_once(inner, failed, &bytes[at..]) {
            Ok(n) if n > 0 => at += n,
            _ => return at,
        }
    }
    at
}

/// A writer that remembers whether its last write failed or took none of its bytes.
///
/// It has a write buffer, so that a text that is printed to it is written in few large pieces.
#[derive(Drop)]
pub struct Noted<W: Write> {
    inner: W,
    failed: bool,
    buffer: WriteBuffer,
}

impl<W: Write> Noted<W> {
    ghost use Rattle.std.specs.Prelude.{ℕ, List, Option, IsErr};
    ghost use Rattle.fb_text.specs.Noted.{write_failed, writer_of, buffer_of, IsWrittenUnlessFailed};
    ghost use Rattle.fb_text.specs.WriteBuffers.{pending, written_before};
    ghost use Rattle.fb_text.specs.Printed.{IfUnnamed};
    ghost use Rattle.fb_text.specs.Texts.{in_quotes};
    ghost use Rattle.fb_text.specs.Writes.{state_of, Stands, IsWritten, Prints};

    /// A writer over another, whose bytes are that one's.
    pub fn over(inner: W) -> Noted<W>
        ensures fresh { write_failed result ≡ false }
        ensures same { writer_of result ≡ inner }
    {
        Noted {
            inner,
            failed: false,
            buffer: WriteBuffer::new(),
        }
    }

    /// The writer below.
    pub fn into_inner(self) -> W
        ensures { result ≡ writer_of self }
    {
        self.inner
    }

    /// Whether the last write of at least one byte failed or took none; false before the first.
    pub fn failed(&self) -> bool
        ensures { result ≡ write_failed self.now }
    {
        self.failed
    }

    /// Writes a text at once, without the write buffer, until a write fails or takes none of its bytes.
    pub fn write_whole(&mut self, text: &str)
        requires fresh { write_failed self.old ≡ false }
        ensures { IsWrittenUnlessFailed text.now (write_failed self.new)
            (W.contents (writer_of self.old)) (W.contents (writer_of self.new)) }
    {
        write_bytes(&mut self.inner, &mut self.failed, text.as_bytes());
    }

    /// Begins a text: none of its bytes wait, and none were written.
    pub(crate) fn begin(&mut self)
        ensures pending { pending (buffer_of self.new) ≡ [] }
        ensures written { written_before (buffer_of self.new) ≡ 0 }
        ensures same { writer_of self.new ≡ writer_of self.old }
        ensures still { write_failed self.new ≡ write_failed self.old }
    {
        self.buffer.restart(0);
    }

    /// Writes what waits in the write buffer. After a failure nothing is written.
    #[cold]
    #[inline(never)]
    fn write_pending(&mut self)
        ensures adds { Prints W.contents self.old self.new [] }
        ensures empty { pending (buffer_of self.new) ≡ [] }
    {
        let before = self.buffer.written();
        if self.failed {
            self.buffer.restart(before);
            return;
        }
        let written = write_bytes(&mut self.inner, &mut self.failed, self.buffer.pending());
        self.buffer.restart(before.saturating_add(written as u64));
    }

    /// Adds a piece where no bytes wait: to the write buffer where it has room, and else to the writer.
    #[cold]
    #[inline(never)]
    fn put_first(&mut self, piece: &[u8])
        requires { pending (buffer_of self.old) ≡ [] }
        ensures { Prints W.contents self.old self.new piece.now }
    {
        if self.buffer.has_room(piece.len()) {
            self.buffer.add(piece);
            return;
        }
        if self.failed {
            return;
        }
        let before = self.buffer.written();
        let written = write_bytes(&mut self.inner, &mut self.failed, piece);
        self.buffer.restart(before.saturating_add(written as u64));
    }

    /// Adds a piece of a text. What waits is written where the piece has no room after it.
    #[inline]
    #[tactic(auto, using(crate::proofs::noted::PiecesAddUp::added_then))]
    pub(crate) fn put(&mut self, piece: &[u8])
        ensures { Prints W.contents self.old self.new piece.now }
    {
        if self.buffer.has_room(piece.len()) {
            self.buffer.add(piece);
            return;
        }
        self.write_pending();
        self.put_first(piece);
    }

    /// The same of a piece that is a `str`.
    #[inline]
    pub(crate) fn put_str(&mut self, piece: &str)
        ensures { Prints W.contents self.old self.new piece.now }
    {
        self.put(piece.as_bytes());
    }

    /// Adds the first bytes of a piece.
    #[inline]
    pub(crate) fn put_front(&mut self, piece: &[u8; 16], len: usize)
        requires { len ≤ 16 }
        ensures { Prints W.contents self.old self.new (take len piece.now) }
    {
        if !self.buffer.has_room(piece.len()) {
            return self.put(&piece[..len]);
        }
        self.buffer.add_front(piece, len);
    }

    /// Adds three pieces, one after another.
    #[cold]
    #[inline(never)]
    fn put_each(&mut self, first: &str, second: &str, third: &str)
        ensures { Prints W.contents self.old self.new (first.now ++ (second.now ++ third.now)) }
    {
        self.put_str(first);
        self.put_str(second);
        self.put_str(third);
    }

    /// Adds three pieces, with one test for room where the write buffer has it.
    #[inline]
    pub(crate) fn put_three(&mut self, first: &str, second: &str, third: &str)
        ensures { Prints W.contents self.old self.new (first.now ++ (second.now ++ third.now)) }
    {
        let around = first.len().saturating_add(third.len());
        if !self.buffer.has_room(second.len().saturating_add(around)) {
            return self.put_each(first, second, third);
        }
        self.buffer.add(first.as_bytes());
        self.buffer.add(second.as_bytes());
        self.buffer.add(third.as_bytes());
    }

    /// Adds a piece in quotes.
    #[inline]
    pub(crate) fn put_in_quotes(&mut self, piece: &str)
        ensures { Prints W.contents self.old self.new (in_quotes piece.now) }
    {
        self.put_three("\"", piece, "\"");
    }

    /// Writes what waits, and returns whether all of a text was written.
    pub(crate) fn finish(&mut self) -> Result<(), WriteFault>
        ensures written { (start : Option (List ℕ)) (text : List ℕ)
            → Stands start (state_of W.contents self.old) text
            → IsWritten start (W.contents (writer_of self.new)) text result }
        ensures failed { IsErr result ↔ IsTrue (write_failed self.new) }
        ensures named { IfUnnamed result ⊥ }
    {
        self.write_pending();
        if self.failed {
            return Err(WriteFault::WriteFailed(self.buffer.written()));
        }
        Ok(())
    }
}

impl<W: Write> Write for Noted<W> {
    ghost use Rattle.fb_text.specs.Noted.{write_failed, writer_of};

    ghost contents = { λ n. W.contents (writer_of n) };

    fn write(&mut self, buf: &[u8]) -> io::Result<usize>
        ensures bound { WritesAtMost result buf.now }
        ensures bytes { WriteAppends (W.contents (writer_of self.old))
            (W.contents (writer_of self.new)) result buf.now }
        ensures failed { 0 < length buf.now
            → (IsTrue (write_failed self.new) ↔ TookNone result) }
        ensures still { buf.now ≡ [] → write_failed self.new ≡ write_failed self.old }
    {
        write_once(&mut self.inner, &mut self.failed, buf)
    }

    fn flush(&mut self) -> io::Result<()>
        ensures bytes { Keeps (W.contents (writer_of self.old)) (W.contents (writer_of self.new)) }
        ensures still { write_failed self.new ≡ write_failed self.old }
    {
        self.inner.flush()
    }
}
