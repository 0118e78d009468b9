//! A reader that remembers whether its last read failed, and all the bytes of one.
ghost use Rattle.std.specs.Prelude.{◌≡◌, ◌↔◌, ◌<◌, ◌≤◌, ◌+◌, length, take, drop, false, IsTrue, IfOk, IfSome, OnOk};
ghost use Rattle.std.specs.Prelude.{IsErr, IsErrOf};
ghost use Rattle.std.specs.Io.{ReadsAtMost};
ghost use Rattle.std.specs.Io.KnownBytes.{ReadConsumes, Consumes, IsAtEnd};
ghost use Rattle.fb_heard.specs.Heard.{read_failed, reader_of, is_failed_read};
ghost use Rattle.fb_heard.specs.declared.heard.TakeFault.TheVariants.{TooLong};

use std::alloc::{AllocError, Global};
use std::io::{self, Read};
use thiserror::Error;

// For how many bytes room is made: as many as there are already, and at least and at most so many. What is read into is
// set to zero first, which a short file shouldn't pay for.
const LEAST_ROOM: usize = 4_096;

const MOST_ROOM: usize = 65_536;

/// Why the bytes of a reader can't be had.
#[derive(Debug, Drop, Error)]
pub enum TakeFault {
    /// A read failed.
    #[error("a read failed: {0}")]
    Failed(io::Error),
    /// There are more bytes than the limit allows.
    #[error("there are more bytes than the limit allows")]
    TooLong,
    #[error("out of memory")]
    Memory,
}

/// A reader that remembers whether its last read failed.
#[derive(Drop)]
pub struct Heard<R: Read> {
    inner: R,
    failed: bool,
}

impl<R: Read> Heard<R> {
    ghost use Rattle.fb_heard.specs.Heard.{read_failed, reader_of};

    /// A reader over another, whose bytes are that one's.
    pub fn over(inner: R) -> Heard<R>
        ensures fresh { read_failed result ≡ false }
        ensures same { reader_of result ≡ inner }
    {
        Heard {
            inner,
            failed: false,
        }
    }

    /// The reader below.
    pub fn into_inner(self) -> R
        ensures { result ≡ reader_of self }
    {
        let Heard { inner, failed: _ } = self;
        inner
    }

    /// Whether the last read failed; false before the first.
    pub fn failed(&self) -> bool
        ensures { result ≡ read_failed self.now }
    {
        self.failed
    }
}

impl<R: Read> Read for Heard<R> {
    ghost use Rattle.fb_heard.specs.Heard.{read_failed, reader_of};

    ghost remaining = { λ h. R.remaining (reader_of h) };

    fn read(&mut self, buf: &mut [u8]) -> io::Result<usize>
        ensures bound { ReadsAtMost result buf.new }
        ensures bytes { ReadConsumes (R.remaining (reader_of self.old))
            (R.remaining (reader_of self.new)) result buf.new }
        ensures failed { IsTrue (read_failed self.new) ↔ IsErr result }
    {
        let answer = self.inner.read(buf);
        self.failed = answer.is_err();
        answer
    }
}

/// Makes room after the first `filled` bytes, which stay.
fn make_room(found: &mut Vec<u8>, filled: usize) -> Result<(), AllocError>
    requires within { filled ≤ length found.old.items }
    requires few { filled ≤ 4294967295 }
    ensures front { take filled found.new.items ≡ take filled found.old.items }
    ensures room { OnOk result (filled < length found.new.items) }
{
    if found.len() == filled {
        found.resize(filled + filled.clamp(LEAST_ROOM, MOST_ROOM), 0)?;
    }
    Ok(())
}

/// One read, after the first `filled` bytes, which stay.
fn read_behind<R: Read>(
    from: &mut Heard<R>,
    found: &mut Vec<u8>,
    filled: usize,
) -> io::Result<usize>
    requires room { filled < length found.old.items }
    ensures front { take filled found.new.items ≡ take filled found.old.items }
    ensures fits { IfOk result (λ n. filled + n ≤ length found.new.items) }
    ensures bytes { IfOk result (λ n. Consumes (R.remaining (reader_of from.old))
        (R.remaining (reader_of from.new)) (take n (drop filled found.new.items))) }
    ensures end { IfOk result (λ n. n ≡ 0 → IsAtEnd (R.remaining (reader_of from.new))) }
    ensures failed { IsTrue (read_failed from.new) ↔ IsErr result }
{
    from.read(&mut found[filled..])
}

/// All bytes of a reader, at most `most` of them.
///
/// `Failed` is returned at the first read that fails, `TooLong` where a byte past `most` came, and
/// `Memory` where the bytes can't be kept.
pub fn take_all<R: Read>(
    alloc: Global,
    from: &mut Heard<R>,
    most: u32,
) -> Result<Vec<u8>, TakeFault>
    requires fresh { read_failed from.old ≡ false }
    ensures short { IfOk result (λ v. length v.items ≤ most) }
    ensures whole { IfOk result (λ v. IfSome (R.remaining (reader_of from.old)) (λ xs. v.items ≡ xs)) }
    ensures long { IsErrOf result TooLong
        → IfSome (R.remaining (reader_of from.old)) (λ xs. most < length xs) }
    ensures failed { read_failed from.new ≡ is_failed_read result }
{
    let limit = most as usize;
    let mut found = Vec::new(alloc);
    let mut filled = 0usize;
    for _ in 0..limit + 2 {
        make_room(&mut found, filled).map_err(|_| TakeFault::Memory)?;
        match read_behind(from, &mut found, filled) {
            Ok(0) => {
                found.truncate(filled);
                return Ok(found);
            }
            Ok(n) if n > limit - filled => return Err(TakeFault::TooLong),
            Ok(n) => filled += n,
            Err(error) => return Err(TakeFault::Failed(error)),
        }
    }
    Err(TakeFault::TooLong)
}
