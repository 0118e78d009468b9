//! The bytes of an input that were read and not yet taken, for messages that are read one by one.
ghost use Rattle.std.specs.Prelude.{◌≡◌, ◌≤◌, ◌<◌, ◌+◌, drop, length, slice_range, take, IfOk};
ghost use Rattle.std.specs.List.{position, position_or_len};
ghost use Rattle.flatc_files.specs.Lines.{is_feed};

use crate::inputs::LONGEST;
use crate::opened::Opened;
use fb_heard::TakeFault;
use std::alloc::{AllocError, Global};
use std::io::{self, Read};

// How many bytes a read takes at most, for which room is made as they come: a message's size prefix is no
// reason to make any.
const ROOM: usize = 65_536;

/// The bytes of an input that were read and not yet taken, in order.
#[derive(Drop)]
pub struct Window {
    stream: Opened,
    /// What was read, up to `end`. Bytes before `start` were taken.
    bytes: Vec<u8>,
    start: usize,
    end: usize,
    /// The first so many of the bytes from `start` on have no line feed.
    searched: usize,
    is_ended: bool,
    ghost taken: { start ≤ end },
    ghost read: { end ≤ length bytes.items },
    ghost sought: { searched ≤ position_or_len is_feed (slice_range bytes.items start end) },
}

/// The place of the first line feed.
fn first_feed(bytes: &[u8]) -> Option<usize>
    ensures { result ≡ position is_feed bytes.now }
{
    bytes.iter().position(|byte| *byte == b'\n')
}

/// The place of the first line feed from `from` on, counted from there.
fn next_feed(bytes: &[u8], from: usize) -> Option<usize>
    requires within { from ≤ length bytes.now }
    ensures { result ≡ position is_feed (drop from bytes.now) }
{
    first_feed(&bytes[from..])
}

/// One read, after the first `filled` bytes, which stay.
fn read_after(stream: &mut Opened, bytes: &mut Vec<u8>, filled: usize) -> io::Result<usize>
    requires room { filled < length bytes.old.items }
    ensures front { take filled bytes.new.items ≡ take filled bytes.old.items }
    ensures within { filled ≤ length bytes.new.items }
    ensures fits { IfOk result (λ count. filled + count ≤ length bytes.new.items) }
{
    stream.read(&mut bytes[filled..])
}

impl Window {
    ghost use Rattle.std.specs.Prelude.{[], ◌↔◌, ◌==◌, ◌||◌, false, IsErrOf, OnErr, OnOk};
    ghost use Rattle.std.specs.Io.{StartsWith};
    ghost use Rattle.fb_heard.specs.declared.heard.TakeFault.TheVariants.{TooLong};
    ghost use Rattle.flatc_files.specs.Lines.{first_line_len};
    ghost use Rattle.flatc_files.specs.Windows.{is_ended, pending};

    /// Opens a file, or standard input; nothing of it is read yet.
    pub fn open(rt: &HostRuntime, path: &str) -> io::Result<Window>
        ensures empty { IfOk result (λ window. pending window ≡ []) }
        ensures ended { IfOk result (λ window. is_ended window ≡ false) }
    {
        Ok(Window {
            stream: Opened::open(rt, path)?,
            bytes: Vec::new(rt.alloc()),
            start: 0,
            end: 0,
            searched: 0,
            is_ended: false,
        })
    }

    /// What was read and not taken.
    pub fn bytes(&self) -> &[u8]
        ensures { result.now ≡ pending self.now }
    {
        &self.bytes[self.start..self.end]
    }

    /// Some of the first bytes that weren't taken, at most all that are there.
    pub fn first(&self, count: usize) -> &[u8]
        ensures { result.now ≡ take count (pending self.now) }
    {
        let bytes = self.bytes();
        &bytes[..count.min(bytes.len())]
    }

    /// Whether there are no more bytes to be read.
    pub fn is_ended(&self) -> bool
        ensures { result ≡ is_ended self.now }
    {
        self.is_ended
    }

    /// Takes some of the first bytes, at most all that are there.
    pub fn take(&mut self, count: usize)
        ensures taken { pending self.new ≡ drop count (pending self.old) }
        ensures ended { is_ended self.new ≡ is_ended self.old }
    {
        self.start += count.min(self.end - self.start);
        self.searched = 0;
    }

    /// The length of the first line, with its line feed; none where that isn't read yet.
    pub fn line_len(&mut self) -> Option<usize>
        ensures line { result ≡ first_line_len (pending self.old) }
        ensures kept { pending self.new ≡ pending self.old }
        ensures ended { is_ended self.new ≡ is_ended self.old }
    {
        match next_feed(self.bytes(), self.searched) {
            Some(at) => Some(self.searched + at + 1),
            None => {
                self.searched = self.end - self.start;
                None
            }
        }
    }

    /// Moves what isn't taken to the front.
    fn move_to_front(&mut self)
        ensures kept { pending self.new ≡ pending self.old }
        ensures ended { is_ended self.new ≡ is_ended self.old }
    {
        self.bytes.copy_within(self.start..self.end, 0);
        self.end -= self.start;
        self.start = 0;
    }

    /// Makes room after what was read.
    fn make_room(&mut self) -> Result<(), AllocError>
        ensures room { OnOk result (self.new.end < length self.new.bytes.items) }
        ensures kept { pending self.new ≡ pending self.old }
        ensures ended { is_ended self.new ≡ is_ended self.old }
    {
        if self.start > 0 {
            self.move_to_front();
        }
        if self.end == self.bytes.len() {
            self.bytes.resize(self.end + ROOM, 0)?;
        }
        Ok(())
    }

    /// Reads once more, after what was read. At the end of the input that is noted.
    pub fn read_more(&mut self) -> Result<(), TakeFault>
        ensures grown { OnOk result (StartsWith (pending self.new) (pending self.old)) }
        ensures ended { OnOk result (is_ended self.new
            ≡ (is_ended self.old || length (pending self.new) == length (pending self.old))) }
        ensures kept { OnErr result (pending self.new ≡ pending self.old) }
        ensures failed { OnErr result (is_ended self.new ≡ is_ended self.old) }
        ensures long { IsErrOf result TooLong ↔ (2147483647 < length (pending self.old)) }
    {
        if self.end - self.start > LONGEST as usize {
            return Err(TakeFault::TooLong);
        }
        self.make_room().map_err(|_| TakeFault::Memory)?;
        match read_after(&mut self.stream, &mut self.bytes, self.end) {
            Ok(0) => self.is_ended = true,
            Ok(count) => self.end += count,
            Err(error) => return Err(TakeFault::Failed(error)),
        }
        Ok(())
    }
}
