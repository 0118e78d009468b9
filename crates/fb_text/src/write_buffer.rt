//! Bytes that are collected before they are written.
ghost use Rattle.std.specs.Prelude.{◌≡◌, ◌≤◌, ◌+◌, [], ◌++◌, length, take, true};
ghost use Rattle.fb_text.specs.declared.write_buffer.TheConstants.{CAPACITY};

/// How many bytes a write buffer takes: as many as Rust's `BufWriter` collects. It is set to zero for each
/// writer, which a larger buffer would make the most part of printing a short text.
const CAPACITY: usize = 8_192;

/// Bytes of a text that wait to be written, so that a writer gets few large pieces, and how many
/// were written before. They take no allocation.
#[derive(Drop)]
pub(crate) struct WriteBuffer {
    bytes: [u8; CAPACITY],
    len: usize,
    written: u64,
    ghost within: { len ≤ CAPACITY },
}

impl WriteBuffer {
    ghost use Rattle.fb_text.specs.WriteBuffers.{pending, written_before};

    /// A write buffer without bytes, in front of which none were written.
    pub(crate) fn new() -> WriteBuffer
        ensures pending { pending result ≡ [] }
        ensures written { written_before result ≡ 0 }
    {
        WriteBuffer {
            bytes: [0; CAPACITY],
            len: 0,
            written: 0,
        }
    }

    /// The bytes that wait.
    pub(crate) fn pending(&self) -> &[u8]
        ensures { result.now ≡ pending self.now }
    {
        &self.bytes[..self.len]
    }

    /// Whether these bytes have room after those that wait.
    pub(crate) fn has_room(&self, more: usize) -> bool
        ensures { result ≡ true → length (pending self.now) + more ≤ CAPACITY }
    {
        more <= CAPACITY - self.len
    }

    /// Adds bytes to those that wait.
    pub(crate) fn add(&mut self, more: &[u8])
        requires { length (pending self.old) + length more.now ≤ CAPACITY }
        ensures pending { pending self.new ≡ pending self.old ++ more.now }
        ensures written { written_before self.new ≡ written_before self.old }
    {
        let end = self.len + more.len();
        self.bytes[self.len..end].copy_from_slice(more);
        self.len = end;
    }

    /// Adds the first bytes of a piece that is copied whole, as one load and one store.
    #[inline]
    pub(crate) fn add_front(&mut self, piece: &[u8; 16], len: usize)
        requires few { len ≤ 16 }
        requires room { length (pending self.old) + 16 ≤ CAPACITY }
        ensures pending { pending self.new ≡ pending self.old ++ take len piece.now }
        ensures written { written_before self.new ≡ written_before self.old }
    {
        let end = self.len + piece.len();
        self.bytes[self.len..end].copy_from_slice(piece);
        self.len += len;
    }

    /// Begins anew, with no bytes, once so many were written.
    pub(crate) fn restart(&mut self, written: u64)
        ensures pending { pending self.new ≡ [] }
        ensures written { written_before self.new ≡ written }
    {
        self.len = 0;
        self.written = written;
    }

    /// How many bytes were written before those that wait.
    pub(crate) fn written(&self) -> u64
        ensures { result ≡ written_before self.now }
    {
        self.written
    }
}
