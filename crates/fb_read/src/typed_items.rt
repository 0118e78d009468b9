//! Vectors of numbers and of texts in bytes: how their elements are read is known once for all of them.
ghost use Rattle.std.specs.Prelude.{◌≡◌, ℕ, ◌+◌, ◌*◌, ◌<◌, ◌≤◌, ◌^◌, length};
ghost use Rattle.fb_schema.specs.Alignments.{base_size};
ghost use Rattle.fb_read.specs.Stored.{IsTextBehind};

use crate::numbers::number_at;
use crate::places::text_behind;
use fb_schema::Base;

/// A vector of numbers in a buffer, read in place.
#[derive(Clone, Copy)]
pub struct NumberItems<'a> {
    pub(crate) bytes: &'a [u8],
    pub(crate) base: Base,
    pub(crate) at: usize,
    pub(crate) len: u32,
    ghost short: { length bytes.now < 2 ^ 31 },
    ghost within: { at + len * base_size base ≤ length bytes.now },
}

impl<'a> NumberItems<'a> {
    ghost use Rattle.fb_read.specs.TypedItems.{nth_number};

    /// How many numbers there are.
    #[inline]
    pub fn count(self) -> u32
        ensures { result ≡ self.entry.len }
    {
        self.len
    }

    /// One of them.
    #[inline]
    pub fn number(self, i: u32) -> i128
        requires { i < self.len }
        ensures { result ≡ nth_number self.entry i }
    {
        number_at(
            self.bytes,
            self.at + i as usize * usize::from(self.base.size()),
            self.base,
        )
    }
}

/// A vector of texts in a buffer, read in place.
#[derive(Clone, Copy)]
pub struct TextItems<'a> {
    pub(crate) bytes: &'a [u8],
    pub(crate) at: usize,
    pub(crate) len: u32,
    ghost short: { length bytes.now < 2 ^ 31 },
    ghost texts: { (i : ℕ) → i < len → IsTextBehind bytes.now (at + i * 4) },
}

impl<'a> TextItems<'a> {
    ghost use Rattle.fb_read.specs.TypedItems.{nth_text};

    /// How many texts there are.
    #[inline]
    pub fn count(self) -> u32
        ensures { result ≡ self.entry.len }
    {
        self.len
    }

    /// One of them, borrowed from the buffer.
    #[inline]
    pub fn text(self, i: u32) -> &'a str
        requires { i < self.len }
        ensures { result.now ≡ nth_text self.entry i }
    {
        text_behind(self.bytes, self.at + i as usize * 4)
    }
}
