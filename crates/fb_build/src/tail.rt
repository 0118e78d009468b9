//! Bytes that are laid from their end.
ghost use Rattle.std.specs.Prelude.{◌≡◌, ◌≤◌, ◌<◌, ◌+◌, ◌-◌, ◌%◌, ◌++◌};
ghost use Rattle.std.specs.Prelude.{length, replicate, max, true};
ghost use Rattle.fb_value.specs.Num.{divides};
ghost use Rattle.fb_value.specs.Bounds.{most_bytes};
ghost use Rattle.byteorder.specs.Endian.{little_bytes};
ghost use Rattle.fb_layout.specs.Sizes.{IsAlignment};
ghost use Rattle.fb_build.specs.Tails.{Grows};

use crate::blocks::{end_of, put_in_front};
use crate::padding::zeros_to;
use byteorder::{ByteOrder, LittleEndian};
use std::marker::Model;

/// A block of zeros whose end is filled.
#[derive(Drop)]
pub(crate) struct Tail {
    block: Vec<u8>,
    free: usize,
    most: usize,
}

impl Model for Tail {
    ghost use Rattle.std.specs.Prelude.{◌≡◌, ◌≤◌, ◌+◌, ◌++◌, length, take, drop, replicate};
    ghost use Rattle.fb_layout.specs.Sizes.{IsAlignment};
    ghost use Rattle.fb_value.specs.Bounds.{most_bytes};
    ghost use Rattle.fb_build.specs.Tails.{TailSeen};

    ghost Value = { TailSeen };

    ghost view = { λ t. record {
      free = t.free;
      bytes = drop t.free t.block.items;
      most = t.most;
    } };

    ghost invariant = { λ t. (t.free ≤ length t.block.items)
        × (length t.block.items ≤ most_bytes)
        × (take t.free t.block.items ≡ replicate t.free 0) × IsAlignment t.most };
}

impl Tail {
    /// A block of zeros.
    pub(crate) fn new(block: Vec<u8>) -> Tail
        requires short { length block.items ≤ most_bytes }
        requires zeros { block.items ≡ replicate (length block.items) 0 }
        ensures free { result.free ≡ length block.items }
        ensures bytes { length result.bytes ≡ 0 }
        ensures most { result.most ≡ 4 }
    {
        let free = block.len();
        Tail {
            block,
            free,
            most: 4,
        }
    }

    /// How many bytes are laid.
    pub(crate) fn count(&self) -> usize
        ensures exact { result ≡ length self.now.bytes }
        ensures short { self.now.free + result ≤ most_bytes }
    {
        self.block.len() - self.free
    }

    /// The greatest multiple that was padded to.
    pub(crate) fn most(&self) -> usize
        ensures exact { result ≡ self.now.most }
        ensures power { IsAlignment result }
    {
        self.most
    }

    fn put(&mut self, bytes: &[u8])
        requires room { length bytes.now ≤ self.old.free }
        ensures bytes { self.new.bytes ≡ bytes.now ++ self.old.bytes }
        ensures free { self.new.free + length bytes.now ≡ self.old.free }
        ensures most { self.new.most ≡ self.old.most }
    {
        self.free = put_in_front(&mut self.block, self.free, bytes);
    }

    /// Lays bytes.
    #[tactic(auto, using(crate::proofs::tail::WhatIsLaidStaysLaid::grows_by))]
    pub(crate) fn lay(&mut self, bytes: &[u8])
        requires room { length bytes.now ≤ self.old.free }
        ensures bytes { self.new.bytes ≡ bytes.now ++ self.old.bytes }
        ensures free { self.new.free + length bytes.now ≡ self.old.free }
        ensures most { self.new.most ≡ self.old.most }
        ensures grows { Grows self.old self.new }
    {
        self.put(bytes);
    }

    /// Lays the bytes of a number or a struct. Those of a short number are copied by one store, since their count is
    /// known then.
    #[tactic(auto, using(crate::proofs::tail::WhatIsLaidStaysLaid::grows_by))]
    pub(crate) fn lay_number(&mut self, bytes: &[u8])
        requires room { length bytes.now ≤ self.old.free }
        ensures bytes { self.new.bytes ≡ bytes.now ++ self.old.bytes }
        ensures free { self.new.free + length bytes.now ≡ self.old.free }
        ensures most { self.new.most ≡ self.old.most }
        ensures grows { Grows self.old self.new }
    {
        match bytes.len() {
            4 => self.put(&bytes[..4]),
            2 => self.put(&bytes[..2]),
            1 => self.put(&bytes[..1]),
            _ => self.put(bytes),
        }
    }

    /// Lays a number of four bytes.
    pub(crate) fn lay_u32(&mut self, number: u32)
        requires room { 4 ≤ self.old.free }
        ensures bytes { self.new.bytes ≡ little_bytes 4 number ++ self.old.bytes }
        ensures free { self.new.free + 4 ≡ self.old.free }
        ensures most { self.new.most ≡ self.old.most }
        ensures grows { Grows self.old self.new }
    {
        let mut bytes = [0u8; 4];
        LittleEndian::write_u32(&mut bytes, number);
        self.lay(&bytes);
    }

    fn skip(&mut self, zeros: usize)
        requires room { zeros ≤ self.old.free }
        ensures bytes { self.new.bytes ≡ replicate zeros 0 ++ self.old.bytes }
        ensures free { self.new.free + zeros ≡ self.old.free }
        ensures most { self.new.most ≡ self.old.most }
    {
        self.free -= zeros;
    }

    fn widen(&mut self, align: usize)
        requires power { IsAlignment align }
        ensures bytes { self.new.bytes ≡ self.old.bytes }
        ensures free { self.new.free ≡ self.old.free }
        ensures most { self.new.most ≡ max self.old.most align }
        ensures power { IsAlignment self.old.most }
    {
        self.most = self.most.max(align);
    }

    /// Takes zeros that are already there, so that so many more bytes end at a multiple.
    pub(crate) fn fit(&mut self, align: usize, more: usize) -> usize
        requires power { IsAlignment align }
        requires short { more ≤ 2147483648 }
        requires room { (align - (length self.old.bytes + more) % align) % align ≤ self.old.free }
        ensures bytes { self.new.bytes ≡ replicate result 0 ++ self.old.bytes }
        ensures free { self.new.free + result ≡ self.old.free }
        ensures exact { result ≡ (align - (length self.old.bytes + more) % align) % align }
        ensures under { result < align }
        ensures multiple { (length self.new.bytes + more) % align ≡ 0 }
        ensures most { self.new.most ≡ max self.old.most align }
        ensures wide { divides align self.new.most ≡ true }
        ensures grows { Grows self.old self.new }
    {
        let after = self.count() + more;
        let zeros = zeros_to(align, after);
        self.skip(zeros);
        self.widen(align);
        zeros
    }

    /// The bytes that are laid.
    pub(crate) fn into_bytes(self) -> Vec<u8>
        ensures { result.items ≡ self.bytes }
    {
        end_of(self.block, self.free)
    }
}

/// What is laid and what is free are short together: a block is shorter than 2 GiB.
pub(crate) fn laid_is_short(tail: &Tail)
    ensures { tail.now.free + length tail.now.bytes ≤ most_bytes }
{
    let _count = tail.count();
}
