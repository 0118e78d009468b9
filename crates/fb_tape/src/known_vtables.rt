//! The vtables of a tape, each once.
ghost use Rattle.std.specs.Prelude.{ℕ, ◌≡◌, ◌<◌, ◌++◌, ◌⊎◌, [], ◌∷◌, None, Some, length, slice_get, IfOk, OnErr};
ghost use Rattle.std.specs.Prelude.{◌↔◌, IsTrue, IfSome};
ghost use Rattle.fb_tape.specs.KnownVtables.{EachHasOneNumber, IsNumbered};

use byteorder::{ByteOrder, LittleEndian};
use fb_index::{DigestIndex, HashKey};
use std::alloc::{AllocError, Global};
use std::marker::Model;

/// Whether eight bytes are the same.
fn same_word(a: &[u8], b: &[u8]) -> bool
    requires a { length a.now ≡ 8 }
    requires b { length b.now ≡ 8 }
    ensures { IsTrue result ↔ (a.now ≡ b.now) }
{
    LittleEndian::read_u64(a) == LittleEndian::read_u64(b)
}

/// Whether vtables are the same. Those of a few slots are two words, which may overlap.
fn are_equal(a: &[u8], b: &[u8]) -> bool
    ensures { IsTrue result ↔ (a.now ≡ b.now) }
{
    if a.len() != b.len() {
        return false;
    }
    if a.len() < 8 || a.len() > 16 {
        return a == b;
    }
    let last = a.len() - 8;
    if !same_word(&a[..8], &b[..8]) {
        return false;
    }
    same_word(&a[last..], &b[last..])
}

/// Where a vtable's bytes are among those of all.
#[derive(Clone, Copy)]
pub(crate) struct VtableRange {
    first: usize,
    size: usize,
}

/// Vtables, each once, numbered as they come.
#[derive(Drop)]
pub(crate) struct KnownVtables {
    key: HashKey,
    digests: DigestIndex,
    ranges: Vec<VtableRange>,
    bytes: Vec<u8>,
    // The one that was found last. It and the one after it are compared first, since vtables come again in about the
    // same order.
    last: usize,
}

impl Model for KnownVtables {
    ghost use Rattle.std.specs.Prelude.{List};
    ghost use Rattle.fb_value.specs.Num.{Bytes};

    ghost Value = { List Bytes };

    ghost use Rattle.fb_tape.specs.VtablesHeld.{vtables_seen, AreHeld};

    ghost view = { vtables_seen };

    ghost invariant = { AreHeld };
}

impl KnownVtables {
    /// No vtable yet; what is hashed is hashed with a key.
    pub(crate) fn new(alloc: Global, key: HashKey) -> KnownVtables
        ensures none { result ≡ [] }
    {
        KnownVtables {
            key,
            digests: DigestIndex::new(alloc, key),
            ranges: Vec::new(alloc),
            bytes: Vec::new(alloc),
            last: 0,
        }
    }

    /// How many there are.
    pub(crate) fn len(&self) -> usize
        ensures exact { result ≡ length self.now }
        ensures one { EachHasOneNumber self.now }
    {
        self.ranges.len()
    }

    /// The vtable of a number.
    pub(crate) fn vtable(&self, number: usize) -> &[u8]
        requires within { number < length self.now }
        ensures is { slice_get self.now number ≡ Some result.now }
    {
        let range = self.ranges[number];
        &self.bytes[range.first..range.first + range.size]
    }

    /// Whether the vtable of a number has these bytes.
    fn is_at(&self, number: usize, vtable: &[u8]) -> bool
        ensures { IsTrue result ↔ (slice_get self.now number ≡ Some vtable.now) }
    {
        number < self.ranges.len() && are_equal(self.vtable(number), vtable)
    }

    /// The number after that which was found last; after the last of all is the first.
    fn next(&self) -> usize {
        let next = self.last.saturating_add(1);
        if next < self.ranges.len() { next } else { 0 }
    }

    /// The number of the vtable with these bytes, if it is known.
    fn find(&self, vtable: &[u8]) -> Option<usize>
        ensures found { IfSome result (λ number. slice_get self.now number ≡ Some vtable.now) }
        ensures absent { result ≡ None → (number : ℕ) → slice_get self.now number ≡ Some vtable.now → ⊥ }
    {
        let next = self.next();
        if self.is_at(next, vtable) {
            return Some(next);
        }
        if self.is_at(self.last, vtable) {
            return Some(self.last);
        }
        let digest = self.key.digest(vtable);
        self.digests
            .find(digest, |number| self.is_at(number, vtable))
    }

    /// The number of the vtable with these bytes, which is noted if it isn't known.
    pub(crate) fn number_of(&mut self, vtable: &[u8]) -> Result<usize, AllocError>
        ensures numbered { IfOk result (IsNumbered self.old self.new vtable.now) }
        ensures kept { OnErr result (self.new ≡ self.old) }
    {
        if let Some(number) = self.find(vtable) {
            self.last = number;
            return Ok(number);
        }
        self.digests.reserve(1)?;
        self.ranges.reserve(1)?;
        let range = VtableRange {
            first: self.bytes.len(),
            size: vtable.len(),
        };
        self.bytes.extend_from_slice(vtable)?;
        self.digests.push_reserved(self.key.digest(vtable));
        self.ranges.push_reserved(range);
        Ok(self.ranges.len() - 1)
    }
}
