//! An index of things that are kept elsewhere, by digests of them.
ghost use Rattle.std.specs.Prelude.{◌≡◌, ◌≤◌, ◌<◌, ◌+◌, ◌^◌, ℕ, [], length, nat_eq};
ghost use Rattle.std.specs.Prelude.{true, false, IfNone, IfSome, OnOk};
ghost use Rattle.std.specs.List.{list_any};
ghost use Rattle.fb_index.specs.DigestIndexes.{key_after, IsAt, KeepsPlaces};

use crate::hash_key::HashKey;
use indexmap::IndexSet;
use std::alloc::{AllocError, Global};
use std::marker::Model;

type Keys = IndexSet<u32, HashKey>;

/// An index of things by digests of them.
///
/// Places are counted from 0 in the order of insertion. The index keeps 32 bits for each place and none of the things:
/// a search compares what it looks for at the places that are possible. Equal digests cost one comparison each, and
/// change no result.
#[derive(Drop)]
pub struct DigestIndex {
    // The key of each place: the lower half of its digest, or the first number after it that was free.
    keys: Keys,
}

impl Model for DigestIndex {
    ghost use Rattle.fb_index.specs.DigestIndexes.{Digested, digested_seen};

    ghost Value = { Digested };

    ghost view = { digested_seen };
}

/// The 32-bit number `steps` after a digest; 0 follows the largest.
fn key_after(digest: u64, steps: usize) -> u32
    ensures { result ≡ key_after digest steps }
{
    (digest.wrapping_add(steps as u64) & 0xFFFF_FFFF) as u32
}

/// The first number from a digest on that is no key.
fn free_key(taken: &Keys, digest: u64) -> u32
    requires few { length taken.now.keys + 1 < 2 ^ 32 }
    ensures free { list_any (nat_eq result) taken.now.keys ≡ false }
    ensures first { (steps : ℕ) × (steps ≤ length taken.now.keys) × (result ≡ key_after digest steps)
        × ((n : ℕ) → n < steps → list_any (nat_eq (key_after digest n)) taken.now.keys ≡ true) }
{
    for steps in 0..taken.len() + 1 {
        let key = key_after(digest, steps);
        if !taken.contains(&key) {
            return key;
        }
    }
    unreachable!()
}

impl DigestIndex {
    /// An empty index, whose table hashes with `key`.
    pub fn new(alloc: Global, key: HashKey) -> DigestIndex
        ensures { result.keys ≡ [] }
    {
        DigestIndex {
            keys: IndexSet::with_hasher(alloc, key),
        }
    }

    /// The number of places.
    pub fn len(&self) -> usize
        ensures { result ≡ length self.now.keys }
    {
        self.keys.len()
    }

    /// Makes room for `more` places. The only error is a refused allocation.
    pub fn reserve(&mut self, more: usize) -> Result<(), AllocError>
        ensures keys { self.new.keys ≡ self.old.keys }
        ensures spare { OnOk result (more ≤ self.new.spare) }
    {
        // An `IndexSet` has no room for more either.
        if more > (u32::MAX as usize).saturating_sub(self.keys.len()) {
            return Err(AllocError);
        }
        self.keys.reserve(more)
    }

    /// Tests the places that a digest can be at, and returns the first that passes. If none is returned, the test fails
    /// at each place that this digest was inserted at.
    pub fn find<F: Fn(usize) -> bool>(&self, digest: u64, is_there: F) -> Option<usize>
        requires callable { F.IsAlwaysCallable is_there }
        ensures found { IfSome result (λ place. (place < length self.now.keys) × F.post is_there place true) }
        ensures absent { IfNone result ((place : ℕ) → IsAt self.now.keys digest place
            → F.post is_there place false) }
    {
        for steps in 0..self.keys.len() {
            let place = self.keys.get_index_of(&key_after(digest, steps))?;
            if is_there(place) {
                return Some(place);
            }
        }
        None
    }

    /// Inserts a digest at the next place.
    pub fn push_reserved(&mut self, digest: u64)
        requires spare { 0 < self.old.spare }
        ensures at { IsAt self.new.keys digest (length self.old.keys) }
        ensures kept { KeepsPlaces self.old.keys self.new.keys }
        ensures one { length self.new.keys ≡ length self.old.keys + 1 }
        ensures spare { self.old.spare ≤ self.new.spare + 1 }
    {
        let key = free_key(&self.keys, digest);
        match self.keys.insert(key) {
            Ok(_) => {}
            Err(_) => unreachable!(),
        }
    }
}
