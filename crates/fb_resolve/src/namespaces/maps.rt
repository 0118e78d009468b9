//! Many persistent maps from numbers to numbers, which share what they have in common.
ghost use Rattle.std.specs.Prelude.{◌≡◌, ◌+◌, ◌^◌, ◌<◌, ◌≤◌, ◌==◌, ◌++◌, ℕ, [], ◌∷◌, length, slice_get};
ghost use Rattle.std.specs.Prelude.{IfOk, OnErr, None, Some, if◌then◌else◌};
ghost use Rattle.std.specs.Option.{option_or};
ghost use Rattle.fb_resolve.specs.Maps.{empty_fork, leaf_or, side, with_side, leaf_in, value_in};
ghost use Rattle.fb_resolve.specs.Maps.{IsMapIn, IsMap, AreMaps, KeepsForks, KeepsMaps};

use std::alloc::{AllocError, Global};

/// Where a search for a key goes on, by the lowest bit of the key.
#[derive(Clone, Copy)]
struct Fork {
    zero: usize,
    one: usize,
}

impl Fork {
    /// The side of a key.
    fn side(self, key: usize) -> usize
        ensures { result ≡ side self key }
    {
        if key % 2 == 0 { self.zero } else { self.one }
    }

    /// The fork with another side for a key.
    fn with_side(self, key: usize, other: usize) -> Fork
        ensures { result ≡ with_side self key other }
    {
        if key % 2 == 0 {
            Fork {
                zero: other,
                ..self
            }
        } else {
            Fork { one: other, ..self }
        }
    }
}

/// Maps from keys below 2 to the power of `height`, each named by a number; 0 names the empty one.
#[derive(Drop)]
pub(crate) struct Maps {
    forks: Vec<Fork>,
    height: u32,
}

impl Maps {
    /// The empty map alone, for keys below `keys`, with room for `entries`. The only error is a refused
    /// allocation.
    pub(crate) fn new(alloc: Global, keys: usize, entries: usize) -> Result<Maps, AllocError>
        ensures maps { IfOk result (λ m. AreMaps m) }
        ensures room { IfOk result (λ m. keys ≤ 2 ^ m.height) }
        ensures map { IfOk result (λ m. IsMap m 0) }
        ensures empty { IfOk result (λ m. (key : ℕ) → value_in m 0 key ≡ None) }
    {
        let height = usize::BITS - keys.saturating_sub(1).leading_zeros();
        let room = entries.saturating_mul(height as usize);
        let mut forks = Vec::with_capacity(alloc, room.saturating_add(1))?;
        forks.push(Fork { zero: 0, one: 0 })?;
        Ok(Maps { forks, height })
    }

    /// What a map has for a key.
    pub(crate) fn get(&self, map: usize, key: usize) -> Option<usize>
        requires { IsMap self.now map }
        ensures { result ≡ value_in self.now map key }
    {
        let mut place = map;
        let mut left = key;
        for _level in 0..self.height {
            place = self.forks[place].side(left);
            left /= 2;
        }
        if left == 0 {
            place.checked_sub(1)
        } else {
            None
        }
    }

    /// A map with one entry more, or with another value for the key. The only error is a refused allocation.
    pub(crate) fn insert(
        &mut self,
        map: usize,
        key: usize,
        value: usize,
    ) -> Result<usize, AllocError>
        requires maps { AreMaps self.old }
        requires map { IsMap self.old map }
        requires key { key < 2 ^ self.old.height }
        requires value { value < usize.MAX }
        ensures maps { AreMaps self.new }
        ensures height { self.new.height ≡ self.old.height }
        ensures kept { KeepsMaps self.old self.new }
        ensures map { IfOk result (λ made. IsMap self.new made) }
        ensures entries { IfOk result (λ made. (k : ℕ) →
            value_in self.new made k ≡ (if k == key then Some value else value_in self.old map k)) }
    {
        insert_in(&mut self.forks, self.height, map, key, value + 1)
    }

    /// The map that has the entries of the inner map and, for all other keys, those of the outer one.
    /// The only error is a refused allocation.
    pub(crate) fn overlay(&mut self, inner: usize, outer: usize) -> Result<usize, AllocError>
        requires maps { AreMaps self.old }
        requires inner { IsMap self.old inner }
        requires outer { IsMap self.old outer }
        ensures maps { AreMaps self.new }
        ensures height { self.new.height ≡ self.old.height }
        ensures kept { KeepsMaps self.old self.new }
        ensures map { IfOk result (λ made. IsMap self.new made) }
        ensures entries { IfOk result (λ made. (k : ℕ) →
            value_in self.new made k ≡ option_or (value_in self.old inner k) (value_in self.old outer k)) }
    {
        overlay_in(&mut self.forks, self.height, inner, outer)
    }
}

/// Adds a fork, and returns its place.
fn add(forks: &mut Vec<Fork>, fork: Fork) -> Result<usize, AllocError>
    ensures kept { KeepsForks forks.old.items forks.new.items }
    ensures added { IfOk result (λ place. slice_get forks.new.items place ≡ Some fork) }
{
    let place = forks.len();
    forks.push(fork)?;
    Ok(place)
}

/// The place of a map with another leaf for one key, `levels` levels down.
fn insert_in(
    forks: &mut Vec<Fork>,
    levels: u32,
    place: usize,
    key: usize,
    leaf: usize,
) -> Result<usize, AllocError>
    requires map { IsMapIn forks.old.items levels place }
    requires key { key < 2 ^ levels }
    ensures kept { KeepsForks forks.old.items forks.new.items }
    ensures map { IfOk result (λ made. IsMapIn forks.new.items levels made) }
    ensures leaf { IfOk result (λ made. (k : ℕ) → leaf_in forks.new.items levels made k
        ≡ (if k == key then leaf else leaf_in forks.old.items levels place k)) }
{
    if levels == 0 {
        return Ok(leaf);
    }
    let fork = forks[place];
    let side = insert_in(forks, levels - 1, fork.side(key), key / 2, leaf)?;
    add(forks, fork.with_side(key, side))
}

/// The place of a map that has the leaves below the inner place or else, where there is none, below the outer one.
fn overlay_in(
    forks: &mut Vec<Fork>,
    levels: u32,
    inner: usize,
    outer: usize,
) -> Result<usize, AllocError>
    requires empty { slice_get forks.old.items 0 ≡ Some empty_fork }
    requires inner { IsMapIn forks.old.items levels inner }
    requires outer { IsMapIn forks.old.items levels outer }
    ensures kept { KeepsForks forks.old.items forks.new.items }
    ensures map { IfOk result (λ made. IsMapIn forks.new.items levels made) }
    ensures leaf { IfOk result (λ made. (k : ℕ) → leaf_in forks.new.items levels made k
        ≡ leaf_or (leaf_in forks.old.items levels inner k) (leaf_in forks.old.items levels outer k)) }
{
    if inner == 0 {
        return Ok(outer);
    }
    if outer == 0 || levels == 0 {
        return Ok(inner);
    }
    let above = forks[inner];
    let below = forks[outer];
    let zero = overlay_in(forks, levels - 1, above.zero, below.zero)?;
    let one = overlay_in(forks, levels - 1, above.one, below.one)?;
    add(forks, Fork { zero, one })
}
