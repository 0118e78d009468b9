//! Lays the vtables of a tape, each once, and what is before the fields of its tables.
ghost use Rattle.std.specs.Prelude.{ℕ, List, Option, Some, ◌≡◌, ◌≤◌, ◌<◌, ◌+◌, ◌-◌, ◌++◌, length, max};
ghost use Rattle.std.specs.Prelude.{slice_get, slice_index};
ghost use Rattle.byteorder.specs.Endian.{little_bytes};
ghost use Rattle.std.specs.Vec.{vec_capacity};
ghost use Rattle.fb_layout.specs.Laid.{LaidSchema};
ghost use Rattle.fb_value.specs.Datum.{Datum};
ghost use Rattle.fb_value.specs.Num.{Bytes};
ghost use Rattle.fb_build.specs.Lengths.{vtable_end, table_end};
ghost use Rattle.fb_build.specs.NumberedVtables.{IsVtableInTurn, IsVtableLaid, IsTableOpen, IsTableClosed};
ghost use Rattle.fb_build.specs.Tails.{Grows};

use crate::tail::{Tail, laid_is_short};
use fb_tape::Tape;
use std::marker::Model;

/// A vtable of a tape. Its bytes are looked up only where it is laid, which most tables do without.
#[derive(Drop)]
pub(crate) struct NumberedVtable<'t, 'l> {
    tape: &'t Tape<'l>,
    number: usize,
}

impl<'t, 'l> Model for NumberedVtable<'t, 'l> {
    ghost use Rattle.std.specs.Prelude.{◌<◌, [], length, slice_get, unwrap_or};
    ghost use Rattle.fb_value.specs.Num.{Bytes};

    ghost Value = { Bytes };

    ghost view = { λ v. unwrap_or (slice_get v.tape.now.vtables v.number) [] };

    ghost invariant = { λ v. v.number < length v.tape.now.vtables };
}

impl<'t, 'l> NumberedVtable<'t, 'l> {
    /// That of a number.
    pub(crate) fn new(tape: &'t Tape<'l>, number: usize) -> NumberedVtable<'t, 'l>
        requires within { number < length tape.now.vtables }
        ensures is { slice_get tape.now.vtables number ≡ Some result }
    {
        NumberedVtable { tape, number }
    }

    /// Its bytes.
    fn bytes(&self) -> &[u8]
        ensures exact { result.now ≡ self.now }
    {
        self.tape.vtable(self.number)
    }
}

/// What a table's first number is, where its vtable is laid before it.
fn way_back(place: u32, at: u32) -> u32
    requires some { 0 < at }
    requires before { at < place }
    ensures { result ≡ 4294967296 - (place - at) }
{
    u32::MAX - (place - at) + 1
}

/// Lays the first number of a table, and its vtable in front.
fn lay_new(out: &mut Tail, vtable: &[u8])
    requires room { 4 + length vtable.now ≤ out.old.free }
    requires short { length vtable.now ≤ 65534 }
    ensures bytes { out.new.bytes ≡ vtable.now ++ (little_bytes 4 (length vtable.now) ++ out.old.bytes) }
    ensures free { out.new.free + (4 + length vtable.now) ≡ out.old.free }
    ensures most { out.new.most ≡ out.old.most }
    ensures grows { Grows out.old out.new }
{
    out.lay_u32(vtable.len() as u32);
    out.lay(vtable);
}

/// Lays the first number of a table, and its vtable where that is the next to come, and returns how many bytes are laid
/// up to the table.
fn lay_vtable(
    out: &mut Tail,
    places: &mut Vec<u32>,
    number: usize,
    vtable: &NumberedVtable<'_, '_>,
) -> usize
    requires room { vtable_end (length vtable.now) number (length places.old.items) (length out.old.bytes)
        ≤ length out.old.bytes + out.old.free }
    requires short { length vtable.now ≤ 65534 }
    requires turn { number ≤ length places.old.items }
    requires reserved { number ≡ length places.old.items → length places.old.items < vec_capacity places.old }
    requires there { (i : ℕ) → i < length places.old.items → 0 < slice_index places.old.items i }
    requires inside { (i : ℕ) → slice_index places.old.items i ≤ length out.old.bytes }
    ensures laid { (vtables : List Bytes)
        → IsVtableInTurn vtables places.old.items number vtable.now out.old.bytes
        → IsVtableLaid vtables number vtable.now places.old.items places.new.items out.old.bytes out.new.bytes
        result }
    ensures place { result ≡ length out.old.bytes + 4 }
    ensures inside { result ≤ length out.new.bytes }
    ensures come { length places.new.items ≡ max (length places.old.items) (number + 1) }
    ensures capacity { vec_capacity places.new ≡ vec_capacity places.old }
    ensures long { length out.new.bytes
        ≡ vtable_end (length vtable.now) number (length places.old.items) (length out.old.bytes) }
    ensures most { out.new.most ≡ out.old.most }
    ensures grows { Grows out.old out.new }
{
    let place = out.count() + 4;
    if number < places.len() {
        out.lay_u32(way_back(place as u32, places[number]));
        return place;
    }
    lay_new(out, vtable.bytes());
    places.push_reserved(out.count() as u32);
    place
}

/// Lays what is before the fields of a table, and its vtable where that is the next to come, and returns how many bytes
/// are laid up to the table.
pub(crate) fn close_table(
    out: &mut Tail,
    places: &mut Vec<u32>,
    number: usize,
    vtable: &NumberedVtable<'_, '_>,
) -> usize
    requires room { table_end (length vtable.now) number (length places.old.items) (length out.old.bytes)
        ≤ length out.old.bytes + out.old.free }
    requires short { length vtable.now ≤ 65534 }
    requires turn { number ≤ length places.old.items }
    requires reserved { number ≡ length places.old.items → length places.old.items < vec_capacity places.old }
    requires there { (i : ℕ) → i < length places.old.items → 0 < slice_index places.old.items i }
    requires inside { (i : ℕ) → slice_index places.old.items i ≤ length out.old.bytes }
    ensures closed { (L : LaidSchema) (vtables : List Bytes) (t : ℕ) (entries : List (Option Datum)) (start : ℕ)
        (targets : List ℕ) → IsTableOpen L vtables t entries start targets places.old.items number vtable.now out.old
        → IsTableClosed L vtables t entries start targets places.old.items places.new.items result out.old out.new }
    ensures inside { result ≤ length out.new.bytes }
    ensures come { length places.new.items ≡ max (length places.old.items) (number + 1) }
    ensures capacity { vec_capacity places.new ≡ vec_capacity places.old }
    ensures long { length out.new.bytes
        ≡ table_end (length vtable.now) number (length places.old.items) (length out.old.bytes) }
    ensures most { out.new.most ≡ max out.old.most 4 }
    ensures grows { Grows out.old out.new }
{
    laid_is_short(out);
    out.fit(4, 0);
    lay_vtable(out, places, number, vtable)
}
