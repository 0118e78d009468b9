//! What a printer reads values from.
ghost use Rattle.std.specs.Prelude.{◌≡◌, ℕ, ◌<◌, ◌≤◌, max, Option, Some, None, length, slice_get, false, IfSome};
ghost use Rattle.fb_schema.specs.Schema.{DeclaredField, body_at, slots_in};
ghost use Rattle.fb_layout.specs.Laid.{LaidSchema};
ghost use Rattle.fb_value.specs.Datum.{Datum, Parts, SlotEntries, count, a_vector, a_table};
ghost use Rattle.fb_value.specs.Nth.{nth_entry};
ghost use Rattle.fb_read.specs.TypedItems.{AreNumbers, AreTexts};
ghost use Rattle.fb_json.specs.declared.faults.Place.{Place};
ghost use Rattle.fb_text.specs.Printed.{is_entry_printed, first_in_entry};
ghost use Rattle.fb_text.specs.Shown.{IsTop, HasWeight};
ghost use Rattle.fb_text.specs.Unnamed.{nth_child, unnamed_from};

use fb_read::{NumberItems, TextItems};
use fb_schema::TypeId;

/// What a value is, without its parts; `Absent` where none is read.
#[derive(Clone, Copy, Debug, PartialEq, Eq)]
pub enum ValueHead<'a> {
    Absent,
    Number(i128),
    Text(&'a str),
    Vector,
    Struct,
    Table(TypeId),
    /// A union's member, under its code.
    Member(u8),
    /// A union's code that no member has.
    Unknown,
}

/// Where a value is read, if there is one: in a buffer or in a `Value`.
///
/// A child is lighter than what it is in, so that reading ends.
pub trait Shown: Copy {
    ghost shows: { Self → LaidSchema → Option Datum → Type 0 };

    ghost weight: { Self → ℕ };

    // Children are numbered below this or below 65,536.
    ghost width: { Self → ℕ };

    /// The head of the value that is there.
    fn head(&self) -> ValueHead<'_>
        ensures top { (L : LaidSchema) (o : Option Datum) → shows self.now L o → IsTop result o }
        ensures heavy { HasWeight result (weight self.now) };

    /// How many of a table's slots are to be read, of all that its type has. None after them is printed.
    fn printed_slots(self, defaults: bool, all: usize) -> usize
        ensures few { result ≤ all }
        ensures behind { (L : LaidSchema) (t : ℕ) (es : SlotEntries) (k : ℕ) (f : DeclaredField)
            → shows self L (Some (a_table t es)) → all ≡ length (slots_in (body_at L.schema t)) → result ≤ k
            → slice_get (slots_in (body_at L.schema t)) k ≡ Some f
            → is_entry_printed defaults f (nth_entry es k) ≡ false };

    /// The first of a table's slots, from a slot on, that may be printed; the end where none before it is.
    fn next_printed(self, defaults: bool, from: usize, end: usize) -> usize
        requires within { from ≤ end }
        ensures from { from ≤ result }
        ensures within { result ≤ end }
        ensures unprinted { (L : LaidSchema) (t : ℕ) (es : SlotEntries) (k : ℕ) (f : DeclaredField)
            → shows self L (Some (a_table t es)) → from ≤ k → k < result
            → slice_get (slots_in (body_at L.schema t)) k ≡ Some f
            → is_entry_printed defaults f (nth_entry es k) ≡ false };

    /// How many elements a vector has.
    fn count(self) -> usize
        ensures few { result ≤ width self }
        ensures all { (L : LaidSchema) (ds : Parts) → shows self L (Some (a_vector ds)) → result ≡ count ds };

    /// The elements of a vector of numbers that is in a buffer, which are read without a walk.
    fn numbers(&self) -> Option<NumberItems<'_>>
        ensures { (L : LaidSchema) (ds : Parts) → shows self.now L (Some (a_vector ds))
            → IfSome result (λ numbers. AreNumbers numbers ds) };

    /// The same of a vector of texts.
    fn texts(&self) -> Option<TextItems<'_>>
        ensures { (L : LaidSchema) (ds : Parts) → shows self.now L (Some (a_vector ds))
            → IfSome result (λ texts. AreTexts texts ds) };

    /// How many of its children are to be searched for unions whose codes have no name. None after them is one
    /// or has one in it.
    fn searched(&self) -> usize
        ensures few { result ≤ max 65536 (width self.now) }
        ensures heavy { 0 < result → 0 < weight self.now }
        ensures behind { (L : LaidSchema) (o : Option Datum) (at : Place) → shows self.now L o
            → unnamed_from at o result ≡ None };

    /// The first child, from a child on, where something is stored; the end where none before it has. None that
    /// it passes by is such a union or has one in it.
    fn next_searched(&self, from: usize, end: usize) -> usize
        requires within { from ≤ end }
        ensures from { from ≤ result }
        ensures within { result ≤ end }
        ensures named { (L : LaidSchema) (o : Option Datum) (at : Place) (k : ℕ) → shows self.now L o → from ≤ k
            → k < result → first_in_entry at (nth_child o k) ≡ None };

    /// Whether a child may be such a union or have one in it, by its type.
    fn is_searched(&self, i: usize) -> bool
        ensures { (L : LaidSchema) (o : Option Datum) (at : Place) → shows self.now L o → result ≡ false
            → first_in_entry at (nth_child o i) ≡ None };

    /// The entry in a slot of a table, an element of a vector, a field of a struct, or the member of a union,
    /// which is number 0.
    fn child(self, i: usize) -> Self
        requires { i < max 65536 (width self) }
        ensures shows { (L : LaidSchema) (o : Option Datum) → shows self L o → shows result L (nth_child o i) }
        ensures lighter { 0 < weight self → weight result < weight self };
}
