//! Tables that lie in bytes, and what their slots have.
ghost use Rattle.std.specs.Prelude.{◌≡◌, ℕ, ◌+◌, ◌<◌, ◌≤◌, ◌^◌, length, option_copied, slice_get, IfSome, IsTrue, Some};
ghost use Rattle.std.specs.Prelude.{true};
ghost use Rattle.fb_layout.specs.Laid.{Slot, slots_of};
ghost use Rattle.fb_value.specs.Counts.{is_whole};
ghost use Rattle.fb_value.specs.Datum.{Datum};
ghost use Rattle.fb_value.specs.Num.{num};
ghost use Rattle.fb_value.specs.Places.{table_part, part_place, vtable};
ghost use Rattle.fb_value.specs.Lies.{Lies};
ghost use Rattle.fb_read.specs.Stored.{StoredAs, number_entry};
ghost use Rattle.fb_read.specs.Views.{entry_of, number_in, text_in, unknown_in};

use crate::entry::Entry;
use crate::fixed_view::FixedView;
use crate::items::Items;
use crate::numbers::{number_at, u32_at};
use crate::places::{next_stored, stored_slots, text_behind, vtable_of};
use crate::stored::{Stored, stored_in};
use crate::walk::TableAt;
use fb_layout::Layout;
use fb_schema::TypeId;

/// A table in a buffer, read in place.
#[derive(Clone, Copy)]
pub struct View<'a> {
    pub layout: &'a Layout,
    pub bytes: &'a [u8],
    pub table: TypeId,
    pub at: usize,
    /// The place of its vtable, which is found once for all slots.
    pub(crate) vtable_at: u32,
    /// Set where it is known that each union's code in the table is known to the schema.
    pub(crate) whole: bool,
    ghost short: { length bytes.now < 2 ^ 31 },
    ghost vtable: { vtable_at ≡ vtable bytes.now at },
    ghost vtable_whole: { vtable_at + num bytes.now vtable_at 2 ≤ length bytes.now },
    ghost vtable_within: { vtable_at + 2 ≤ length bytes.now },
    ghost lies: { ∥ ((d : Datum) × Lies layout.now bytes.now (part_place (table_part table.0)) at d) ∥₁ },
    ghost known: { IsTrue whole → (d : Datum) → Lies layout.now bytes.now (part_place (table_part table.0)) at d
        → is_whole d ≡ true },
}

/// The place of the vtable of the table at a position.
#[inline]
pub(crate) fn vtable_in(layout: &Layout, bytes: &[u8], table: TypeId, at: usize) -> u32
    requires short { length bytes.now < 2 ^ 31 }
    requires lies { ∥ ((d : Datum) × Lies layout.now bytes.now (part_place (table_part table.0)) at d) ∥₁ }
    ensures vtable { result ≡ vtable bytes.now at }
    ensures whole { result + num bytes.now result 2 ≤ length bytes.now }
    ensures within { result + 2 ≤ length bytes.now }
{
    let _ = layout; // the contract names both, the code needs neither
    let _ = table;
    match vtable_of(bytes, at) {
        Some(place) => place as u32,
        None => 0,
    }
}

impl<'a> View<'a> {
    ghost use Rattle.fb_read.specs.Weights.{ShowsEntry, StandsBehind, weight_of, table_weight};
    ghost use Rattle.fb_read.specs.Shows.{Shows, ShowsTable, ShowsMember, ShowsStruct, ShowsVector};

    /// The layout.
    pub fn layout(self) -> &'a Layout
        ensures { result.now ≡ self.entry.layout.now }
    {
        self.layout
    }

    /// Whether it is known that the schema declares each union's code in the table. Where this isn't known, a search
    /// decides it.
    pub fn is_known_whole(self) -> bool
        ensures { IsTrue result → (d : Datum) → Shows self.entry d → is_whole d ≡ true }
    {
        self.whole
    }

    /// The table's type.
    pub fn type_id(self) -> TypeId
        ensures { result ≡ self.entry.table }
    {
        self.table
    }

    pub(crate) fn vtable(self) -> usize
        ensures vtable { result ≡ vtable self.entry.bytes.now self.entry.at }
        ensures whole { result + num self.entry.bytes.now result 2 ≤ length self.entry.bytes.now }
        ensures within { result + 2 ≤ length self.entry.bytes.now }
        ensures low { self.entry.at < 2 ^ 32 }
    {
        self.vtable_at as usize
    }

    pub(crate) fn stored(self, slot: u16) -> Stored
        ensures stands { (d : Datum) → Shows self.entry d
            → StoredAs self.entry.layout.now self.entry.bytes.now result (entry_of d slot) }
        ensures behind { StandsBehind self.entry.at result }
    {
        let slots = self.layout.slots_of(self.table);
        let slot = usize::from(slot);
        if slot >= slots.len() {
            return Stored::Absent(None);
        }
        let (_before, later) = slots.split_at(slot + 1);
        let table_at = TableAt {
            at: self.at,
            vtable_at: self.vtable(),
        };
        stored_in(self.layout, self.bytes, &slots[slot], later, table_at, slot)
    }

    /// The number in a slot; an absent scalar's is its default.
    pub fn number(self, slot: u16) -> Option<i128>
        ensures { (d : Datum) → Shows self.entry d → result ≡ number_in (entry_of d slot) }
    {
        let stored = self.stored(slot);
        match stored.number() {
            Some((base, at)) => Some(number_at(self.bytes, at, base)),
            None => stored.default(),
        }
    }

    /// The string in a slot, borrowed from the buffer.
    pub fn text(self, slot: u16) -> Option<&'a str>
        ensures { (d : Datum) → Shows self.entry d → option_copied result ≡ text_in (entry_of d slot) }
    {
        let at = self.stored(slot).text()?;
        Some(text_behind(self.bytes, at))
    }

    /// A union's code in a slot that no member has.
    pub fn other(self, slot: u16) -> Option<u8>
        ensures { (d : Datum) → Shows self.entry d → result ≡ unknown_in (entry_of d slot) }
    {
        self.stored(slot).unknown()
    }

    /// The table in a slot.
    pub fn table(self, slot: u16) -> Option<View<'a>>
        ensures shows { (d : Datum) → Shows self.entry d → ShowsTable result (entry_of d slot) }
        ensures layout { IfSome result (λ view. view.layout.now ≡ self.entry.layout.now) }
    {
        let (table, place) = self.stored(slot).table()?;
        let at = place + u32_at(self.bytes, place) as usize;
        Some(View {
            layout: self.layout,
            bytes: self.bytes,
            table,
            at,
            vtable_at: vtable_in(self.layout, self.bytes, table, at),
            whole: self.whole,
        })
    }

    /// The member in a union's slot, under its code.
    pub fn member(self, slot: u16) -> Option<(u8, View<'a>)>
        ensures shows { (d : Datum) → Shows self.entry d → ShowsMember result (entry_of d slot) }
        ensures layout { IfSome result (λ member. member.1.layout.now ≡ self.entry.layout.now) }
    {
        let (code, table, place) = self.stored(slot).member()?;
        let at = place + u32_at(self.bytes, place) as usize;
        let view = View {
            layout: self.layout,
            bytes: self.bytes,
            table,
            at,
            vtable_at: vtable_in(self.layout, self.bytes, table, at),
            whole: self.whole,
        };
        Some((code, view))
    }

    /// The struct in a slot.
    pub fn fixed(self, slot: u16) -> Option<FixedView<'a>>
        ensures shows { (d : Datum) → Shows self.entry d → ShowsStruct result (entry_of d slot) }
        ensures layout { IfSome result (λ view. view.layout.now ≡ self.entry.layout.now) }
    {
        let (structure, at) = self.stored(slot).structure()?;
        Some(FixedView {
            layout: self.layout,
            bytes: self.bytes,
            structure,
            at,
        })
    }

    /// The vector in a slot.
    pub fn items(self, slot: u16) -> Option<Items<'a>>
        ensures shows { (d : Datum) → Shows self.entry d → ShowsVector result (entry_of d slot) }
        ensures layout { IfSome result (λ items. items.layout.now ≡ self.entry.layout.now) }
    {
        let (kind, at) = self.stored(slot).vector()?;
        let target = at + u32_at(self.bytes, at) as usize;
        Some(Items {
            layout: self.layout,
            bytes: self.bytes,
            kind,
            at: target + 4,
            len: u32_at(self.bytes, target),
            whole: self.whole,
        })
    }

    /// What a slot has.
    pub fn slot(self, slot: u16) -> Entry<'a>
        ensures shows { (d : Datum) → Shows self.entry d
            → ShowsEntry self.entry.layout.now result (entry_of d slot) }
        ensures lighter { weight_of result < table_weight self.entry }
    {
        let layout = self.layout;
        let bytes = self.bytes;
        match self.stored(slot) {
            Stored::Absent(None) | Stored::Code(_, _) => Entry::Absent,
            Stored::Absent(Some(number)) => Entry::Number(number),
            Stored::Unknown(code, _) => Entry::Unknown(code),
            Stored::Number(base, at) => Entry::Number(number_at(bytes, at, base)),
            Stored::Text(at) => Entry::Text(text_behind(bytes, at)),
            Stored::Fixed(structure, at) => Entry::Fixed(FixedView {
                layout,
                bytes,
                structure,
                at,
            }),
            Stored::Table(table, place) => {
                let at = place + u32_at(bytes, place) as usize;
                Entry::Table(View {
                    layout,
                    bytes,
                    table,
                    at,
                    vtable_at: vtable_in(layout, bytes, table, at),
                    whole: self.whole,
                })
            }
            Stored::Member(code, table, place) => {
                let at = place + u32_at(bytes, place) as usize;
                Entry::Member(
                    code,
                    View {
                        layout,
                        bytes,
                        table,
                        at,
                        vtable_at: vtable_in(layout, bytes, table, at),
                        whole: self.whole,
                    },
                )
            }
            Stored::Vector(kind, at) => {
                let target = at + u32_at(bytes, at) as usize;
                let len = u32_at(bytes, target);
                Entry::Vector(Items {
                    layout,
                    bytes,
                    kind,
                    at: target + 4,
                    len,
                    whole: self.whole,
                })
            }
        }
    }

    /// How many of the table's slots its vtable has numbers for. Those after them have nothing but
    /// their defaults.
    pub fn stored_slots(self) -> u16
        ensures few { result ≤ length (slots_of self.entry.layout.now self.entry.table.0) }
        ensures behind { (d : Datum) (k : ℕ) (s : Slot) → Shows self.entry d → result ≤ k
            → slice_get (slots_of self.entry.layout.now self.entry.table.0) k ≡ Some s
            → entry_of d k ≡ number_entry s.if_absent }
    {
        let slots = self.layout.slots_of(self.table);
        stored_slots(self.bytes, self.at, self.vtable(), slots.len()) as u16
    }

    /// The first slot, from a slot on, that has something stored; the end where none before it has. Those
    /// that it passes by have nothing but their defaults.
    pub fn next_stored(self, from: usize, end: usize) -> usize
        requires within { from ≤ end }
        ensures from { from ≤ result }
        ensures within { result ≤ end }
        ensures unset { (d : Datum) (k : ℕ) (s : Slot) → Shows self.entry d → from ≤ k → k < result
            → slice_get (slots_of self.entry.layout.now self.entry.table.0) k ≡ Some s
            → entry_of d k ≡ number_entry s.if_absent }
    {
        next_stored(self.bytes, self.at, self.vtable(), from, end)
    }
}
