//! The pieces of a buffer, noted part by part as a walk comes to them.
ghost use Rattle.std.specs.Prelude.{◌<◌, ◌^◌};

use crate::nodes::{Lead, Reached};
use crate::pieces::{BufferPiece, What};
use fb_index::HashKey;
use fb_layout::Layout;
use fb_read::{
    EnteredTable, Part, Step, Stored, check_stored, enter_vector, number_within, open_text,
};
use fb_schema::{Base, Shape};
use std::alloc::Global;

/// A part that the walk is at.
#[derive(Clone, Copy)]
struct WalkedPart<'a> {
    node: u32,
    /// The table, where the walk is at it for the first time and its own rules hold.
    table: Option<EnteredTable<'a>>,
    /// Which of its slots is noted next, and how many it has.
    next: u32,
    count: u32,
    /// Whether the walk is at it for the first time.
    is_first: bool,
}

/// What is noted of a buffer along a walk over it.
#[derive(Drop)]
pub(crate) struct Notes<'a> {
    pub layout: &'a Layout,
    pub bytes: &'a [u8],
    pub reached: Reached,
    pub pieces: Vec<BufferPiece>,
    /// The steps back from the fault that a walk has found, the last one first.
    pub way_back: Vec<Step>,
    /// Whether a walk was made, since the front keeps its rules.
    pub is_walked: bool,
    /// Whether something is missing since memory ran out.
    pub is_cut: bool,
    open: Vec<WalkedPart<'a>>,
    /// How many fields were noted that the tables' types don't have.
    unknown: usize,
}

/// A position as it is noted. Only the target of a last reference, past the bytes, may be beyond it.
fn position_of(at: usize) -> u32 {
    u32::try_from(at).unwrap_or(u32::MAX)
}

impl<'a> Notes<'a> {
    /// Nothing is noted yet.
    pub(crate) fn new(alloc: Global, layout: &'a Layout, bytes: &'a [u8]) -> Notes<'a> {
        Notes {
            layout,
            bytes,
            reached: Reached::new(alloc, HashKey::of(bytes)),
            pieces: Vec::new(alloc),
            way_back: Vec::new(alloc),
            is_walked: false,
            is_cut: false,
            open: Vec::new(alloc),
            unknown: 0,
        }
    }

    /// Notes a piece, cut where the bytes end; none where it has no bytes.
    pub(crate) fn note(&mut self, node: u32, start: usize, len: usize, what: What) {
        let end = start.saturating_add(len).min(self.bytes.len());
        if start >= end {
            return;
        }
        let piece = BufferPiece {
            start: position_of(start),
            end: position_of(end),
            node,
            what,
        };
        if self.pieces.push(piece).is_err() {
            self.is_cut = true;
        }
    }

    /// Notes that the walk comes to the part of the reference at a position. Returns the number of what is known
    /// of its visit.
    pub(crate) fn come_to(&mut self, part: Part, reference_at: usize, at: usize) -> Option<usize>
        requires { at < 2 ^ 33 }
    {
        if self.is_cut {
            return None;
        }
        let (parent, number, counts) = self.step_to(reference_at);
        let lead = Lead::of(part);
        let Ok((node, is_new)) = self
            .reached
            .reach(lead, position_of(at), (parent, number), counts)
        else {
            self.is_cut = true;
            return None;
        };
        let table = if is_new {
            self.note_part(part, at, node)
        } else {
            None
        };
        let count = match table {
            Some(table) => self.count_of(table),
            None => 0,
        };
        let open = WalkedPart {
            node,
            table,
            next: 0,
            count,
            is_first: is_new,
        };
        if self.open.push(open).is_err() {
            self.is_cut = true;
        }
        self.reached.nodes.visit_of(node)
    }

    /// Notes that the walk passes over the part that it came to.
    pub(crate) fn pass_over(&mut self) {
        if !self.is_cut {
            self.open.pop();
        }
    }

    /// The number of what is known of an earlier visit of the part that the walk is at.
    pub(crate) fn visit(&self) -> Option<usize> {
        match self.open.last() {
            Some(open) => self.reached.nodes.visit_of(open.node),
            None => None,
        }
    }

    /// Notes that the walk leaves a part, and the number of what is known of its visit.
    pub(crate) fn leave(&mut self, visit: usize) {
        if self.is_cut {
            return;
        }
        if let Some(open) = self.open.last().copied() {
            self.note_slots(open, open.count);
            self.reached.nodes.set_visit(open.node, visit);
        }
        self.open.pop();
    }

    /// Notes a step on the way back from a fault.
    pub(crate) fn hear(&mut self, step: Step) {
        if self.is_cut {
            return;
        }
        if self.way_back.push(step).is_err() {
            self.is_cut = true;
        }
        match (step, self.open.last().copied()) {
            (Step::Slot(_, slot), Some(open)) => {
                self.note_slots(open, u32::from(slot).saturating_add(1))
            }
            (Step::Reference, _) => {
                self.open.pop();
            }
            _ => {}
        }
    }

    /// The part that the walk is at, which of its slots or elements has the reference at a position, and whether
    /// the reference counts: the walk is there for the first time.
    fn step_to(&mut self, reference_at: usize) -> (u32, u32, bool) {
        let Some(open) = self.open.last().copied() else {
            return (0, 0, true);
        };
        let number = match open.table {
            Some(table) => self.slot_with(open, table, reference_at),
            None => self.element_at(open.node, reference_at),
        };
        (open.node, number, open.is_first)
    }

    /// Which element of a vector of references is at a position.
    fn element_at(&self, node: u32, at: usize) -> u32 {
        match self.reached.nodes.get(node) {
            Some(vector) => { position_of(at).saturating_sub(vector.at).saturating_sub(4) / 4 }
            None => 0,
        }
    }

    /// The next slot of a table that has the reference at a position. What is in the slots up to it is noted.
    fn slot_with(
        &mut self,
        open: WalkedPart<'a>,
        table: EnteredTable<'a>,
        reference_at: usize,
    ) -> u32 {
        for slot in open.next..open.count {
            let found = self.note_slot(open.node, table, slot.min(65535) as u16);
            if found == Some(reference_at) {
                self.go_on_from(slot.saturating_add(1));
                return slot;
            }
        }
        self.go_on_from(open.count);
        open.count
    }

    /// Notes what a table has in its slots before one of this number, as far as they aren't noted yet.
    fn note_slots(&mut self, open: WalkedPart<'a>, end: u32) {
        let Some(table) = open.table else {
            return;
        };
        let end = end.min(open.count);
        for slot in open.next..end {
            self.note_slot(open.node, table, slot.min(65535) as u16);
        }
        self.go_on_from(open.next.max(end));
    }

    /// Notes which slot of the part that the walk is at comes next.
    fn go_on_from(&mut self, next: u32) {
        if let Some(open) = self.open.last_mut() {
            open.next = next;
        }
    }

    /// How many slots a table has, by its vtable or its type.
    fn count_of(&self, table: EnteredTable<'a>) -> u32 {
        let size = usize::from(u16_within(self.bytes, table.vtable_at()));
        let held = size.saturating_sub(4) / 2;
        let declared = self.layout.slots_of(table.table).len();
        held.max(declared).min(65535) as u32
    }

    /// Notes a part that the walk comes to for the first time; returns a table that keeps its own rules.
    fn note_part(&mut self, part: Part, at: usize, node: u32) -> Option<EnteredTable<'a>>
        requires { at < 2 ^ 33 }
    {
        let bytes = self.bytes;
        match part {
            Part::Table(table) => {
                self.note(node, at, 4, What::Table);
                if bytes.len() >= 0x8000_0000 {
                    return None;
                }
                let Ok(entered) = EnteredTable::enter(self.layout, bytes, table, at) else {
                    return None;
                };
                self.note_vtable(node, entered);
                return Some(entered);
            }
            Part::Text => {
                self.note(node, at, 4, What::Length);
                let Ok(text) = open_text(bytes, at) else {
                    return None;
                };
                let len = text.len().saturating_add(1);
                self.note(node, at.saturating_add(4), len, What::Content);
            }
            Part::Vector(kind) => {
                self.note(node, at, 4, What::Length);
                let Ok(count) = enter_vector(self.layout, bytes, kind, at) else {
                    return None;
                };
                let len = (count as usize).saturating_mul(self.layout.size_of(kind) as usize);
                self.note(node, at.saturating_add(4), len, What::Content);
            }
        }
        None
    }

    /// Notes the vtable of a table.
    fn note_vtable(&mut self, node: u32, table: EnteredTable<'a>) {
        let at = table.vtable_at();
        let lead = Lead::Vtable(table.table);
        match self.reached.reach(lead, position_of(at), (node, 0), true) {
            Ok((vtable, true)) => {
                let size = usize::from(u16_within(self.bytes, at));
                self.note(vtable, at, size, What::Vtable);
            }
            Ok((_, false)) => {}
            Err(_) => self.is_cut = true,
        }
    }

    /// Notes what a table has in a slot; returns where the reference to a part is, if it has one.
    fn note_slot(&mut self, node: u32, table: EnteredTable<'a>, slot: u16) -> Option<usize> {
        let offset = table.offset_of(slot);
        if offset == 0 {
            return None;
        }
        let at = table.at().saturating_add(offset);
        let Some(field) = self.layout.slots_of(table.table).get(usize::from(slot)) else {
            let size = usize::from(u16_within(self.bytes, table.vtable_at().saturating_add(2)));
            let left = size.saturating_sub(offset).max(1);
            // Tables that overlap may have more of them than there are bytes.
            if self.unknown < self.bytes.len() {
                self.unknown = self.unknown.saturating_add(1);
                self.note(node, at, left, What::UnknownField(slot));
            }
            return None;
        };
        let size = match field.shape {
            Shape::One(kind) => self.layout.size_of(kind) as usize,
            Shape::Many(_) => 4,
        };
        let stored = table.stored(slot);
        check_stored(self.layout, self.bytes, stored).ok()?;
        let (what, leads) = match stored {
            Stored::Member(code, _, _) => (What::Member(slot, code), true),
            Stored::Unknown(code, _) => (What::UnknownMember(slot, code), false),
            Stored::Text(_) | Stored::Table(_, _) | Stored::Vector(_, _) => (
                What::Field(slot),
                true,
            ),
            Stored::Absent(_) | Stored::Number(_, _) | Stored::Fixed(_, _) | Stored::Code(_, _) => (
                What::Field(slot),
                false,
            ),
        };
        self.note(node, at, size, what);
        if leads { Some(at) } else { None }
    }
}

/// The number in the two bytes at a position, 0 where they end past the bytes.
pub(crate) fn u16_within(bytes: &[u8], at: usize) -> u16 {
    match number_within(bytes, at, Base::U16) {
        Some(number) => u16::try_from(number).unwrap_or(0),
        None => 0,
    }
}

/// The number in the four bytes at a position, 0 where they end past the bytes.
pub(crate) fn u32_within(bytes: &[u8], at: usize) -> u32 {
    match number_within(bytes, at, Base::U32) {
        Some(number) => u32::try_from(number).unwrap_or(0),
        None => 0,
    }
}
