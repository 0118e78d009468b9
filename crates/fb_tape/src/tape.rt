//! A tape: what is to be laid of a value.
ghost use Rattle.std.specs.Prelude.{ℕ, ◌≡◌, ◌≤◌, ◌<◌, ◌+◌, ◌%◌, ◌^◌, ◌++◌, ◌↔◌, List, [], ◌∷◌, Option, Some, true};
ghost use Rattle.std.specs.Prelude.{false, length, drop};
ghost use Rattle.std.specs.Prelude.{slice_get, IsTrue, OnOk};
ghost use Rattle.byteorder.specs.Endian.{little_bytes};
ghost use Rattle.fb_layout.specs.Laid.{one_of, struct_kind, slots_of, align_of};
ghost use Rattle.fb_layout.specs.Seen.{kind_seen};
ghost use Rattle.fb_layout.specs.Widths.{greatest};
ghost use Rattle.fb_value.specs.Counts.{entries_whole};
ghost use Rattle.fb_value.specs.Datum.{Datum, a_text, a_vector, a_struct, a_table};
ghost use Rattle.fb_value.specs.Fits.{EntriesFit, Fits};
ghost use Rattle.fb_value.specs.Places.{table_part, text_part, vector_part};
ghost use Rattle.fb_value.specs.Room.{table_room, vector_room};
ghost use Rattle.fb_value.specs.UpTo.{at_most_usize};
ghost use Rattle.fb_value.specs.View.{view, parts_view, parts_in, entries_in};
ghost use Rattle.fb_value.specs.Bounds.{most_bytes};
ghost use Rattle.fb_tape.specs.InlineBytes.{IsInline};
ghost use Rattle.fb_tape.specs.KnownVtables.{EachHasOneNumber};
ghost use Rattle.fb_tape.specs.NamedParts.{NamedPart, elements_apart, entries_apart};
ghost use Rattle.fb_tape.specs.OpenFields.{IsOpenTable};
ghost use Rattle.fb_tape.specs.StoredFields.{is_reference, ItemsKnown};
ghost use Rattle.fb_tape.specs.Tapes.{IsUnfinished, Waits};
ghost use Rattle.fb_tape.specs.declared.ops.Op.TheVariants.{Data};

use crate::inline_bytes::{push_few, push_inline, push_struct};
use crate::known_vtables::KnownVtables;
use crate::open_fields::OpenFields;
use crate::ops::{Alignment, NotedField, Op};
use crate::rooms::{table_room, text_room, vector_room};
use crate::stored_tables::{Offsets, note_table};
use byteorder::{ByteOrder, LittleEndian};
use fb_layout::{Layout, layout_is_well_made};
use fb_schema::{Kind, TypeId};
use fb_value::{MOST_BYTES, Value};
use std::alloc::{AllocError, Global};
use std::marker::Model;

// how many sizes there are in 32 bits
const SIZES: usize = 4_294_967_296;

// How many operations there is memory for at first: the tape of a short text mostly has no more. Else the list would
// grow many times for it.
const FIRST_OPS: usize = 32;

// the same for fields
const FIRST_FIELDS: usize = 64;

// the same for bytes
const FIRST_BYTES: usize = 512;

/// What is to be laid of a value, operation by operation, in the order of laying: a part comes after all that it
/// refers to. Once the parts are too big for a buffer together nothing more is noted, and only their rooms are summed
/// up.
#[derive(Drop)]
pub struct Tape<'l> {
    layout: &'l Layout,
    ops: Vec<Op>,
    fields: Vec<NotedField>,
    bytes: Vec<u8>,
    // how many of the bytes are those of an operation; after them are those of a vector that isn't whole yet
    finished: usize,
    vtables: KnownVtables,
    // for one table at a time
    offsets: Offsets,
    room: usize,
}

impl<'l> Model for Tape<'l> {
    ghost use Rattle.fb_tape.specs.Tapes.{Taped};

    ghost Value = { Taped };

    ghost use Rattle.fb_tape.specs.TapeHeld.{tape_seen, IsTape};

    ghost view = { tape_seen };

    ghost invariant = { IsTape };
}

impl<'l> Tape<'l> {
    /// A tape of nothing.
    pub fn new(alloc: Global, layout: &'l Layout) -> Tape<'l>
        ensures layout { result.layout ≡ layout.now }
        ensures ops { result.ops ≡ [] }
        ensures fields { result.notes ≡ [] }
        ensures bytes { result.bytes ≡ [] }
        ensures unfinished { result.unfinished ≡ [] }
        ensures vtables { result.vtables ≡ [] }
        ensures room { result.room ≡ 0 }
    {
        Tape {
            layout,
            ops: Vec::new(alloc),
            fields: Vec::new(alloc),
            bytes: Vec::new(alloc),
            finished: 0,
            vtables: KnownVtables::new(alloc, layout.schema().key()),
            offsets: Offsets::new(alloc),
            room: 0,
        }
    }

    /// Takes memory for the first parts.
    pub fn reserve(&mut self) -> Result<(), AllocError>
        ensures same { self.new ≡ self.old }
    {
        self.ops.reserve(FIRST_OPS)?;
        self.fields.reserve(FIRST_FIELDS)?;
        self.bytes.reserve(FIRST_BYTES)
    }

    /// The rooms of all parts together, 2^64 - 1 at most.
    pub fn room(&self) -> usize
        ensures exact { result ≡ self.now.room }
    {
        self.room
    }

    /// The operations, in the order of laying.
    pub fn ops(&self) -> &[Op]
        ensures exact { result.now ≡ self.now.ops }
    {
        self.ops.as_slice()
    }

    /// The fields of all tables, in the order of laying.
    pub fn fields(&self) -> &[NotedField]
        ensures exact { result.now ≡ self.now.notes }
    {
        self.fields.as_slice()
    }

    /// What is laid of texts, vectors, numbers and structs, one after the other.
    pub fn bytes(&self) -> &[u8]
        ensures exact { result.now ≡ self.now.bytes }
    {
        &self.bytes[..self.finished]
    }

    /// How many vtables there are: of each that the tables have, one.
    pub fn vtable_count(&self) -> usize
        ensures exact { result ≡ length self.now.vtables }
        ensures one { EachHasOneNumber self.now.vtables }
    {
        self.vtables.len()
    }

    /// The vtable of a number.
    pub fn vtable(&self, number: usize) -> &[u8]
        requires within { number < length self.now.vtables }
        ensures is { slice_get self.now.vtables number ≡ Some result.now }
    {
        self.vtables.vtable(number)
    }

    /// Whether the parts are too big for a buffer together.
    fn is_over(&self) -> bool
        ensures exact { IsTrue result ↔ (most_bytes < self.now.room) }
    {
        self.room > MOST_BYTES
    }

    /// Adds the room of a part.
    fn add_room(&mut self, room: usize)
        ensures adds { self.new ≡ record self.old { room = at_most_usize (self.old.room + room) } }
    {
        self.room = self.room.saturating_add(room);
    }

    /// Adds to the unfinished bytes.
    fn push_bytes(&mut self, bytes: &[u8]) -> Result<(), AllocError>
        ensures adds { OnOk result (self.new ≡ record self.old { unfinished = self.old.unfinished ++ bytes.now }) }
        ensures layout { self.new.layout ≡ self.old.layout }
    {
        push_few(&mut self.bytes, bytes)
    }

    /// Adds a count to the unfinished bytes: its lowest four bytes.
    fn push_count(&mut self, count: usize) -> Result<(), AllocError>
        ensures adds { OnOk result (self.new ≡ record self.old {
          unfinished = self.old.unfinished ++ little_bytes 4 count;
        }) }
        ensures layout { self.new.layout ≡ self.old.layout }
    {
        let mut bytes = [0u8; 8];
        LittleEndian::write_u64(&mut bytes, count as u64);
        self.push_bytes(&bytes[..4])
    }

    /// Notes that a text is laid.
    pub fn push_text(&mut self, text: &str) -> Result<(), AllocError>
        requires whole { self.old.unfinished ≡ [] }
        ensures waits { OnOk result ((ps : List NamedPart) → Waits self.old ps
            → Waits self.new (ps ++ (record { target = text_part; value = a_text text.now } ∷ []))) }
        ensures room { OnOk result (self.new.room ≡ at_most_usize (self.old.room + (length text.now + 8))) }
        ensures whole { OnOk result (self.new.unfinished ≡ []) }
        ensures layout { self.new.layout ≡ self.old.layout }
    {
        self.add_room(text_room(text));
        if self.is_over() {
            return Ok(());
        }
        self.push_count(text.len())?;
        self.push_bytes(text.as_bytes())?;
        self.push_bytes(&[0])?;
        self.finish_data(Alignment::of(4))
    }

    /// Begins a vector of numbers or structs, whose elements come next.
    pub fn open_vector(&mut self, kind: Kind, count: usize) -> Result<(), AllocError>
        requires whole { self.old.unfinished ≡ [] }
        ensures waits { OnOk result ((ps : List NamedPart) → Waits self.old ps → Waits self.new ps) }
        ensures begun { OnOk result (self.old.room + vector_room self.old.layout (kind_seen self.old.layout kind) count
            ≤ most_bytes → IsUnfinished self.old.layout (kind_seen self.old.layout kind) count [] self.new.unfinished) }
        ensures room { OnOk result (self.new.room ≡ self.old.room) }
        ensures layout { self.new.layout ≡ self.old.layout }
    {
        if self
            .room
            .saturating_add(vector_room(self.layout, kind, count))
            > MOST_BYTES
        {
            return Ok(());
        }
        self.push_count(count)
    }

    /// Whether no bytes of the vector that was begun are noted, since it is too big for a buffer.
    #[inline(always)]
    fn leaves_vector_out(&self) -> bool
        ensures exact { IsTrue result ↔ (self.now.unfinished ≡ []) }
    {
        self.bytes.len() == self.finished
    }

    /// Adds the next element of the vector that was begun.
    #[inline(always)]
    pub fn push_element(&mut self, kind: Kind, value: &Value) -> Result<(), AllocError>
        requires inline { IsInline self.old.layout (kind_seen self.old.layout kind) }
        requires fits { Fits self.old.layout (one_of (kind_seen self.old.layout kind)) (view value.now) }
        ensures waits { OnOk result ((ps : List NamedPart) → Waits self.old ps → Waits self.new ps) }
        ensures adds { OnOk result ((count : ℕ) (ds : List Datum)
            → IsUnfinished self.old.layout (kind_seen self.old.layout kind) count ds self.old.unfinished
            → IsUnfinished self.old.layout (kind_seen self.old.layout kind) count (ds ++ (view value.now ∷ []))
            self.new.unfinished) }
        ensures room { OnOk result (self.new.room ≡ self.old.room) }
        ensures layout { self.new.layout ≡ self.old.layout }
    {
        if self.leaves_vector_out() {
            return Ok(());
        }
        push_inline(&mut self.bytes, self.layout, kind, value)
    }

    /// Adds the next struct of the vector that was begun.
    pub fn push_struct(&mut self, structure: TypeId, parts: &[Value]) -> Result<(), AllocError>
        requires inline { IsInline self.old.layout (struct_kind structure.0) }
        requires fits { Fits self.old.layout (one_of (struct_kind structure.0)) (a_struct (parts_view parts.now)) }
        ensures waits { OnOk result ((ps : List NamedPart) → Waits self.old ps → Waits self.new ps) }
        ensures adds { OnOk result ((count : ℕ) (ds : List Datum)
            → IsUnfinished self.old.layout (struct_kind structure.0) count ds self.old.unfinished
            → IsUnfinished self.old.layout (struct_kind structure.0) count
            (ds ++ (a_struct (parts_view parts.now) ∷ [])) self.new.unfinished) }
        ensures room { OnOk result (self.new.room ≡ self.old.room) }
        ensures layout { self.new.layout ≡ self.old.layout }
    {
        if self.leaves_vector_out() {
            return Ok(());
        }
        push_struct(&mut self.bytes, self.layout, structure, parts)
    }

    /// Notes that the vector whose elements came is laid.
    pub fn close_vector(&mut self, kind: Kind, count: usize) -> Result<(), AllocError>
        requires inline { is_reference (one_of (kind_seen self.old.layout kind)) ≡ false }
        requires low { align_of self.old.layout (kind_seen self.old.layout kind) ≤ greatest self.old.layout }
        ensures waits { OnOk result ((ps : List NamedPart) (ds : List Datum) → count ≡ length ds
            → ItemsKnown self.old.layout (kind_seen self.old.layout kind) ds
            → (self.old.room + vector_room self.old.layout (kind_seen self.old.layout kind) count ≤ most_bytes
            → IsUnfinished self.old.layout (kind_seen self.old.layout kind) count ds self.old.unfinished)
            → Waits self.old ps → Waits self.new (ps ++ (record {
              target = vector_part (kind_seen self.old.layout kind);
              value = a_vector (parts_in ds);
            } ∷ []))) }
        ensures room { OnOk result (self.new.room ≡ at_most_usize (self.old.room
            + vector_room self.old.layout (kind_seen self.old.layout kind) count)) }
        ensures whole { OnOk result (self.new.unfinished ≡ []) }
        ensures layout { self.new.layout ≡ self.old.layout }
    {
        let layout = self.layout;
        layout_is_well_made(layout);
        self.add_room(vector_room(layout, kind, count));
        if self.is_over() {
            self.bytes.truncate(self.finished);
            return Ok(());
        }
        let align = layout.align_of(kind).max(4) as u16;
        self.finish_data(Alignment::of(align))
    }

    /// Notes that the unfinished bytes are laid, of which a buffer has fewer than 2^32.
    fn finish_data(&mut self, align: Alignment) -> Result<(), AllocError>
        ensures adds { OnOk result (self.new ≡ record self.old {
          ops = self.old.ops ++ (Data align (length self.old.unfinished % 2 ^ 32) ∷ []);
          bytes = self.old.bytes ++ self.old.unfinished;
          unfinished = [];
        }) }
        ensures layout { self.new.layout ≡ self.old.layout }
    {
        let size = self.bytes.len() - self.finished;
        self.ops.reserve(1)?;
        self.ops.push_reserved(Op::Data {
            align,
            size: (size % SIZES) as u32,
        });
        self.finished = self.bytes.len();
        Ok(())
    }

    /// Notes that a vector is laid whose elements are references to the parts that were laid last.
    pub fn push_references(&mut self, kind: Kind, count: usize) -> Result<(), AllocError>
        requires whole { self.old.unfinished ≡ [] }
        requires references { is_reference (one_of (kind_seen self.old.layout kind)) ≡ true }
        ensures waits { OnOk result ((others : List NamedPart) (ds : List Datum) → count ≡ length ds
            → ItemsKnown self.old.layout (kind_seen self.old.layout kind) ds
            → Waits self.old (others ++ elements_apart (kind_seen self.old.layout kind) ds)
            → Waits self.new (others ++ (record {
              target = vector_part (kind_seen self.old.layout kind);
              value = a_vector (parts_in ds);
            } ∷ []))) }
        ensures room { OnOk result (self.new.room ≡ at_most_usize (self.old.room
            + vector_room self.old.layout (kind_seen self.old.layout kind) count)) }
        ensures whole { OnOk result (self.new.unfinished ≡ []) }
        ensures layout { self.new.layout ≡ self.old.layout }
    {
        let room = vector_room(self.layout, kind, count);
        self.add_room(room);
        if self.is_over() {
            return Ok(());
        }
        self.ops.push(Op::References {
            count: count as u32,
        })?;
        Ok(())
    }

    /// Notes that a table is laid, which stores the open fields from an index on. Its references are to the parts that
    /// were laid last.
    pub fn close_table(
        &mut self,
        table: TypeId,
        opened: &OpenFields,
        from: usize,
    ) -> Result<(), AllocError>
        requires whole { self.old.unfinished ≡ [] }
        requires within { from ≤ length opened.now }
        requires stored { (xs : List (Option Datum)) × IsOpenTable self.old.layout table.0 (drop from opened.now) xs }
        ensures waits { OnOk result ((others : List NamedPart) (xs : List (Option Datum))
            → IsOpenTable self.old.layout table.0 (drop from opened.now) xs
            → Waits self.old (others ++ entries_apart (slots_of self.old.layout table.0) xs)
            → Waits self.new (others ++ (record {
              target = table_part table.0;
              value = a_table table.0 (entries_in xs);
            } ∷ []))) }
        ensures room { OnOk result (self.new.room ≡ at_most_usize (self.old.room
            + table_room self.old.layout table.0)) }
        ensures whole { OnOk result (self.new.unfinished ≡ []) }
        ensures layout { self.new.layout ≡ self.old.layout }
    {
        let layout = self.layout;
        layout_is_well_made(layout);
        self.add_room(table_room(layout, table));
        if self.is_over() {
            return Ok(());
        }
        let align = note_table(
            &mut self.fields,
            &mut self.bytes,
            &mut self.offsets,
            opened,
            from,
        )?;
        let vtable = self.vtables.number_of(self.offsets.vtable.as_slice())?;
        self.finished = self.bytes.len();
        self.ops.reserve(1)?;
        self.ops.push_reserved(Op::Table {
            align: Alignment::of(align),
            fields: (opened.len() - from) as u16,
            vtable: (vtable % SIZES) as u32,
        });
        Ok(())
    }
}
