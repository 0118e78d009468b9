//! Lays the operations of a tape, one after the other.
ghost use Rattle.std.specs.Prelude.{[], ◌∷◌, ◌≡◌, ◌≤◌, ◌<◌, ◌+◌, ◌-◌, ◌++◌, ◌^◌, length, take, max, IfOk};
ghost use Rattle.std.specs.Vec.{vec_capacity};
ghost use Rattle.fb_tape.specs.Alignments.{aligned_to};
ghost use Rattle.fb_tape.specs.declared.ops.Op.TheVariants.{Data, References, Table};
ghost use Rattle.fb_build.specs.Lengths.{data_end, references_end, fields_end, table_end};
ghost use Rattle.fb_build.specs.NotesLaid.{notes_references, notes_size};
ghost use Rattle.fb_build.specs.Steps.{MayLayNext, Steps};
ghost use Rattle.fb_build.specs.TapeLaid.{IsFresh};
ghost use Rattle.fb_value.specs.Bounds.{most_bytes};

use crate::tail::{Tail, laid_is_short};
use crate::taped_fields::lay_fields;
use crate::taped_vtables::{NumberedVtable, close_table};
use crate::{taped_data, taped_references};
use fb_tape::{Alignment, NotedField};
use std::alloc::{AllocError, Global};

/// What is laid of a tape: the tail, the end-counts of the parts that wait, and those of the vtables that have come.
#[derive(Drop)]
pub(crate) struct Laying {
    pub(crate) tail: Tail,
    pub(crate) waiting: Vec<u32>,
    pub(crate) places: Vec<u32>,
}

impl Laying {
    /// Nothing that is laid, in a block as long as this, with memory for so many parts that wait and so many vtables.
    pub(crate) fn with_room(
        alloc: Global,
        end: usize,
        parts: usize,
        vtables: usize,
    ) -> Result<Laying, AllocError>
        requires short { end ≤ most_bytes }
        ensures room { IfOk result (λ l. l.tail.free ≡ end) }
        ensures reserved { IfOk result (λ l. parts ≤ vec_capacity l.waiting) }
        ensures places { IfOk result (λ l. vtables ≤ vec_capacity l.places) }
        ensures fresh { IfOk result IsFresh }
    {
        let block = vec![in alloc; 0u8; end]?;
        Ok(Laying {
            tail: Tail::new(block),
            waiting: Vec::with_capacity(alloc, parts)?,
            places: Vec::with_capacity(alloc, vtables)?,
        })
    }
}

/// The fields of a table that is laid: their notes, their bytes, and how many of them are references.
#[derive(Clone, Copy)]
pub(crate) struct TableFields<'t> {
    pub(crate) notes: &'t [NotedField],
    pub(crate) bytes: &'t [u8],
    pub(crate) references: usize,
}

/// A part waits in the place of those that were laid last, to which it refers.
fn wait(waiting: &mut Vec<u32>, taken: usize, end: usize)
    requires within { taken ≤ length waiting.old.items }
    requires reserved { length waiting.old.items < vec_capacity waiting.old + taken }
    requires short { end < 2 ^ 32 }
    ensures items { waiting.new.items
        ≡ take (length waiting.old.items - taken) waiting.old.items ++ (end ∷ []) }
    ensures reserved { vec_capacity waiting.new ≡ vec_capacity waiting.old }
{
    let others = waiting.len() - taken;
    waiting.truncate(others);
    waiting.push_reserved(end as u32);
}

/// Lays a text, or a vector of numbers or structs.
pub(crate) fn lay_data(laying: &mut Laying, align: Alignment, bytes: &[u8])
    requires ready { MayLayNext (Data align (length bytes.now)) [] [] bytes.now laying.old }
    requires reserved { length laying.old.waiting.items < vec_capacity laying.old.waiting }
    ensures laid { Steps (Data align (length bytes.now)) [] [] bytes.now laying.old laying.new }
    ensures long { length laying.new.tail.bytes
        ≡ data_end (aligned_to align) (length bytes.now) (length laying.old.tail.bytes) }
    ensures most { laying.new.tail.most ≡ max laying.old.tail.most (aligned_to align) }
{
    taped_data::lay_data(&mut laying.tail, align.bytes(), bytes);
    let end = laying.tail.count();
    wait(&mut laying.waiting, 0, end);
}

/// Lays a vector of references to the parts that were laid last.
pub(crate) fn lay_references(laying: &mut Laying, count: usize)
    requires ready { MayLayNext (References count) [] [] [] laying.old }
    requires reserved { length laying.old.waiting.items < vec_capacity laying.old.waiting }
    ensures laid { Steps (References count) [] [] [] laying.old laying.new }
    ensures long { length laying.new.tail.bytes ≡ references_end count (length laying.old.tail.bytes) }
    ensures most { laying.new.tail.most ≡ max laying.old.tail.most 4 }
{
    let first = laying.waiting.len() - count;
    taped_references::lay_references(&mut laying.tail, &laying.waiting[first..]);
    let end = laying.tail.count();
    wait(&mut laying.waiting, count, end);
}

/// Lays a table, whose references are to the parts that were laid last, and its vtable where that is the next to come.
pub(crate) fn lay_table(
    laying: &mut Laying,
    align: Alignment,
    number: usize,
    vtable: &NumberedVtable<'_, '_>,
    fields: TableFields<'_>,
)
    requires taken { fields.references ≡ notes_references fields.notes.now }
    requires ready { MayLayNext (Table align (length fields.notes.now) number) vtable.now fields.notes.now
        fields.bytes.now laying.old }
    requires reserved { length laying.old.waiting.items < vec_capacity laying.old.waiting }
    requires places { number ≡ length laying.old.places.items
        → length laying.old.places.items < vec_capacity laying.old.places }
    ensures laid { Steps (Table align (length fields.entry.notes.now) number) vtable.now fields.entry.notes.now
        fields.entry.bytes.now laying.old laying.new }
    ensures long { length laying.new.tail.bytes
        ≡ table_end (length vtable.now) number (length laying.old.places.items)
        (fields_end (aligned_to align) (notes_size fields.entry.notes.now) (length laying.old.tail.bytes)) }
    ensures most { laying.new.tail.most ≡ max (max laying.old.tail.most (aligned_to align)) 4 }
{
    let first = laying.waiting.len() - fields.references;
    let waiting = &laying.waiting[first..];
    let _start = lay_fields(
        &mut laying.tail,
        align.bytes(),
        fields.notes,
        fields.bytes,
        waiting,
    );
    let end = close_table(&mut laying.tail, &mut laying.places, number, vtable);
    laid_is_short(&laying.tail);
    wait(&mut laying.waiting, fields.references, end);
}
