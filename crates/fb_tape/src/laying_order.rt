//! A table's fields are laid by falling alignment.
ghost use Rattle.std.specs.Prelude.{◌≡◌, ◌≤◌, ◌+◌, ◌*◌, ◌++◌, length, drop, map, OnOk};
ghost use Rattle.std.specs.List.{All};
ghost use Rattle.fb_schema.specs.Alignments.{greatest_in};
ghost use Rattle.fb_layout.specs.Sizes.{IsAlignment};
ghost use Rattle.fb_tape.specs.StoredTables.{taken, at_align, in_order, notes_of, bytes_of, told};

use crate::inline_bytes::push_few;
use crate::open_fields::OpenFields;
use crate::ops::NotedField;
use crate::stored_tables::{Offsets, size_of};
use std::alloc::AllocError;

/// Notes the fields of one alignment.
fn note_fields_at(
    notes: &mut Vec<NotedField>,
    bytes: &mut Vec<u8>,
    offsets: &mut Offsets,
    opened: &OpenFields,
    first: usize,
    align: u16,
) -> Result<(), AllocError>
    requires within { first ≤ length opened.now }
    requires room { offsets.old.laid + taken (at_align align (drop first opened.now)) ≤ offsets.old.size }
    requires slots { All (λ x. 6 + 2 * x.slot ≤ length offsets.old.vtable.items) (drop first opened.now) }
    ensures size { offsets.new.size ≡ offsets.old.size }
    ensures slots { length offsets.new.vtable.items ≡ length offsets.old.vtable.items }
    ensures grown { length bytes.old.items ≤ length bytes.new.items }
    ensures notes { OnOk result (notes.new.items
        ≡ notes.old.items ++ notes_of (at_align align (drop first opened.now))) }
    ensures bytes { OnOk result (bytes.new.items
        ≡ bytes.old.items ++ bytes_of (at_align align (drop first opened.now))) }
    ensures laid { OnOk result (offsets.new.laid
        ≡ offsets.old.laid + taken (at_align align (drop first opened.now))) }
    ensures told { OnOk result (offsets.new.vtable.items ≡ told offsets.old.size offsets.old.laid
        (at_align align (drop first opened.now)) offsets.old.vtable.items) }
{
    for i in first..opened.len() {
        let field = opened.field(i);
        if field.align != align {
            continue;
        }
        let own = opened.bytes_of(i);
        offsets.laid += size_of(field.note);
        offsets.tell(field.slot);
        notes.push(field.note)?;
        push_few(bytes, own)?;
    }
    Ok(())
}

/// Notes the fields of a table in the order of laying. No field is aligned to more than `greatest`.
pub(crate) fn note_fields(
    notes: &mut Vec<NotedField>,
    bytes: &mut Vec<u8>,
    offsets: &mut Offsets,
    opened: &OpenFields,
    first: usize,
    greatest: u16,
) -> Result<(), AllocError>
    requires within { first ≤ length opened.now }
    requires aligned { All (λ x. IsAlignment x.align) (drop first opened.now) }
    requires power { IsAlignment greatest }
    requires greatest { greatest_in (map (λ x. x.align) (drop first opened.now)) ≤ greatest }
    requires room { offsets.old.laid + taken (in_order (drop first opened.now)) ≤ offsets.old.size }
    requires slots { All (λ x. 6 + 2 * x.slot ≤ length offsets.old.vtable.items) (drop first opened.now) }
    ensures size { offsets.new.size ≡ offsets.old.size }
    ensures grown { length bytes.old.items ≤ length bytes.new.items }
    ensures notes { OnOk result (notes.new.items
        ≡ notes.old.items ++ notes_of (in_order (drop first opened.now))) }
    ensures bytes { OnOk result (bytes.new.items
        ≡ bytes.old.items ++ bytes_of (in_order (drop first opened.now))) }
    ensures told { OnOk result (offsets.new.vtable.items ≡ told offsets.old.size offsets.old.laid
        (in_order (drop first opened.now)) offsets.old.vtable.items) }
{
    let before = notes.len();
    let count = opened.len() - first;
    // Each alignment is a power of two, so that the next below it is its half.
    let mut align = greatest;
    while notes.len() - before < count {
        note_fields_at(notes, bytes, offsets, opened, first, align)?;
        align /= 2;
    }
    Ok(())
}
