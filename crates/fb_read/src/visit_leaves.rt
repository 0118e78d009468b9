//! Visits of what names no table.
ghost use Rattle.std.specs.Prelude.{◌≡◌, ℕ, ◌+◌, ◌*◌, ◌<◌, ◌≤◌, ◌^◌, List, IsTrue, Ok};
ghost use Rattle.fb_layout.specs.Laid.{LaidSchema, Slot, stored_kind};
ghost use Rattle.fb_value.specs.Num.{num};
ghost use Rattle.fb_value.specs.Places.{is_present, text_part, ref_place, part_place, inline_place};
ghost use Rattle.fb_value.specs.Places.{code_place, next_required};
ghost use Rattle.fb_value.specs.Nth.{slot_place};
ghost use Rattle.fb_read.specs.Visits.{Visits, slot_seen, slots_seen};
ghost use Rattle.fb_read.specs.Walks.{place, visit_in, visit_entry_in, HasVtable, IsWithin};
ghost use Rattle.fb_read.specs.Ends.{EndsAt, parts_in_entry};
ghost use Rattle.fb_read.specs.Whole.{WholeEntry};

use crate::buffer::Buffer;
use crate::hearer::Hearer;
use crate::kinds::base_of;
use crate::part::{Part, PartAt};
use crate::places::{follow, held_slot};
use crate::rules::{check_code, check_inline, check_number, is_next_stored, open_text};
use crate::stored::UnionCode;
use crate::walk::{TableAt, Walk, leave, pass_over};
use fb_schema::{FieldInfo, Kind, Shape, TypeId};
use fb_value::ReadFault;

/// Visits the text at a position.
#[inline(always)]
#[tactic(auto, using(crate::proofs::visit_tables::VisitsOnePlaceAfterAnother::text_visits))]
pub fn visit_text<H: Hearer>(
    buffer: &Buffer,
    walk: &mut Walk<H>,
    at: usize,
) -> Result<(), ReadFault>
    requires low { at < 2 ^ 33 }
    requires few { walk.old.spent ≤ buffer.now.most_cells }
    ensures { (tables : ℕ) → EndsAt H.told buffer.now (place (part_place text_part) at) tables
        walk.old walk.new result }
{
    walk.ticks.tick();
    let text = open_text(buffer.bytes, at)?;
    let most = u64::from(buffer.most_cells);
    let after = walk.spent + 1 + text.len() as u64;
    if after > most {
        return Err(ReadFault::TooManyCells(at as u64));
    }
    walk.spent = after;
    Ok(())
}

/// Visits the text of a reference.
#[inline(always)]
pub fn visit_text_behind<H: Hearer>(
    buffer: &Buffer,
    walk: &mut Walk<H>,
    at: usize,
    tables: u8,
) -> Result<(), ReadFault>
    requires low { at < 2 ^ 33 }
    requires limits { IsWithin H.knows buffer.now tables walk.old }
    ensures { EndsAt H.told buffer.now (place (ref_place text_part) at) tables
        walk.old walk.new result }
{
    let target = follow(buffer.bytes, at)?;
    let part_at = PartAt {
        part: Part::Text,
        at: target,
    };
    if pass_over(buffer, walk, part_at, at, tables) {
        return Ok(());
    }
    let mark = walk.mark();
    let visited = visit_text(buffer, walk, target);
    leave(buffer, walk, part_at, tables, mark, &visited);
    visited
}

/// Visits a number or struct.
#[inline(always)]
pub fn visit_inline(buffer: &Buffer, kind: Kind, at: usize) -> Result<(), ReadFault>
    requires low { at < 2 ^ 33 }
    ensures { (tables spent : ℕ) → Visits result spent (visit_in buffer.now (place (inline_place
        (stored_kind buffer.now.layout.now.schema kind)) at) tables spent) }
{
    let layout = buffer.layout;
    check_inline(
        buffer.bytes,
        at,
        layout.size_of(kind),
        layout.align_of(kind),
    )
}

/// Visits the code of a union of this type, at a position, in a slot of a table.
#[inline(always)]
pub fn visit_code(
    buffer: &Buffer,
    union: TypeId,
    later: &[FieldInfo],
    table: TableAt,
    slot: usize,
    at: usize,
) -> Result<(), ReadFault>
    requires vtable { HasVtable buffer.now.bytes.now table }
    requires few { slot < 2 ^ 15 }
    requires low { at < 2 ^ 33 }
    ensures { (tables spent u : ℕ) → Visits result spent (visit_in buffer.now (place (code_place u (slot + 1)
        (next_required (slots_seen buffer.now.layout.now later.now))
        (is_present buffer.now.bytes.now table.at (slot + 1))) at) tables spent) }
{
    let present = is_next_stored(buffer.bytes, table.at, table.vtable_at, slot);
    let required = is_first_required(later);
    let code = UnionCode {
        union,
        value_slot: slot as u16 + 1,
        required,
        present,
    };
    check_code(buffer.bytes, at, code)
}

/// Whether nothing is to visit at a slot: it is absent, or a number that keeps its rules. Most slots are
/// such, and a walk that passes by them at once makes no result for each.
#[inline(always)]
pub fn is_settled(buffer: &Buffer, field: &FieldInfo, table: TableAt, slot: usize) -> bool
    requires vtable { HasVtable buffer.now.bytes.now table }
    requires held { 6 + 2 * slot ≤ num buffer.now.bytes.now table.vtable_at 2 }
    requires few { slot < 2 ^ 15 }
    ensures visit { IsTrue result → (fs : List Slot) (tables spent : ℕ)
        → visit_entry_in buffer.now (slot_place buffer.now.layout.now buffer.now.bytes.now table.at slot fs
        (slot_seen buffer.now.layout.now field.now)) tables spent ≡ Ok spent }
    ensures parts { IsTrue result → (fs : List Slot) → parts_in_entry buffer.now (slot_place buffer.now.layout.now
        buffer.now.bytes.now table.at slot fs (slot_seen buffer.now.layout.now field.now)) ≡ 0 }
    ensures whole { IsTrue result → (fs : List Slot) → WholeEntry buffer.now (slot_place buffer.now.layout.now
        buffer.now.bytes.now table.at slot fs (slot_seen buffer.now.layout.now field.now)) }
{
    let offset = held_slot(buffer.bytes, table.at, table.vtable_at, slot);
    if offset == 0 {
        return true;
    }
    if field.deprecated {
        return false;
    }
    let Shape::One(kind) = field.shape else {
        return false;
    };
    let Some(base) = base_of(buffer.layout, kind) else {
        return false;
    };
    check_number(buffer.bytes, table.at + offset, base).is_ok()
}

/// Whether the first of some slots is required.
#[inline(always)]
pub fn is_first_required(slots: &[FieldInfo]) -> bool
    ensures { (L : LaidSchema) → result ≡ next_required (slots_seen L slots.now) }
{
    slots
        .first()
        .is_some_and(|slot| slot.required && !slot.deprecated)
}
