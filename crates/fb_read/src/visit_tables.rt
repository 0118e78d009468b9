//! A walk over all that is reached from a place.
//!
//! A call passes slices and results through memory, which costs more than most rules. So all that is
//! done at a table is inlined into `visit_table`, but for what is seldom or has a loop of its own.
ghost use Rattle.std.specs.Prelude.{◌+◌, ◌*◌, ◌<◌, ◌≤◌, ◌^◌, length};
ghost use Rattle.fb_layout.specs.Laid.{stored_kind, member_by_code};
ghost use Rattle.fb_value.specs.Num.{num};
ghost use Rattle.fb_value.specs.Places.{table_part, vector_part, ref_place, part_place, named_elements};
ghost use Rattle.fb_read.specs.Visits.{union_place};
ghost use Rattle.fb_read.specs.Values.{led_to};
ghost use Rattle.fb_read.specs.declared.step.Step.{Step};
ghost use Rattle.fb_read.specs.Walks.{place, HasVtable, IsWithin};
ghost use Rattle.fb_read.specs.Ends.{EndsAt, EndsAtEntry, EndsAtEach, slot_at, slots_at};

use crate::buffer::Buffer;
use crate::hearer::Hearer;
use crate::kinds::{align_in, reference_of, size_in};
use crate::part::{Part, PartAt};
use crate::places::{follow, held_slot, stored_slots};
use crate::reference::Reference;
use crate::rules::{enter_table, open_vector, union_code};
use crate::step::Step;
use crate::visit_leaves::{is_settled, visit_code, visit_inline, visit_text_behind};
use crate::walk::{NumberedSlot, TableAt, Walk, leave, pass_over, tell};
use fb_schema::{FieldInfo, Kind, Shape, TypeId};
use fb_value::ReadFault;

/// Visits the table of a reference.
#[inline(always)]
#[cycle(visit)]
pub fn visit_table_behind<H: Hearer>(
    buffer: &Buffer,
    walk: &mut Walk<H>,
    table: TypeId,
    at: usize,
    tables: u8,
) -> Result<(), ReadFault>
    requires low { at < 2 ^ 33 }
    requires limits { IsWithin H.knows buffer.now tables walk.old }
    ensures { EndsAt H.told buffer.now (place (ref_place (table_part table.0)) at) tables walk.old walk.new result }
{
    let target = follow(buffer.bytes, at)?;
    let part_at = PartAt {
        part: Part::Table(table),
        at: target,
    };
    if pass_over(buffer, walk, part_at, at, tables) {
        return Ok(());
    }
    let mark = walk.mark();
    let visited = visit_table(buffer, walk, table, target, tables);
    leave(buffer, walk, part_at, tables, mark, &visited);
    visited
}

#[cycle(visit)]
fn visit_table<H: Hearer>(
    buffer: &Buffer,
    walk: &mut Walk<H>,
    table: TypeId,
    at: usize,
    tables: u8,
) -> Result<(), ReadFault>
    requires low { at < 2 ^ 33 }
    requires limits { IsWithin H.knows buffer.now tables walk.old }
    ensures { EndsAt H.told buffer.now (place (part_place (table_part table.0)) at) tables walk.old walk.new result }
{
    walk.ticks.tick();
    let vtable_at = enter_table(buffer.layout, table, buffer.bytes, at)?;
    if tables >= buffer.most_depth {
        return Err(ReadFault::TooDeep(at as u64));
    }
    if walk.spent >= u64::from(buffer.most_cells) {
        return Err(ReadFault::TooManyCells(at as u64));
    }
    walk.spent += 1;
    let slots = buffer.layout.slots_of(table);
    let table_at = TableAt { at, vtable_at };
    visit_slots(buffer, walk, table, slots, table_at, tables + 1)
}

#[inline(always)]
#[cycle(visit)]
fn visit_slots<H: Hearer>(
    buffer: &Buffer,
    walk: &mut Walk<H>,
    owner: TypeId,
    slots: &[FieldInfo],
    table: TableAt,
    tables: u8,
) -> Result<(), ReadFault>
    requires vtable { HasVtable buffer.now.bytes.now table }
    requires slots { length slots.now < 2 ^ 15 }
    requires limits { IsWithin H.knows buffer.now tables walk.old }
    ensures { EndsAtEach H.told (λ k. Step.Slot owner k) buffer.now (slots_at buffer.now table.at slots.now) tables
        walk.old walk.new result }
{
    let present = stored_slots(buffer.bytes, table.at, table.vtable_at, slots.len());
    for slot in 0..present {
        let field = &slots[slot];
        // Most slots are settled: no result is made for these.
        if is_settled(buffer, field, table, slot) {
            continue;
        }
        let (_before, later) = slots.split_at(slot + 1);
        let numbered = NumberedSlot {
            number: slot,
            field,
            later,
        };
        let visited = visit_slot(buffer, walk, numbered, table, tables);
        tell(walk, Step::Slot(owner, slot as u16), &visited);
        visited?;
    }
    Ok(())
}

// Visits what a slot names that the vtable reaches to.
#[inline(always)]
#[cycle(visit)]
fn visit_slot<H: Hearer>(
    buffer: &Buffer,
    walk: &mut Walk<H>,
    slot: NumberedSlot<'_>,
    table: TableAt,
    tables: u8,
) -> Result<(), ReadFault>
    requires vtable { HasVtable buffer.now.bytes.now table }
    requires held { 6 + 2 * slot.number ≤ num buffer.now.bytes.now table.vtable_at 2 }
    requires slots { slot.number < 2 ^ 15 }
    requires limits { IsWithin H.knows buffer.now tables walk.old }
    ensures { EndsAtEntry H.told buffer.now
        (slot_at buffer.now table.at slot.entry.number slot.entry.later.now slot.entry.field.now) tables
        walk.old walk.new result }
{
    if slot.field.deprecated {
        return Ok(());
    }
    let offset = held_slot(buffer.bytes, table.at, table.vtable_at, slot.number);
    if offset == 0 {
        return Ok(());
    }
    let found = table.at + offset;
    match slot.field.shape {
        Shape::Many(kind) => visit_vector_behind(buffer, walk, kind, found, tables),
        Shape::One(Kind::Text) => visit_text_behind(buffer, walk, found, tables),
        Shape::One(Kind::Table(type_id)) => {
            visit_table_behind(buffer, walk, type_id, found, tables)
        }
        Shape::One(Kind::Union(union)) => {
            let code = union_code(buffer.bytes, table.at, table.vtable_at, slot.number);
            visit_union(buffer, walk, union, code, found, tables)
        }
        Shape::One(Kind::Code(union)) => {
            visit_code(buffer, union, slot.later, table, slot.number, found)
        }
        Shape::One(Kind::Scalar(base)) => visit_inline(buffer, Kind::Scalar(base), found),
        Shape::One(Kind::Enum(values)) => visit_inline(buffer, Kind::Enum(values), found),
        Shape::One(Kind::Struct(structure)) => {
            visit_inline(buffer, Kind::Struct(structure), found)
        }
    }
}

// Visits a union's value under a code.
#[inline(always)]
#[cycle(visit)]
fn visit_union<H: Hearer>(
    buffer: &Buffer,
    walk: &mut Walk<H>,
    union: TypeId,
    code: u8,
    at: usize,
    tables: u8,
) -> Result<(), ReadFault>
    requires low { at < 2 ^ 33 }
    requires limits { IsWithin H.knows buffer.now tables walk.old }
    ensures { EndsAtEntry H.told buffer.now
        (union_place code at (member_by_code buffer.now.layout.now union.0 code)) tables walk.old walk.new result }
{
    match buffer.layout.schema().member_by_code(union, code) {
        Some(table) => visit_table_behind(buffer, walk, table, at, tables),
        None => {
            walk.whole = false;
            Ok(())
        }
    }
}

#[inline(always)]
#[cycle(visit)]
pub fn visit_vector_behind<H: Hearer>(
    buffer: &Buffer,
    walk: &mut Walk<H>,
    kind: Kind,
    at: usize,
    tables: u8,
) -> Result<(), ReadFault>
    requires low { at < 2 ^ 33 }
    requires limits { IsWithin H.knows buffer.now tables walk.old }
    ensures { EndsAt H.told buffer.now (place (ref_place (vector_part
        (stored_kind buffer.now.layout.now.schema kind))) at)
        tables walk.old walk.new result }
{
    let target = follow(buffer.bytes, at)?;
    let part_at = PartAt {
        part: Part::Vector(kind),
        at: target,
    };
    if pass_over(buffer, walk, part_at, at, tables) {
        return Ok(());
    }
    let mark = walk.mark();
    let visited = visit_vector(buffer, walk, kind, target, tables);
    leave(buffer, walk, part_at, tables, mark, &visited);
    visited
}

#[inline(always)]
#[cycle(visit)]
fn visit_vector<H: Hearer>(
    buffer: &Buffer,
    walk: &mut Walk<H>,
    kind: Kind,
    at: usize,
    tables: u8,
) -> Result<(), ReadFault>
    requires low { at < 2 ^ 33 }
    requires limits { IsWithin H.knows buffer.now tables walk.old }
    ensures { EndsAt H.told buffer.now (place (part_place (vector_part
        (stored_kind buffer.now.layout.now.schema kind))) at)
        tables walk.old walk.new result }
{
    walk.ticks.tick();
    let size = size_in(buffer.layout, kind);
    let count = open_vector(buffer.bytes, at, size, align_in(buffer.layout, kind))?;
    let most = u64::from(buffer.most_cells);
    let after = walk.spent + (1 + u64::from(count));
    if after > most {
        return Err(ReadFault::TooManyCells(at as u64));
    }
    walk.spent = after;
    let first = at + 4;
    match reference_of(kind) {
        Some(reference) => visit_elements(buffer, walk, reference, first, count, tables),
        None => Ok(()),
    }
}

// Visits what the references from a position on lead to.
#[inline(never)]
#[cycle(visit)]
fn visit_elements<H: Hearer>(
    buffer: &Buffer,
    walk: &mut Walk<H>,
    reference: Reference,
    at: usize,
    count: u32,
    tables: u8,
) -> Result<(), ReadFault>
    requires within { at + count * 4 ≤ length buffer.now.bytes.now }
    requires limits { IsWithin H.knows buffer.now tables walk.old }
    ensures { EndsAtEach H.told (λ i. Step.Element i) buffer.now (named_elements (led_to reference) at count) tables
        walk.old walk.new result }
{
    for i in 0..count {
        let visited = visit_behind(buffer, walk, reference, at + 4 * i as usize, tables);
        tell(walk, Step::Element(i), &visited);
        visited?;
    }
    Ok(())
}

#[inline(always)]
#[cycle(visit)]
fn visit_behind<H: Hearer>(
    buffer: &Buffer,
    walk: &mut Walk<H>,
    reference: Reference,
    at: usize,
    tables: u8,
) -> Result<(), ReadFault>
    requires low { at < 2 ^ 33 }
    requires limits { IsWithin H.knows buffer.now tables walk.old }
    ensures { EndsAt H.told buffer.now (place (ref_place (led_to reference)) at)
        tables walk.old walk.new result }
{
    match reference {
        Reference::ToText => visit_text_behind(buffer, walk, at, tables),
        Reference::ToTable(table) => visit_table_behind(buffer, walk, table, at, tables),
    }
}
