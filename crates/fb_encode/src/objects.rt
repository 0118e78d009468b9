//! Tables of an excerpt that is long: their members are read one by one.
ghost use Rattle.std.specs.Prelude.{◌≡◌, ◌≢◌, ◌≤◌, ◌<◌, ◌-◌, ◌||◌, ◌++◌, ◌∷◌, [], ℕ, Bool, Err, IfErr, IfOk, IfSome};
ghost use Rattle.std.specs.Prelude.{None, Ok, OnOk, Some, false, length, true};
ghost use Rattle.serde_json.specs.Data.{Data, Members, null};
ghost use Rattle.fb_schema.specs.declared.kinds.Kind.TheVariants.{Table};
ghost use Rattle.fb_schema.specs.declared.kinds.Shape.TheVariants.{One};
ghost use Rattle.fb_schema.specs.Schema.{body_at};
ghost use Rattle.fb_schema.specs.Seen.{field_seen};
ghost use Rattle.fb_schema.specs.WellDeclared.{MarksFit};
ghost use Rattle.fb_layout.specs.Laid.{LaidSchema, one_of, table_kind, stored_shape};
ghost use Rattle.fb_layout.specs.Seen.{slot_seen};
ghost use Rattle.fb_tape.specs.OpenFields.{reference_field};
ghost use Rattle.fb_json.specs.Meant.{Look, if_known, meant, names_known, table_meant, type_place};
ghost use Rattle.fb_json.specs.SlotMembers.{looked_up};
ghost use Rattle.fb_pieces.specs.Reads.{read_at};
ghost use Rattle.fb_pieces.specs.ReadByPieces.{IsCutIntoMembers};
ghost use Rattle.fb_encode.specs.declared.entries.StoredForm.TheVariants.{Reference};
ghost use Rattle.fb_encode.specs.Found.{IfFault, IfFound, found_of};
ghost use Rattle.fb_encode.specs.SlotTexts.{AreTextsRead, IsSlotNotedOr, text_found};
ghost use Rattle.fb_encode.specs.StoredAs.{IsStoredAs};
ghost use Rattle.fb_encode.specs.TextsRead.{IsNotedOr, IsRead, IsReadAs};
ghost use Rattle.fb_encode.specs.TreesNoted.{IsPart, IsSlot};

use crate::entries::{SlotRead, note_slot};
use crate::excerpts::{TextWalk, Wanted, note_at_once, note_excerpt};
use crate::outlines::container_of;
use crate::reader::{JsonExcerpt, Reader, Unread, innermost};
use crate::slot_texts::{SlotTexts, members_of, pass_by_text, texts_by_slot};
use crate::stand_ins::stand_in;
use crate::steps::{after_step, trace_member};
use crate::unnoted::Unnoted;
use fb_json::{JsonContext, JsonFault, JsonStep, Room, code_of_slot, is_absent};
use fb_layout::layout_is_well_made;
use fb_pieces::{
    MOST_BRACKETS, cut_object_is_read, cut_object_is_utf8, text_is_read_without_brackets,
};
use fb_schema::{Kind, Shape, TypeId};
use serde_json::Value as Json;

/// What is left after a slot: the last union code, and the cells.
#[derive(Clone, Copy)]
struct AfterSlot {
    code: u8,
    left: u32,
}

/// What is left before the first slot of a table.
fn before_slots(known: Result<(), JsonFault>, wanted: Wanted) -> Result<AfterSlot, Unnoted>
    ensures levels { OnOk result (0 < wanted.levels) }
    ensures cells { OnOk result (0 < wanted.left) }
    ensures known { OnOk result (known ≡ Ok tt) }
    ensures rest { IfOk result (λ first. first.left ≡ wanted.left - 1) }
    ensures code { IfOk result (λ first. first.code ≡ 0) }
    ensures refused { (L : LaidSchema) (unknown : Bool) (ms : Members) (seen : Look) (t : ℕ)
        → known ≡ if_known (unknown || names_known (body_at L.schema t) ms) (type_place t)
        → IfErr result (λ e. IfFault e (λ f.
        table_meant L unknown ms seen t wanted.place wanted.levels wanted.left ≡ Err f)) }
{
    if wanted.levels == 0 {
        return Err(Unnoted::Fault(JsonFault::TooDeep(wanted.place)));
    }
    if wanted.left == 0 {
        return Err(Unnoted::Fault(JsonFault::TooManyCells(wanted.place)));
    }
    known?;
    Ok(AfterSlot {
        code: 0,
        left: wanted.left - 1,
    })
}

/// Checks texts of members, of which no trees are made.
fn check_texts(reader: &mut Reader, texts: &[Option<JsonExcerpt<'_>>]) -> Result<(), Unread>
    ensures { OnOk result (AreTextsRead texts.now) }
{
    for text in texts {
        pass_by_text(reader, *text)?;
    }
    Ok(())
}

/// What was found before these texts. After a fault they are checked, since it is a fault only of a text that is JSON.
fn once_texts_read(
    reader: &mut Reader,
    texts: &[Option<JsonExcerpt<'_>>],
    found: Result<AfterSlot, Unnoted>,
) -> Result<AfterSlot, Unnoted>
    ensures same { IfFound result (λ now. found_of found ≡ Some now) }
    ensures read { IfFound result (λ now. IfErr now (λ f. AreTextsRead texts.now)) }
{
    if let Err(Unnoted::Fault(_)) = found {
        check_texts(reader, texts)?;
    }
    found
}

/// Notes a table, and returns the cells that are left.
#[cycle(reads)]
pub(crate) fn note_members(
    source: JsonContext,
    walk: &mut TextWalk<'_>,
    excerpt: JsonExcerpt<'_>,
    owner: TypeId,
    wanted: Wanted,
) -> Result<u32, Unnoted>
    requires layout { walk.old.noting.tape.layout ≡ source.layout.now }
    requires whole { walk.old.noting.tape.unfinished ≡ [] }
    requires shape { wanted.shape ≡ One (Table owner) }
    requires part { IsPart source.layout.now (stored_shape source.layout.now.schema (One (Table owner))) }
    requires some { 0 < excerpt.brackets }
    requires brackets { excerpt.brackets ≤ 127 }
    ensures noted { let L = source.entry.layout.now in IfFound result (λ found. (t : Data)
        × IsReadAs excerpt.entry.brackets excerpt.entry.text.now t
        × IsNotedOr L (one_of (table_kind owner.0))
        (meant L source.entry.unknown t (One (Table owner)) wanted.place wanted.levels wanted.left)
        walk.old.noting.tape walk.new.noting.tape found) }
    ensures opened { OnOk result (walk.new.noting.opened ≡ walk.old.noting.opened) }
{
    let Some(members) = members_of(source.alloc, excerpt, &walk.reader.cuts)? else {
        return note_at_once(source, walk, excerpt, wanted);
    };
    layout_is_well_made(source.layout);
    let slots = source.layout.slots_of(owner);
    let SlotTexts { texts, known } = texts_by_slot(
        source,
        &mut walk.reader,
        excerpt,
        owner,
        slots,
        members.as_slice(),
    )?;
    cut_object_is_read();
    cut_object_is_utf8();
    let opened = walk.noting.opened.len();
    let first = before_slots(known, wanted);
    let mut after = once_texts_read(&mut walk.reader, texts.as_slice(), first)?;
    for (k, field) in slots.iter().enumerate() {
        let slot = SlotRead {
            owner,
            number: k as u16,
            field,
            code: 0,
        };
        let noted = note_next(source, walk, slot, texts[k], after, wanted.levels - 1);
        after = once_texts_read(&mut walk.reader, &texts[k + 1..], noted)?;
    }
    let noting = &mut walk.noting;
    noting.tape.close_table(owner, &noting.opened, opened)?;
    noting.opened.truncate(opened);
    Ok(after.left)
}

/// Notes the next slot of a table, whose member has this text, or which has none.
#[cycle(reads)]
fn note_next(
    source: JsonContext,
    walk: &mut TextWalk<'_>,
    slot: SlotRead<'_>,
    text: Option<JsonExcerpt<'_>>,
    after: AfterSlot,
    levels: u8,
) -> Result<AfterSlot, Unnoted>
    requires layout { walk.old.noting.tape.layout ≡ source.layout.now }
    requires whole { walk.old.noting.tape.unfinished ≡ [] }
    requires slot { IsSlot source.layout.now slot.owner.0 slot.number (slot_seen source.layout.now slot.field.now) }
    requires marks { MarksFit source.layout.now.schema (field_seen slot.field.now) slot.field.now.shape }
    requires brackets { IfSome text (λ e. e.brackets ≤ 127) }
    requires old { slot.field.now.deprecated ≡ true → text ≡ None }
    ensures read { IfFound result (λ now. IfSome text.entry (λ e. IsRead e.brackets e.text.now)) }
    ensures noted { let L = source.entry.layout.now in (seen : Look) → (slot.entry.field.now.deprecated ≡ false
        → seen (field_seen slot.entry.field.now).name ≡ text_found L source.entry.unknown text.entry)
        → IfFound result (IsSlotNotedOr L seen slot.entry levels after walk.old.noting walk.new.noting) }
{
    let noted = note_slot_text(source, walk, slot, text, after, levels);
    after_step(
        &mut walk.trail,
        JsonStep::Slot(slot.owner, slot.number),
        noted,
    )
}

/// The same without the slot's step to a fault.
#[cycle(reads)]
fn note_slot_text(
    source: JsonContext,
    walk: &mut TextWalk<'_>,
    slot: SlotRead<'_>,
    text: Option<JsonExcerpt<'_>>,
    after: AfterSlot,
    levels: u8,
) -> Result<AfterSlot, Unnoted>
    requires layout { walk.old.noting.tape.layout ≡ source.layout.now }
    requires whole { walk.old.noting.tape.unfinished ≡ [] }
    requires slot { IsSlot source.layout.now slot.owner.0 slot.number (slot_seen source.layout.now slot.field.now) }
    requires marks { MarksFit source.layout.now.schema (field_seen slot.field.now) slot.field.now.shape }
    requires brackets { IfSome text (λ e. e.brackets ≤ 127) }
    requires old { slot.field.now.deprecated ≡ true → text ≡ None }
    ensures read { IfFound result (λ now. IfSome text.entry (λ e. IsRead e.brackets e.text.now)) }
    ensures noted { let L = source.entry.layout.now in (seen : Look) → (slot.entry.field.now.deprecated ≡ false
        → seen (field_seen slot.entry.field.now).name ≡ text_found L source.entry.unknown text.entry)
        → IfFound result (IsSlotNotedOr L seen slot.entry levels after walk.old.noting walk.new.noting) }
{
    layout_is_well_made(source.layout);
    let Some(text) = text else {
        if slot.field.deprecated || is_absent(slot.field, None) {
            return Ok(after);
        }
        return note_tree(source, walk, slot, None, after, levels);
    };
    if walk.reader.is_long(text) && is_in_pieces(slot.field.shape) && is_enclosed(text.text) {
        return note_reference(source, walk, slot, text, after, levels);
    }
    if let Shape::One(Kind::Union(union)) = slot.field.shape {
        if walk.reader.is_long(text) && is_enclosed(text.text) {
            return note_union(source, walk, slot, union, text, after, levels);
        }
    }
    if let Some(tree) = stand_in(source, &mut walk.reader, text, slot.field.shape)? {
        return note_tree(source, walk, slot, Some(&tree), after, levels);
    }
    text_is_read_without_brackets();
    let read = walk.reader.read(text)?;
    let Some(tree) = innermost(&read, MOST_BRACKETS - text.brackets) else {
        return Err(Unnoted::Unread(Unread::Piece));
    };
    note_tree(source, walk, slot, Some(tree), after, levels)
}

/// Whether what a slot of this shape names may be read in pieces.
fn is_in_pieces(shape: Shape) -> bool
    ensures { result ≡ true → IsStoredAs shape Reference }
{
    matches!(shape, Shape::Many(_) | Shape::One(Kind::Table(_)))
}

/// Whether a text begins with a bracket, brace or quote, after blanks.
fn is_enclosed(text: &[u8]) -> bool
    ensures { result ≡ true → (brackets : ℕ) → read_at brackets text.now ≢ Some null }
{
    container_of(text).is_some()
}

/// Notes a slot whose member is a tree, or which has none.
fn note_tree(
    source: JsonContext,
    walk: &mut TextWalk<'_>,
    slot: SlotRead<'_>,
    tree: Option<&Json>,
    after: AfterSlot,
    levels: u8,
) -> Result<AfterSlot, Unnoted>
    requires layout { walk.old.noting.tape.layout ≡ source.layout.now }
    requires whole { walk.old.noting.tape.unfinished ≡ [] }
    requires slot { IsSlot source.layout.now slot.owner.0 slot.number (slot_seen source.layout.now slot.field.now) }
    requires marks { MarksFit source.layout.now.schema (field_seen slot.field.now) slot.field.now.shape }
    ensures noted { let L = source.entry.layout.now in (seen : Look) → seen (field_seen slot.entry.field.now).name
        ≡ looked_up L source.entry.unknown tree.entry
        → IfFound result (IsSlotNotedOr L seen slot.entry levels after walk.old.noting walk.new.noting) }
{
    let code = code_of_slot(source, slot.field, tree, slot.place(), after.code)?;
    let slot = SlotRead { code, ..slot };
    match note_slot(source, &mut walk.noting, slot, tree, levels, after.left) {
        Ok(left) => Ok(AfterSlot { code, left }),
        Err(fault) => {
            let room = Room {
                levels,
                left: after.left,
            };
            trace_member(source, &mut walk.trail, slot, tree, room)?;
            Err(Unnoted::from(fault))
        }
    }
}

/// Notes what the reference of a slot names, whose text is long, and returns the cells that are left.
#[cycle(reads)]
fn note_named(
    source: JsonContext,
    walk: &mut TextWalk<'_>,
    number: u16,
    text: JsonExcerpt<'_>,
    wanted: Wanted,
) -> Result<u32, Unnoted>
    requires layout { walk.old.noting.tape.layout ≡ source.layout.now }
    requires whole { walk.old.noting.tape.unfinished ≡ [] }
    requires part { IsPart source.layout.now (stored_shape source.layout.now.schema wanted.shape) }
    requires brackets { text.brackets ≤ 127 }
    ensures noted { let L = source.entry.layout.now in IfFound result (λ found. (t : Data)
        × IsReadAs text.entry.brackets text.entry.text.now t
        × IsNotedOr L (stored_shape L.schema wanted.shape)
        (meant L source.entry.unknown t wanted.shape wanted.place wanted.levels wanted.left)
        walk.old.noting.tape walk.new.noting.tape found) }
    ensures opened { OnOk result (walk.new.noting.opened
        ≡ walk.old.noting.opened ++ (reference_field number ∷ [])) }
{
    let left = note_excerpt(source, walk, text, wanted)?;
    walk.noting.opened.push_reference(number)?;
    Ok(left)
}

/// Notes a slot whose member is long, and is read in pieces.
#[cycle(reads)]
fn note_reference(
    source: JsonContext,
    walk: &mut TextWalk<'_>,
    slot: SlotRead<'_>,
    text: JsonExcerpt<'_>,
    after: AfterSlot,
    levels: u8,
) -> Result<AfterSlot, Unnoted>
    requires layout { walk.old.noting.tape.layout ≡ source.layout.now }
    requires whole { walk.old.noting.tape.unfinished ≡ [] }
    requires used { slot.field.now.deprecated ≡ false }
    requires part { IsPart source.layout.now (stored_shape source.layout.now.schema slot.field.now.shape) }
    requires brackets { text.brackets ≤ 127 }
    requires bracketed { (brackets : ℕ) → read_at brackets text.text.now ≢ Some null }
    ensures read { IfFound result (λ now. IsRead text.entry.brackets text.entry.text.now) }
    ensures noted { let L = source.entry.layout.now in (seen : Look) → seen (field_seen slot.entry.field.now).name
        ≡ text_found L source.entry.unknown (Some text.entry)
        → IfFound result (IsSlotNotedOr L seen slot.entry levels after walk.old.noting walk.new.noting) }
{
    let wanted = Wanted {
        shape: slot.field.shape,
        place: slot.place(),
        levels,
        left: after.left,
    };
    let left = note_named(source, walk, slot.number, text, wanted)?;
    Ok(AfterSlot { left, ..after })
}

/// Notes a union whose member is long, and is read in pieces under the table that its code names.
#[cycle(reads)]
fn note_union(
    source: JsonContext,
    walk: &mut TextWalk<'_>,
    slot: SlotRead<'_>,
    union: TypeId,
    text: JsonExcerpt<'_>,
    after: AfterSlot,
    levels: u8,
) -> Result<AfterSlot, Unnoted>
    requires layout { walk.old.noting.tape.layout ≡ source.layout.now }
    requires whole { walk.old.noting.tape.unfinished ≡ [] }
    requires slot { IsSlot source.layout.now slot.owner.0 slot.number (slot_seen source.layout.now slot.field.now) }
    requires used { slot.field.now.deprecated ≡ false }
    requires union { slot.field.now.shape ≡ One (Kind.Union union) }
    requires brackets { text.brackets ≤ 127 }
    requires bracketed { (brackets : ℕ) → read_at brackets text.text.now ≢ Some null }
    ensures read { IfFound result (λ now. IsRead text.entry.brackets text.entry.text.now) }
    ensures noted { let L = source.entry.layout.now in (seen : Look) → seen (field_seen slot.entry.field.now).name
        ≡ text_found L source.entry.unknown (Some text.entry)
        → IfFound result (IsSlotNotedOr L seen slot.entry levels after walk.old.noting walk.new.noting) }
{
    layout_is_well_made(source.layout);
    let (place, code) = (slot.place(), after.code);
    let Some(table) = source.layout.schema().member_by_code(union, code) else {
        walk.reader.pass_by(text)?;
        return Err(Unnoted::Fault(JsonFault::UnionMismatch(place)));
    };
    walk.noting.opened.push_code(slot.number - 1, code)?;
    let wanted = Wanted {
        shape: Shape::One(Kind::Table(table)),
        place,
        levels,
        left: after.left,
    };
    let left = note_named(source, walk, slot.number, text, wanted)?;
    Ok(AfterSlot { code, left })
}
