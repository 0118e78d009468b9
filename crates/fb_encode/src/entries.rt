//! Slots of a table: what each stores is noted as its member is read.
ghost use Rattle.std.specs.Prelude.{◌≡◌, [], IfErr, IfOk, Ok, Option, Some, false};
ghost use Rattle.serde_json.specs.View.{view as tree_view};
ghost use Rattle.fb_schema.specs.Seen.{field_seen};
ghost use Rattle.fb_schema.specs.WellDeclared.{MarksFit};
ghost use Rattle.fb_schema.specs.declared.kinds.Kind.TheVariants.{Struct};
ghost use Rattle.fb_schema.specs.declared.kinds.Shape.TheVariants.{One};
ghost use Rattle.fb_layout.specs.Laid.{stored_kind, stored_shape, struct_kind};
ghost use Rattle.fb_layout.specs.Seen.{slot_seen};
ghost use Rattle.fb_tape.specs.InlineBytes.{IsInline};
ghost use Rattle.fb_tape.specs.Tapes.{Taped};
ghost use Rattle.fb_json.specs.Meant.{slot_place};
ghost use Rattle.fb_json.specs.Outcome.{Fails};
ghost use Rattle.fb_json.specs.SlotMembers.{is_of_union, tree_seen};
ghost use Rattle.fb_encode.specs.StoredAs.{IsStoredAs};
ghost use Rattle.fb_encode.specs.SlotsRead.{NotesSlot, left_of, present_given, slot_given};
ghost use Rattle.fb_encode.specs.TreesNoted.{IsEntryNoted, IsPart, IsSlot};

use crate::elements::drop_number;
use crate::parts::{note_object, note_part};
use fb_build::{Noting, is_default};
use fb_json::{
    JsonContext, JsonFault, Place, Room, entry_without_member, is_null, number_of, struct_parts,
};
use fb_layout::layout_is_well_made;
use fb_schema::{FieldInfo, Kind, Shape, TypeId};
use fb_tape::OpenFields;
use fb_value::Value;
use serde_json::Value as Json;

/// A slot of a table that is read.
#[derive(Clone, Copy)]
pub(crate) struct SlotRead<'s> {
    pub(crate) owner: TypeId,
    pub(crate) number: u16,
    pub(crate) field: &'s FieldInfo,
    /// The union code that was told last.
    pub(crate) code: u8,
}

impl SlotRead<'_> {
    /// Where the slot's faults are.
    pub(crate) fn place(self) -> Place
        ensures { result ≡ slot_place self.entry.owner.0 self.entry.number }
    {
        Place {
            owner: self.owner,
            slot: Some(self.number),
        }
    }
}

/// What a slot stores of its member.
#[derive(Clone, Copy)]
enum StoredForm {
    /// A union's code, which is stored with the union's value.
    WithItsValue,
    /// A number or a struct.
    Inline(Kind),
    /// A reference to a text, a table or a vector.
    Reference,
    /// A reference to the table of a union's member.
    Member(TypeId),
}

/// What a slot of a shape stores.
fn stored_as(shape: Shape) -> StoredForm
    ensures { IsStoredAs shape result }
{
    let Shape::One(kind) = shape else {
        return StoredForm::Reference;
    };
    match kind {
        Kind::Scalar(_) | Kind::Enum(_) | Kind::Struct(_) => StoredForm::Inline(kind),
        Kind::Text | Kind::Table(_) => StoredForm::Reference,
        Kind::Union(union) => StoredForm::Member(union),
        Kind::Code(_) => StoredForm::WithItsValue,
    }
}

/// Notes the table of a union's member, after its code in the slot before, and returns the cells that are left.
#[cycle(notes)]
fn note_member(
    source: JsonContext,
    noting: &mut Noting<'_>,
    slot: SlotRead<'_>,
    union: TypeId,
    tree: &Json,
    levels: u8,
    left: u32,
) -> Result<u32, JsonFault>
    requires layout { noting.old.tape.layout ≡ source.layout.now }
    requires whole { noting.old.tape.unfinished ≡ [] }
    requires slot { IsSlot source.layout.now slot.owner.0 slot.number (slot_seen source.layout.now slot.field.now) }
    requires used { slot.field.now.deprecated ≡ false }
    requires union { slot.field.now.shape ≡ One (Kind.Union union) }
    ensures noted { let L = source.entry.layout.now in IfOk result (NotesSlot L slot.entry
        (present_given L source.entry.unknown slot.entry (tree_view tree.now) levels left) noting.old noting.new) }
    ensures refused { IfErr result (λ e. Fails e (present_given source.entry.layout.now source.entry.unknown
        slot.entry (tree_view tree.now) levels left)) }
{
    layout_is_well_made(source.layout);
    let place = slot.place();
    let Some(table) = source.layout.schema().member_by_code(union, slot.code) else {
        return Err(JsonFault::UnionMismatch(place));
    };
    noting.opened.push_code(slot.number - 1, slot.code)?;
    let left = note_object(source, noting, tree, table, place, levels, left)?;
    noting.opened.push_reference(slot.number)?;
    Ok(left)
}

/// Notes what a slot's reference names, and returns the cells that are left.
#[cycle(notes)]
fn note_reference(
    source: JsonContext,
    noting: &mut Noting<'_>,
    slot: SlotRead<'_>,
    tree: &Json,
    levels: u8,
    left: u32,
) -> Result<u32, JsonFault>
    requires layout { noting.old.tape.layout ≡ source.layout.now }
    requires whole { noting.old.tape.unfinished ≡ [] }
    requires used { slot.field.now.deprecated ≡ false }
    requires part { IsPart source.layout.now (stored_shape source.layout.now.schema slot.field.now.shape) }
    ensures noted { let L = source.entry.layout.now in IfOk result (NotesSlot L slot.entry
        (present_given L source.entry.unknown slot.entry (tree_view tree.now) levels left) noting.old noting.new) }
    ensures refused { IfErr result (λ e. Fails e (present_given source.entry.layout.now source.entry.unknown
        slot.entry (tree_view tree.now) levels left)) }
{
    let place = slot.place();
    let left = note_part(source, noting, tree, slot.field.shape, place, levels, left)?;
    noting.opened.push_reference(slot.number)?;
    Ok(left)
}

/// Notes a struct, and returns the cells that are left.
fn note_struct(
    source: JsonContext,
    opened: &mut OpenFields,
    slot: SlotRead<'_>,
    structure: TypeId,
    tree: &Json,
    levels: u8,
    left: u32,
) -> Result<u32, JsonFault>
    requires used { slot.field.now.deprecated ≡ false }
    requires kind { slot.field.now.shape ≡ One (Struct structure) }
    requires inline { IsInline source.layout.now (struct_kind structure.0) }
    ensures noted { let L = source.entry.layout.now in
        IfOk result (λ rest. (T : Taped) → T.unfinished ≡ [] → IsEntryNoted L slot.entry.number
        (slot_seen L slot.entry.field.now)
        (present_given L source.entry.unknown slot.entry (tree_view tree.now) levels left)
        T T opened.old opened.new rest) }
    ensures refused { IfErr result (λ e. Fails e (present_given source.entry.layout.now source.entry.unknown
        slot.entry (tree_view tree.now) levels left)) }
{
    let mut parts = Vec::new(source.alloc);
    let place = slot.place();
    let room = Room { levels, left };
    let left = struct_parts(source, tree, structure, place, room, &mut parts)?;
    opened.push_struct(source.layout, slot.number, structure, parts.as_slice())?;
    Ok(left)
}

/// Notes a number or a struct, unless it is the slot's default, and returns the cells that are left.
fn note_inline(
    source: JsonContext,
    opened: &mut OpenFields,
    slot: SlotRead<'_>,
    kind: Kind,
    tree: &Json,
    levels: u8,
    left: u32,
) -> Result<u32, JsonFault>
    requires used { slot.field.now.deprecated ≡ false }
    requires kind { slot.field.now.shape ≡ One kind }
    requires plain { is_of_union slot.field.now.shape ≡ false }
    requires inline { IsInline source.layout.now (stored_kind source.layout.now.schema kind) }
    ensures noted { let L = source.entry.layout.now in
        IfOk result (λ rest. (T : Taped) → T.unfinished ≡ [] → IsEntryNoted L slot.entry.number
        (slot_seen L slot.entry.field.now)
        (present_given L source.entry.unknown slot.entry (tree_view tree.now) levels left)
        T T opened.old opened.new rest) }
    ensures refused { IfErr result (λ e. Fails e (present_given source.entry.layout.now source.entry.unknown
        slot.entry (tree_view tree.now) levels left)) }
{
    if let Kind::Struct(structure) = kind {
        return note_struct(source, opened, slot, structure, tree, levels, left);
    }
    let Some(number) = number_of(source, tree, kind, slot.place()) else {
        unreachable!();
    };
    let value = Value::Number(number?);
    if is_default(slot.field, &value) {
        drop_number(value);
        return Ok(left);
    }
    let pushed = opened.push_inline(source.layout, slot.number, kind, &value);
    drop_number(value);
    pushed?;
    Ok(left)
}

/// Notes what a slot in use stores of its member, which isn't `null`, and returns the cells that are left.
#[cycle(notes)]
fn note_present(
    source: JsonContext,
    noting: &mut Noting<'_>,
    slot: SlotRead<'_>,
    tree: &Json,
    levels: u8,
    left: u32,
) -> Result<u32, JsonFault>
    requires layout { noting.old.tape.layout ≡ source.layout.now }
    requires whole { noting.old.tape.unfinished ≡ [] }
    requires slot { IsSlot source.layout.now slot.owner.0 slot.number (slot_seen source.layout.now slot.field.now) }
    requires marks { MarksFit source.layout.now.schema (field_seen slot.field.now) slot.field.now.shape }
    requires used { slot.field.now.deprecated ≡ false }
    ensures noted { let L = source.entry.layout.now in IfOk result (NotesSlot L slot.entry
        (present_given L source.entry.unknown slot.entry (tree_view tree.now) levels left) noting.old noting.new) }
    ensures refused { IfErr result (λ e. Fails e (present_given source.entry.layout.now source.entry.unknown
        slot.entry (tree_view tree.now) levels left)) }
{
    layout_is_well_made(source.layout);
    match stored_as(slot.field.shape) {
        StoredForm::WithItsValue => Ok(left),
        StoredForm::Inline(kind) => {
            note_inline(source, &mut noting.opened, slot, kind, tree, levels, left)
        }
        StoredForm::Reference => note_reference(source, noting, slot, tree, levels, left),
        StoredForm::Member(union) => note_member(source, noting, slot, union, tree, levels, left),
    }
}

/// The cells that are left after an entry.
fn left_of(read: Result<(Option<Value>, u32), JsonFault>) -> Result<u32, JsonFault>
    ensures { result ≡ left_of read }
{
    match read {
        Ok((_entry, left)) => Ok(left),
        Err(fault) => Err(fault),
    }
}

/// Notes what a slot stores, and returns the cells that are left.
#[cycle(notes)]
pub(crate) fn note_slot(
    source: JsonContext,
    noting: &mut Noting<'_>,
    slot: SlotRead<'_>,
    tree: Option<&Json>,
    levels: u8,
    left: u32,
) -> Result<u32, JsonFault>
    requires layout { noting.old.tape.layout ≡ source.layout.now }
    requires whole { noting.old.tape.unfinished ≡ [] }
    requires slot { IsSlot source.layout.now slot.owner.0 slot.number (slot_seen source.layout.now slot.field.now) }
    requires marks { MarksFit source.layout.now.schema (field_seen slot.field.now) slot.field.now.shape }
    ensures noted { let L = source.entry.layout.now in IfOk result (NotesSlot L slot.entry
        (slot_given L source.entry.unknown slot.entry (tree_seen tree.entry) levels left) noting.old noting.new) }
    ensures refused { IfErr result (λ e. Fails e (slot_given source.entry.layout.now source.entry.unknown
        slot.entry (tree_seen tree.entry) levels left)) }
{
    if slot.field.deprecated {
        return Ok(left);
    }
    let Some(tree) = tree else {
        return left_of(entry_without_member(slot.field, slot.place(), slot.code, left));
    };
    if is_null(tree) {
        return left_of(entry_without_member(slot.field, slot.place(), slot.code, left));
    }
    note_present(source, noting, slot, tree, levels, left)
}
