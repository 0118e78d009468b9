//! Texts of the members of a table or struct, each at the slot or field that its name finds.
ghost use Rattle.std.specs.Prelude.{◌≡◌, ◌≤◌, ◌<◌, ◌-◌, ◌||◌, Err, IfOk, IfSome, None, OnOk, if◌then◌else◌, map};
ghost use Rattle.std.specs.Prelude.{length, option_copied, option_map, replicate};
ghost use Rattle.serde_json.specs.Data.{string};
ghost use Rattle.fb_schema.specs.Found.{field_named};
ghost use Rattle.fb_schema.specs.Schema.{body_at};
ghost use Rattle.fb_schema.specs.Seen.{field_seen};
ghost use Rattle.fb_json.specs.declared.faults.JsonFault.TheVariants.{UnknownMember};
ghost use Rattle.fb_json.specs.Meant.{if_known, is_used, names_known, type_place};
ghost use Rattle.fb_json.specs.SlotMembers.{AreFieldsOf};
ghost use Rattle.fb_pieces.specs.CutTexts.{member_texts, piece_text};
ghost use Rattle.fb_pieces.specs.ReadByPieces.{IsCutIntoMembers};
ghost use Rattle.fb_encode.specs.MembersRead.{AreNamesRead, AreValuesRead, name_read, object_read};
ghost use Rattle.fb_encode.specs.SlotTexts.{AreTextsOf, AreTextsRead, IsPieceOf, text_over, texts_with};
ghost use Rattle.fb_encode.specs.TextsRead.{IsRead, IsReadAs};

use crate::reader::{JsonExcerpt, Reader, Unread};
use fb_json::{JsonContext, JsonFault, Place};
use fb_layout::layout_is_well_made;
use fb_pieces::{Cuts, Member, Piece, cut_object};
use fb_schema::{FieldInfo, TypeId};
use std::alloc::{AllocError, Global};

/// The texts of a table's members by its slots, or of a struct's by its fields, and the fault of a name that no slot in
/// use has.
#[derive(Drop)]
pub(crate) struct SlotTexts<'t> {
    pub(crate) texts: Vec<Option<JsonExcerpt<'t>>>,
    pub(crate) known: Result<(), JsonFault>,
}

/// The members of an object's text, if it can be cut and has some.
pub(crate) fn members_of(
    alloc: Global,
    excerpt: JsonExcerpt<'_>,
    cuts: &Cuts,
) -> Result<Option<Vec<Member>>, AllocError>
    ensures cut { IfOk result (λ cut. IfSome cut (λ members.
        IsCutIntoMembers excerpt.entry.text.now members.items)) }
    ensures some { IfOk result (λ cut. IfSome cut (λ members. 0 < length members.items)) }
{
    let Some(members) = cut_object(alloc, excerpt.text, excerpt.at, cuts)? else {
        return Ok(None);
    };
    if members.is_empty() {
        return Ok(None);
    }
    Ok(Some(members))
}

/// No text for each of some slots.
fn no_texts<'t>(alloc: Global, slots: usize) -> Result<Vec<Option<JsonExcerpt<'t>>>, AllocError>
    ensures { IfOk result (λ texts. texts.items ≡ replicate slots None) }
{
    vec![in alloc; None; slots]
}

/// The text of each slot's member. What no slot takes is read here: the value of a name that comes again, and one of
/// a name that no slot in use has.
pub(crate) fn texts_by_slot<'t>(
    source: JsonContext,
    reader: &mut Reader,
    excerpt: JsonExcerpt<'t>,
    owner: TypeId,
    slots: &[FieldInfo],
    members: &[Member],
) -> Result<SlotTexts<'t>, Unread>
    requires cut { IsCutIntoMembers excerpt.text.now members.now }
    requires slots { AreFieldsOf (map field_seen slots.now) (body_at source.layout.now.schema owner.0) }
    requires some { 0 < excerpt.brackets }
    requires brackets { excerpt.brackets ≤ 127 }
    ensures names { OnOk result (AreNamesRead (excerpt.entry.brackets - 1)
        (map (member_texts excerpt.entry.text.now) members.now)) }
    ensures texts { IfOk result (λ found. AreTextsOf (excerpt.entry.brackets - 1) found.texts.items
        (map field_seen slots.now) (map (member_texts excerpt.entry.text.now) members.now)) }
    ensures values { IfOk result (λ found. AreTextsRead found.texts.items → AreValuesRead (excerpt.entry.brackets - 1)
        (map (member_texts excerpt.entry.text.now) members.now)) }
    ensures known { let L = source.entry.layout.now in IfOk result (λ found. found.known ≡ if_known
        (source.entry.unknown || names_known (body_at L.schema owner.0) (object_read (excerpt.entry.brackets - 1)
        (map (member_texts excerpt.entry.text.now) members.now))) (type_place owner.0)) }
{
    layout_is_well_made(source.layout);
    let mut texts = no_texts(source.alloc, slots.len())?;
    let mut known = Ok(());
    for member in members {
        let name = piece_of(excerpt, member.name);
        let value = piece_of(excerpt, member.value);
        let field = field_read(source, reader, owner, name)?;
        let over = put_text(&mut texts, field, value);
        pass_by_text(reader, over)?;
        known = known_with(known, source.unknown, field, owner);
    }
    Ok(SlotTexts { texts, known })
}

/// A piece of an excerpt, in one more bracket.
pub(crate) fn piece_of<'t>(excerpt: JsonExcerpt<'t>, piece: Piece) -> JsonExcerpt<'t>
    requires within { IsPieceOf excerpt.text.now piece }
    requires some { 0 < excerpt.brackets }
    ensures text { result.text.now ≡ piece_text excerpt.entry.text.now piece }
    ensures brackets { result.brackets ≡ excerpt.entry.brackets - 1 }
{
    JsonExcerpt {
        text: &excerpt.text[piece.start..piece.end],
        brackets: excerpt.brackets - 1,
        at: excerpt.at.saturating_add(piece.start),
    }
}

/// The field that a name finds, which is read.
fn field_read<'s>(
    source: JsonContext<'s>,
    reader: &mut Reader,
    owner: TypeId,
    name: JsonExcerpt<'_>,
) -> Result<Option<&'s FieldInfo>, Unread>
    requires { name.brackets ≤ 127 }
    ensures name { OnOk result (IsReadAs name.entry.brackets name.entry.text.now
        (string (name_read name.entry.brackets name.entry.text.now))) }
    ensures field { let body = body_at source.entry.layout.now.schema owner.0 in
        IfOk result (λ field. option_map field_seen (option_copied field)
        ≡ field_named body (name_read name.entry.brackets name.entry.text.now)) }
{
    let Some(name) = reader.string(name.text)? else {
        return Err(Unread::Piece);
    };
    Ok(source.layout.schema().field_by_name(owner, name))
}

/// Puts a text at the slot of a field in use, and returns the one that no slot has then.
fn put_text<'t>(
    texts: &mut Vec<Option<JsonExcerpt<'t>>>,
    field: Option<&FieldInfo>,
    text: JsonExcerpt<'t>,
) -> Option<JsonExcerpt<'t>>
    ensures texts { texts.new.items
        ≡ texts_with texts.old.items (option_map field_seen (option_copied field.entry)) text.entry }
    ensures over { result
        ≡ text_over texts.old.items (option_map field_seen (option_copied field.entry)) text.entry }
{
    let Some(field) = field else {
        return Some(text);
    };
    let slot = field.slot as usize;
    if field.deprecated || slot >= texts.len() {
        return Some(text);
    }
    let before = texts[slot];
    texts[slot] = Some(text);
    before
}

/// Checks a text, if there is one.
pub(crate) fn pass_by_text(reader: &mut Reader, text: Option<JsonExcerpt<'_>>) -> Result<(), Unread>
    ensures { OnOk result (IfSome text.entry (λ e. IsRead e.brackets e.text.now)) }
{
    match text {
        Some(text) => reader.pass_by(text),
        None => Ok(()),
    }
}

/// Whether all names are known, after one that finds this field. With `unknown` any name is.
fn known_with(
    known: Result<(), JsonFault>,
    unknown: bool,
    field: Option<&FieldInfo>,
    owner: TypeId,
) -> Result<(), JsonFault>
    ensures { result ≡ (if unknown || is_used (option_map field_seen (option_copied field.entry)) then known
        else Err (UnknownMember (type_place owner.0))) }
{
    if unknown || field.is_some_and(|field| !field.deprecated) {
        known
    } else {
        Err(JsonFault::UnknownMember(Place { owner, slot: None }))
    }
}
