//! Trees in the place of long texts of which not all has a meaning under the schema. An object for a struct has only
//! the struct's fields.
ghost use Rattle.std.specs.Prelude.{◌≡◌, ◌≤◌, ◌<◌, IfOk, IfSome, OnOk, false, string_bytes};
ghost use Rattle.serde_json.specs.Data.{Members, object, put};
ghost use Rattle.serde_json.specs.View.{members_view, view as tree_view};
ghost use Rattle.fb_schema.specs.Schema.{body_at};
ghost use Rattle.fb_schema.specs.Seen.{field_seen};
ghost use Rattle.fb_schema.specs.declared.kinds.Kind.TheVariants.{Struct};
ghost use Rattle.fb_schema.specs.declared.kinds.Shape.TheVariants.{One};
ghost use Rattle.fb_json.specs.Meant.{names_known};
ghost use Rattle.fb_encode.specs.StandIns.{IsFieldPut, IsStandIn};

use crate::reader::{JsonExcerpt, Reader, Unread, innermost};
use crate::slot_texts::{SlotTexts, members_of, texts_by_slot};
use fb_json::JsonContext;
use fb_layout::layout_is_well_made;
use fb_pieces::{
    MOST_BRACKETS, cut_object_is_read, cut_object_is_utf8, text_is_read_without_brackets,
};
use fb_schema::{FieldInfo, Kind, Shape, TypeId};
use serde_json::{Map, Value as Json};
use std::alloc::AllocError;

/// A tree in the place of a text, if the text is a long object for a struct, or if its content has no meaning where a
/// value of this shape is wanted; or the tree of a string. None for another text, and for an object that can't be cut.
#[cycle(stand_ins)]
pub(crate) fn stand_in(
    source: JsonContext,
    reader: &mut Reader,
    excerpt: JsonExcerpt<'_>,
    shape: Shape,
) -> Result<Option<Json>, Unread>
    requires brackets { excerpt.brackets ≤ 127 }
    ensures { let L = source.entry.layout.now in IfOk result (λ found. IfSome found (λ tree.
        IsStandIn L source.entry.unknown excerpt.entry.brackets excerpt.entry.text.now shape (tree_view tree))) }
{
    if let Shape::One(Kind::Struct(structure)) = shape {
        if reader.is_long(excerpt) {
            if let Some(tree) = own_fields(source, reader, excerpt, structure)? {
                return Ok(Some(tree));
            }
        }
    }
    if let Some(tree) = reader.outline(excerpt, shape)? {
        return Ok(Some(tree));
    }
    Ok(reader.string_tree(excerpt.text)?)
}

/// An object with the fields of a struct alone, in the place of an object's text; or with an unknown member alone, if
/// the text has one where that is a fault.
#[cycle(stand_ins)]
fn own_fields(
    source: JsonContext,
    reader: &mut Reader,
    excerpt: JsonExcerpt<'_>,
    structure: TypeId,
) -> Result<Option<Json>, Unread>
    requires some { 0 < excerpt.brackets }
    requires brackets { excerpt.brackets ≤ 127 }
    ensures { let L = source.entry.layout.now in IfOk result (λ found. IfSome found (λ tree. IsStandIn L
        source.entry.unknown excerpt.entry.brackets excerpt.entry.text.now (One (Struct structure)) (tree_view tree))) }
{
    let Some(members) = members_of(source.alloc, excerpt, &reader.cuts)? else {
        // No tree is begun of a text that isn't JSON.
        reader.pass_by(excerpt)?;
        return Ok(None);
    };
    layout_is_well_made(source.layout);
    let fields = source.layout.parts_of(structure);
    let SlotTexts { texts, known } = texts_by_slot(
        source,
        reader,
        excerpt,
        structure,
        fields,
        members.as_slice(),
    )?;
    cut_object_is_read();
    cut_object_is_utf8();
    let mut object = Map::new(source.alloc);
    for (k, field) in fields.iter().enumerate() {
        put_field(source, reader, field, texts[k], &mut object)?;
    }
    if known.is_err() {
        return Ok(unknown_member(source, structure)?);
    }
    Ok(Some(Json::Object(object)))
}

/// Puts a tree for the text of a field's member, if there is one, under the field's name.
#[cycle(stand_ins)]
fn put_field(
    source: JsonContext,
    reader: &mut Reader,
    field: &FieldInfo,
    text: Option<JsonExcerpt<'_>>,
    object: &mut Map<String, Json>,
) -> Result<(), Unread>
    requires brackets { IfSome text (λ e. e.brackets ≤ 127) }
    ensures { OnOk result (IsFieldPut source.entry.layout.now source.entry.unknown (field_seen field.now) text.entry
        (members_view object.old.entries) (members_view object.new.entries)) }
{
    let Some(text) = text else {
        return Ok(());
    };
    let name = field.name.clone()?;
    let tree = field_tree(source, reader, text, field.shape)?;
    put_member(object, name, tree)?;
    Ok(())
}

/// Puts a member into an object.
fn put_member(object: &mut Map<String, Json>, name: String, tree: Json) -> Result<(), AllocError>
    ensures { OnOk result (members_view object.new.entries
        ≡ put (string_bytes name) (tree_view tree) (members_view object.old.entries)) }
{
    drop(object.insert(name, tree)?);
    Ok(())
}

/// A tree for the text of a field's member: its own, or one in its place.
#[cycle(stand_ins)]
fn field_tree(
    source: JsonContext,
    reader: &mut Reader,
    text: JsonExcerpt<'_>,
    shape: Shape,
) -> Result<Json, Unread>
    requires brackets { text.brackets ≤ 127 }
    ensures { IfOk result (λ tree. IsStandIn source.entry.layout.now source.entry.unknown
        text.entry.brackets text.entry.text.now shape (tree_view tree)) }
{
    if let Some(tree) = stand_in(source, reader, text, shape)? {
        return Ok(tree);
    }
    text_is_read_without_brackets();
    let read = reader.read(text)?;
    let Some(tree) = innermost(&read, MOST_BRACKETS - text.brackets) else {
        return Err(Unread::Piece);
    };
    Ok(tree.clone()?)
}

/// An object with a member that no field of the type is named like: it has no name. None if a field has none either.
fn unknown_member(source: JsonContext, owner: TypeId) -> Result<Option<Json>, AllocError>
    ensures { IfOk result (λ found. IfSome found (λ tree. (ms : Members) × (tree_view tree ≡ object ms)
        × (names_known (body_at source.entry.layout.now.schema owner.0) ms ≡ false))) }
{
    let name = String::new(source.alloc);
    if source
        .layout
        .schema()
        .field_by_name(owner, name.as_str())
        .is_some()
    {
        return Ok(None);
    }
    let mut members = Map::new(source.alloc);
    put_member(&mut members, name, Json::Null)?;
    Ok(Some(Json::Object(members)))
}
