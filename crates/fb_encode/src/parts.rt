//! What references name: texts, tables and vectors are noted as their trees are read.
ghost use Rattle.std.specs.Prelude.{◌≡◌, ◌≤◌, [], IfErr, IfOk, true, length};
ghost use Rattle.serde_json.specs.View.{view as tree_view, items_view};
ghost use Rattle.fb_schema.specs.declared.kinds.Kind.TheVariants.{Table, Text};
ghost use Rattle.fb_schema.specs.declared.kinds.Shape.TheVariants.{One, Many};
ghost use Rattle.fb_layout.specs.Laid.{align_of, one_of, stored_kind, stored_shape, text_kind, vector_of};
ghost use Rattle.fb_layout.specs.Widths.{greatest};
ghost use Rattle.fb_json.specs.Leaves.{text_meant};
ghost use Rattle.fb_json.specs.Meant.{items_meant, meant};
ghost use Rattle.fb_json.specs.Outcome.{Fails};
ghost use Rattle.fb_json.specs.Refuses.{MayLackMemory};
ghost use Rattle.fb_build.specs.Fields.{IsElement, is_reference};
ghost use Rattle.fb_encode.specs.TreesNoted.{AreElementsNoted, IsNoted, IsPart};

use crate::elements::note_elements;
use crate::tables::note_table;
use fb_build::{Noting, is_reference};
use fb_json::{JsonContext, JsonFault, Place, text_of};
use fb_schema::{Kind, Shape, TypeId};
use serde_json::Value as Json;

/// Notes a text, and returns the cells that are left.
#[inline(always)]
fn note_text(
    noting: &mut Noting<'_>,
    tree: &Json,
    place: Place,
    left: u32,
) -> Result<u32, JsonFault>
    requires whole { noting.old.tape.unfinished ≡ [] }
    ensures noted { IfOk result (IsNoted noting.old.tape.layout (one_of text_kind)
        (text_meant (tree_view tree.now) place left) noting.old.tape noting.new.tape) }
    ensures opened { IfOk result (λ rest. noting.new.opened ≡ noting.old.opened) }
    ensures refused { IfErr result (λ f. Fails f (text_meant (tree_view tree.now) place left)) }
{
    let (text, left) = text_of(tree, place, left)?;
    noting.tape.push_text(text)?;
    Ok(left)
}

/// Notes the table of an object, and returns the cells that are left.
#[cycle(notes)]
pub(crate) fn note_object(
    source: JsonContext,
    noting: &mut Noting<'_>,
    tree: &Json,
    owner: TypeId,
    place: Place,
    levels: u8,
    left: u32,
) -> Result<u32, JsonFault>
    requires layout { noting.old.tape.layout ≡ source.layout.now }
    requires whole { noting.old.tape.unfinished ≡ [] }
    ensures noted { let L = source.entry.layout.now in
        IfOk result (IsNoted L (one_of (stored_kind L.schema (Table owner)))
        (meant L source.entry.unknown (tree_view tree.now) (One (Table owner)) place levels left)
        noting.old.tape noting.new.tape) }
    ensures opened { IfOk result (λ rest. noting.new.opened ≡ noting.old.opened) }
    ensures refused { IfErr result (λ f. Fails f (meant source.entry.layout.now source.entry.unknown
        (tree_view tree.now) (One (Table owner)) place levels left)) }
    ensures memory { IfErr result (MayLackMemory (record { depth = levels; cells = left }) (tree_view tree.now)) }
{
    let Some(members) = tree.as_object() else {
        return Err(JsonFault::WrongShape(place));
    };
    note_table(source, noting, members, owner, place, levels, left)
}

/// Notes the text or table that a tree gives, and returns the cells that are left.
#[inline(always)]
#[cycle(notes)]
fn note_target(
    source: JsonContext,
    noting: &mut Noting<'_>,
    tree: &Json,
    kind: Kind,
    place: Place,
    levels: u8,
    left: u32,
) -> Result<u32, JsonFault>
    requires layout { noting.old.tape.layout ≡ source.layout.now }
    requires whole { noting.old.tape.unfinished ≡ [] }
    requires element { IsElement source.layout.now (stored_kind source.layout.now.schema kind) }
    requires reference { is_reference (one_of (stored_kind source.layout.now.schema kind)) ≡ true }
    ensures noted { let L = source.entry.layout.now in IfOk result (IsNoted L (one_of (stored_kind L.schema kind))
        (meant L source.entry.unknown (tree_view tree.now) (One kind) place levels left)
        noting.old.tape noting.new.tape) }
    ensures opened { IfOk result (λ rest. noting.new.opened ≡ noting.old.opened) }
    ensures refused { IfErr result (λ f. Fails f (meant source.entry.layout.now source.entry.unknown
        (tree_view tree.now) (One kind) place levels left)) }
{
    match kind {
        Kind::Text => note_text(noting, tree, place, left),
        Kind::Table(owner) => note_object(source, noting, tree, owner, place, levels, left),
        _ => unreachable!(),
    }
}

/// Notes what the elements of a vector name, and returns the cells that are left.
#[cycle(notes)]
pub(crate) fn note_targets(
    source: JsonContext,
    noting: &mut Noting<'_>,
    elements: &[Json],
    kind: Kind,
    place: Place,
    levels: u8,
    left: u32,
) -> Result<u32, JsonFault>
    requires layout { noting.old.tape.layout ≡ source.layout.now }
    requires whole { noting.old.tape.unfinished ≡ [] }
    requires element { IsElement source.layout.now (stored_kind source.layout.now.schema kind) }
    requires reference { is_reference (one_of (stored_kind source.layout.now.schema kind)) ≡ true }
    ensures noted { let L = source.entry.layout.now in IfOk result (AreElementsNoted L (stored_kind L.schema kind)
        (items_meant L source.entry.unknown (items_view elements.now) kind place levels left) (length elements.now)
        noting.old.tape noting.new.tape) }
    ensures opened { IfOk result (λ rest. noting.new.opened ≡ noting.old.opened) }
    ensures refused { IfErr result (λ f. Fails f (items_meant source.entry.layout.now source.entry.unknown
        (items_view elements.now) kind place levels left)) }
{
    let mut left = left;
    for element in elements {
        left = note_target(source, noting, element, kind, place, levels, left)?;
    }
    Ok(left)
}

/// Notes a vector, and returns the cells that are left.
#[cycle(notes)]
fn note_array(
    source: JsonContext,
    noting: &mut Noting<'_>,
    tree: &Json,
    kind: Kind,
    place: Place,
    levels: u8,
    left: u32,
) -> Result<u32, JsonFault>
    requires layout { noting.old.tape.layout ≡ source.layout.now }
    requires whole { noting.old.tape.unfinished ≡ [] }
    requires element { IsElement source.layout.now (stored_kind source.layout.now.schema kind) }
    requires low { align_of source.layout.now (stored_kind source.layout.now.schema kind)
        ≤ greatest source.layout.now }
    ensures noted { let L = source.entry.layout.now in IfOk result (IsNoted L (vector_of (stored_kind L.schema kind))
        (meant L source.entry.unknown (tree_view tree.now) (Many kind) place levels left)
        noting.old.tape noting.new.tape) }
    ensures opened { IfOk result (λ rest. noting.new.opened ≡ noting.old.opened) }
    ensures refused { IfErr result (λ f. Fails f (meant source.entry.layout.now source.entry.unknown
        (tree_view tree.now) (Many kind) place levels left)) }
{
    let Some(elements) = tree.as_array() else {
        return Err(JsonFault::WrongShape(place));
    };
    if elements.len() >= left as usize {
        return Err(JsonFault::TooManyCells(place));
    }
    let rest = left - 1 - elements.len() as u32;
    if !is_reference(Shape::One(kind)) {
        return note_elements(
            source,
            &mut noting.tape,
            elements,
            kind,
            place,
            levels,
            rest,
        );
    }
    let rest = note_targets(source, noting, elements, kind, place, levels, rest)?;
    noting.tape.push_references(kind, elements.len())?;
    Ok(rest)
}

/// Notes what a reference of this shape names, and returns the cells that are left.
#[cycle(notes)]
pub(crate) fn note_part(
    source: JsonContext,
    noting: &mut Noting<'_>,
    tree: &Json,
    shape: Shape,
    place: Place,
    levels: u8,
    left: u32,
) -> Result<u32, JsonFault>
    requires layout { noting.old.tape.layout ≡ source.layout.now }
    requires whole { noting.old.tape.unfinished ≡ [] }
    requires part { IsPart source.layout.now (stored_shape source.layout.now.schema shape) }
    ensures noted { let L = source.entry.layout.now in IfOk result (IsNoted L (stored_shape L.schema shape)
        (meant L source.entry.unknown (tree_view tree.now) shape place levels left)
        noting.old.tape noting.new.tape) }
    ensures opened { IfOk result (λ rest. noting.new.opened ≡ noting.old.opened) }
    ensures refused { IfErr result (λ f. Fails f (meant source.entry.layout.now source.entry.unknown
        (tree_view tree.now) shape place levels left)) }
{
    match shape {
        Shape::One(kind) => note_target(source, noting, tree, kind, place, levels, left),
        Shape::Many(kind) => note_array(source, noting, tree, kind, place, levels, left),
    }
}
