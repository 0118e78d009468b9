//! Vectors of numbers and structs of an excerpt that is long: their elements are read run by run.
ghost use Rattle.std.specs.Prelude.{◌≡◌, ◌≤◌, ◌<◌, [], OnOk, length, false};
ghost use Rattle.serde_json.specs.Data.{Data, Items};
ghost use Rattle.serde_json.specs.View.{items_view};
ghost use Rattle.fb_layout.specs.Laid.{align_of, one_of, stored_kind, vector_of};
ghost use Rattle.fb_layout.specs.Widths.{greatest};
ghost use Rattle.fb_schema.specs.declared.kinds.Shape.TheVariants.{Many};
ghost use Rattle.fb_json.specs.Meant.{count, items_meant, meant};
ghost use Rattle.fb_build.specs.Fields.{IsElement, is_reference};
ghost use Rattle.fb_encode.specs.Found.{IfFound};
ghost use Rattle.fb_encode.specs.SlotTexts.{IsPieceOf};
ghost use Rattle.fb_encode.specs.TextsRead.{AreElementsAddedOr, IsNotedOr, IsReadAs, IsRunRead};
ghost use Rattle.fb_encode.specs.TreesNoted.{AddsInline};

use crate::elements::{Elements, push_elements};
use crate::excerpts::{TextWalk, note_at_once};
use crate::reader::JsonExcerpt;
use crate::runs::{AfterElements, elements_of, elements_read, left_for, once_runs_read};
use crate::slot_texts::piece_of;
use crate::stand_ins::stand_in;
use crate::steps::trace_elements;
use crate::unnoted::Unnoted;
use fb_json::JsonContext;
use fb_pieces::{
    MOST_BRACKETS, Run, cut_array, cut_array_is_read, cut_array_is_utf8, elements_make_the_array,
    text_is_read_without_brackets,
};
use fb_schema::Shape;
use serde_json::Value as Json;

/// Notes a vector of numbers or structs, and returns the cells that are left.
pub(crate) fn note_number_runs(
    source: JsonContext,
    walk: &mut TextWalk<'_>,
    excerpt: JsonExcerpt<'_>,
    elements: Elements,
    left: u32,
) -> Result<u32, Unnoted>
    requires layout { walk.old.noting.tape.layout ≡ source.layout.now }
    requires whole { walk.old.noting.tape.unfinished ≡ [] }
    requires inline { is_reference (one_of (stored_kind source.layout.now.schema elements.kind)) ≡ false }
    requires element { IsElement source.layout.now (stored_kind source.layout.now.schema elements.kind) }
    requires low { align_of source.layout.now (stored_kind source.layout.now.schema elements.kind)
        ≤ greatest source.layout.now }
    requires some { 0 < excerpt.brackets }
    requires brackets { excerpt.brackets ≤ 127 }
    ensures noted { let L = source.entry.layout.now in IfFound result (λ found. (t : Data)
        × IsReadAs excerpt.entry.brackets excerpt.entry.text.now t
        × IsNotedOr L (vector_of (stored_kind L.schema elements.kind))
        (meant L source.entry.unknown t (Many elements.kind) elements.place elements.levels left)
        walk.old.noting.tape walk.new.noting.tape found) }
    ensures opened { OnOk result (walk.new.noting.opened ≡ walk.old.noting.opened) }
{
    cut_array_is_read();
    cut_array_is_utf8();
    let Some(cut) = cut_array(source.alloc, excerpt.text, excerpt.at, &walk.reader.cuts)? else {
        return note_at_once(source, walk, excerpt, elements.vector(left));
    };
    let kind = elements.kind;
    let runs = cut.as_slice();
    let count = elements_of(runs)?;
    let first = left_for(count, elements.place, left);
    let mut after = AfterElements {
        count: 0,
        left: once_runs_read(&mut walk.reader, excerpt, runs, first)?,
    };
    walk.noting.tape.open_vector(kind, count)?;
    for (i, run) in runs.iter().enumerate() {
        let added = push_run(source, walk, excerpt, *run, elements, after);
        after = AfterElements {
            count: after.count.saturating_add(run.count),
            left: once_runs_read(&mut walk.reader, excerpt, &runs[i + 1..], added)?,
        };
    }
    walk.noting.tape.close_vector(kind, count)?;
    Ok(after.left)
}

/// Adds the elements of a run to the vector that was begun, and returns the cells that are left.
fn push_run(
    source: JsonContext,
    walk: &mut TextWalk<'_>,
    array: JsonExcerpt<'_>,
    run: Run,
    elements: Elements,
    after: AfterElements,
) -> Result<u32, Unnoted>
    requires layout { walk.old.noting.tape.layout ≡ source.layout.now }
    requires inline { is_reference (one_of (stored_kind source.layout.now.schema elements.kind)) ≡ false }
    requires element { IsElement source.layout.now (stored_kind source.layout.now.schema elements.kind) }
    requires within { IsPieceOf array.text.now run.elements }
    requires some { 0 < array.brackets }
    requires brackets { array.brackets ≤ 127 }
    ensures added { let L = source.entry.layout.now in let stored = stored_kind L.schema elements.kind in
        IfFound result (λ found. (ds : Items) × IsRunRead array.entry.brackets array.entry.text.now run ds
        × AreElementsAddedOr L stored (AddsInline L stored) (items_meant L source.entry.unknown ds
        elements.kind elements.place elements.levels after.left) (count ds)
        walk.old.noting.tape walk.new.noting.tape found) }
    ensures opened { OnOk result (walk.new.noting.opened ≡ walk.old.noting.opened) }
{
    text_is_read_without_brackets();
    elements_make_the_array();
    let text = piece_of(array, run.elements);
    if run.count == 1 {
        if let Some(tree) = stand_in(source, &mut walk.reader, text, Shape::One(elements.kind))? {
            return push_trees(source, walk, &[tree], elements, after);
        }
    }
    let brackets = MOST_BRACKETS - array.brackets;
    let read = walk.reader.read_in_brackets(text.text, brackets + 1)?;
    let trees = elements_read(&read, brackets, run)?;
    push_trees(source, walk, trees, elements, after)
}

/// Adds elements that are trees to the vector that was begun, and returns the cells that are left.
fn push_trees(
    source: JsonContext,
    walk: &mut TextWalk<'_>,
    trees: &[Json],
    elements: Elements,
    after: AfterElements,
) -> Result<u32, Unnoted>
    requires layout { walk.old.noting.tape.layout ≡ source.layout.now }
    requires inline { is_reference (one_of (stored_kind source.layout.now.schema elements.kind)) ≡ false }
    requires element { IsElement source.layout.now (stored_kind source.layout.now.schema elements.kind) }
    ensures added { let L = source.entry.layout.now in let stored = stored_kind L.schema elements.kind in
        IfFound result (AreElementsAddedOr L stored (AddsInline L stored) (items_meant L source.entry.unknown
        (items_view trees.now) elements.kind elements.place elements.levels after.left) (length trees.now)
        walk.old.noting.tape walk.new.noting.tape) }
    ensures opened { OnOk result (walk.new.noting.opened ≡ walk.old.noting.opened) }
{
    let Elements {
        kind,
        place,
        levels,
    } = elements;
    let tape = &mut walk.noting.tape;
    let added = push_elements(source, tape, trees, kind, place, levels, after.left);
    if added.is_err() {
        trace_elements(source, &mut walk.trail, trees, elements, after)?;
    }
    Ok(added?)
}
