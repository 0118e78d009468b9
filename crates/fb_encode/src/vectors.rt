//! Vectors of an excerpt that is long: their elements are read run by run.
ghost use Rattle.std.specs.Prelude.{◌≡◌, ◌≤◌, ◌<◌, [], OnOk, length, true};
ghost use Rattle.serde_json.specs.Data.{Data, Items, no_items, item};
ghost use Rattle.serde_json.specs.View.{items_view};
ghost use Rattle.fb_layout.specs.Laid.{align_of, one_of, stored_kind, vector_of};
ghost use Rattle.fb_layout.specs.Widths.{greatest};
ghost use Rattle.fb_schema.specs.declared.kinds.Shape.TheVariants.{Many};
ghost use Rattle.fb_json.specs.Meant.{count, items_meant, meant};
ghost use Rattle.fb_build.specs.Fields.{IsElement, is_reference};
ghost use Rattle.fb_encode.specs.Found.{IfFound};
ghost use Rattle.fb_encode.specs.SlotTexts.{IsPieceOf};
ghost use Rattle.fb_encode.specs.TextsRead.{AreElementsAddedOr, IsNotedOr, IsReadAs, IsRunRead};
ghost use Rattle.fb_encode.specs.TreesNoted.{AddsTargets};

use crate::elements::Elements;
use crate::excerpts::{TextWalk, note_at_once, note_excerpt};
use crate::parts::note_targets;
use crate::reader::JsonExcerpt;
use crate::runs::{AfterElements, elements_of, elements_read, left_for, once_runs_read};
use crate::slot_texts::piece_of;
use crate::steps::{after_step, trace_elements};
use crate::unnoted::Unnoted;
use fb_json::{JsonContext, JsonStep};
use fb_pieces::{
    MOST_BRACKETS, Run, cut_array, cut_array_is_read, cut_array_is_utf8, elements_make_the_array,
    text_is_read_without_brackets,
};
use serde_json::Value as Json;

/// Notes a vector of texts or tables, and returns the cells that are left.
#[cycle(reads)]
pub(crate) fn note_runs(
    source: JsonContext,
    walk: &mut TextWalk<'_>,
    excerpt: JsonExcerpt<'_>,
    elements: Elements,
    left: u32,
) -> Result<u32, Unnoted>
    requires layout { walk.old.noting.tape.layout ≡ source.layout.now }
    requires whole { walk.old.noting.tape.unfinished ≡ [] }
    requires element { IsElement source.layout.now (stored_kind source.layout.now.schema elements.kind) }
    requires reference { is_reference (one_of (stored_kind source.layout.now.schema elements.kind)) ≡ true }
    requires low { align_of source.layout.now (stored_kind source.layout.now.schema elements.kind)
        ≤ greatest source.layout.now }
    requires some { 0 < excerpt.brackets }
    requires brackets { excerpt.brackets ≤ 127 }
    ensures noted { let L = source.entry.layout.now in IfFound result (λ found. (t : Data)
        × IsReadAs excerpt.entry.brackets excerpt.entry.text.now t
        × IsNotedOr L (vector_of (stored_kind L.schema elements.kind))
        (meant L source.entry.unknown t (Many elements.kind) elements.place elements.levels left)
        walk.old.noting.tape walk.new.noting.tape found) }
    ensures opened { OnOk result (walk.new.noting.opened ≡ walk.old.noting.opened) }
{
    cut_array_is_read();
    cut_array_is_utf8();
    let Some(cut) = cut_array(source.alloc, excerpt.text, excerpt.at, &walk.reader.cuts)? else {
        return note_at_once(source, walk, excerpt, elements.vector(left));
    };
    let runs = cut.as_slice();
    let count = elements_of(runs)?;
    let first = left_for(count, elements.place, left);
    let mut after = AfterElements {
        count: 0,
        left: once_runs_read(&mut walk.reader, excerpt, runs, first)?,
    };
    for (i, run) in runs.iter().enumerate() {
        let noted = note_run(source, walk, excerpt, *run, elements, after);
        after = AfterElements {
            count: after.count.saturating_add(run.count),
            left: once_runs_read(&mut walk.reader, excerpt, &runs[i + 1..], noted)?,
        };
    }
    walk.noting.tape.push_references(elements.kind, count)?;
    Ok(after.left)
}

/// Notes what a run of a vector's elements names, and returns the cells that are left.
#[cycle(reads)]
fn note_run(
    source: JsonContext,
    walk: &mut TextWalk<'_>,
    array: JsonExcerpt<'_>,
    run: Run,
    elements: Elements,
    after: AfterElements,
) -> Result<u32, Unnoted>
    requires layout { walk.old.noting.tape.layout ≡ source.layout.now }
    requires whole { walk.old.noting.tape.unfinished ≡ [] }
    requires element { IsElement source.layout.now (stored_kind source.layout.now.schema elements.kind) }
    requires reference { is_reference (one_of (stored_kind source.layout.now.schema elements.kind)) ≡ true }
    requires within { IsPieceOf array.text.now run.elements }
    requires some { 0 < array.brackets }
    requires brackets { array.brackets ≤ 127 }
    ensures noted { let L = source.entry.layout.now in let stored = stored_kind L.schema elements.kind in
        IfFound result (λ found. (ds : Items) × IsRunRead array.entry.brackets array.entry.text.now run ds
        × AreElementsAddedOr L stored (AddsTargets L stored) (items_meant L source.entry.unknown ds
        elements.kind elements.place elements.levels after.left) (count ds)
        walk.old.noting.tape walk.new.noting.tape found) }
    ensures opened { OnOk result (walk.new.noting.opened ≡ walk.old.noting.opened) }
{
    text_is_read_without_brackets();
    elements_make_the_array();
    let text = piece_of(array, run.elements);
    if run.count == 1 && walk.reader.reads_alone(text.text, elements.kind) {
        return note_element(source, walk, text, elements, after);
    }
    let brackets = MOST_BRACKETS - array.brackets;
    let read = walk.reader.read_in_brackets(text.text, brackets + 1)?;
    let trees = elements_read(&read, brackets, run)?;
    note_trees(source, walk, trees, elements, after)
}

/// Notes a long element of a vector, and returns the cells that are left.
#[cycle(reads)]
fn note_element(
    source: JsonContext,
    walk: &mut TextWalk<'_>,
    excerpt: JsonExcerpt<'_>,
    elements: Elements,
    after: AfterElements,
) -> Result<u32, Unnoted>
    requires layout { walk.old.noting.tape.layout ≡ source.layout.now }
    requires whole { walk.old.noting.tape.unfinished ≡ [] }
    requires element { IsElement source.layout.now (stored_kind source.layout.now.schema elements.kind) }
    requires reference { is_reference (one_of (stored_kind source.layout.now.schema elements.kind)) ≡ true }
    requires brackets { excerpt.brackets ≤ 127 }
    ensures noted { let L = source.entry.layout.now in let stored = stored_kind L.schema elements.kind in
        IfFound result (λ found. (t : Data) × IsReadAs excerpt.entry.brackets excerpt.entry.text.now t
        × AreElementsAddedOr L stored (AddsTargets L stored) (items_meant L source.entry.unknown (item t no_items)
        elements.kind elements.place elements.levels after.left) 1
        walk.old.noting.tape walk.new.noting.tape found) }
    ensures opened { OnOk result (walk.new.noting.opened ≡ walk.old.noting.opened) }
{
    let noted = note_excerpt(source, walk, excerpt, elements.element(after.left));
    after_step(&mut walk.trail, JsonStep::Element(after.count), noted)
}

/// Notes elements of a vector that are trees, and returns the cells that are left.
fn note_trees(
    source: JsonContext,
    walk: &mut TextWalk<'_>,
    trees: &[Json],
    elements: Elements,
    after: AfterElements,
) -> Result<u32, Unnoted>
    requires layout { walk.old.noting.tape.layout ≡ source.layout.now }
    requires whole { walk.old.noting.tape.unfinished ≡ [] }
    requires element { IsElement source.layout.now (stored_kind source.layout.now.schema elements.kind) }
    requires reference { is_reference (one_of (stored_kind source.layout.now.schema elements.kind)) ≡ true }
    ensures noted { let L = source.entry.layout.now in let stored = stored_kind L.schema elements.kind in
        IfFound result (AreElementsAddedOr L stored (AddsTargets L stored) (items_meant L source.entry.unknown
        (items_view trees.now) elements.kind elements.place elements.levels after.left) (length trees.now)
        walk.old.noting.tape walk.new.noting.tape) }
    ensures opened { OnOk result (walk.new.noting.opened ≡ walk.old.noting.opened) }
{
    let Elements {
        kind,
        place,
        levels,
    } = elements;
    let noting = &mut walk.noting;
    let noted = note_targets(source, noting, trees, kind, place, levels, after.left);
    if noted.is_err() {
        trace_elements(source, &mut walk.trail, trees, elements, after)?;
    }
    Ok(noted?)
}
