//! Excerpts of a JSON text: what each means is checked and noted, piece by piece where it is long.
ghost use Rattle.std.specs.Prelude.{◌≡◌, ◌≤◌, [], OnOk};
ghost use Rattle.serde_json.specs.Data.{Data, string};
ghost use Rattle.serde_json.specs.View.{view as tree_view};
ghost use Rattle.fb_layout.specs.Laid.{stored_shape};
ghost use Rattle.fb_json.specs.Meant.{meant};
ghost use Rattle.fb_encode.specs.Found.{IfFound};
ghost use Rattle.fb_encode.specs.TextsRead.{IsNotedOr, IsReadAs};
ghost use Rattle.fb_encode.specs.TreesNoted.{IsPart};

use crate::elements::Elements;
use crate::numbers::note_number_runs;
use crate::objects::note_members;
use crate::parts::note_part;
use crate::reader::{JsonExcerpt, Reader, Unread, innermost};
use crate::steps::trace_tree;
use crate::unnoted::Unnoted;
use crate::vectors::note_runs;
use fb_build::{Noting, is_reference};
use fb_json::{JsonContext, JsonStep, JsonTrail, Place};
use fb_pieces::{MOST_BRACKETS, text_is_read_without_brackets};
use fb_schema::{Kind, Shape};
use fb_tape::Tape;
use serde_json::Value as Json;

/// A walk over a JSON text that is read piece by piece: what it has noted, what reads the pieces, and the steps to what
/// was refused.
#[derive(Drop)]
pub(crate) struct TextWalk<'l> {
    pub(crate) noting: Noting<'l>,
    pub(crate) reader: Reader,
    pub(crate) trail: JsonTrail,
}

/// What is wanted of an excerpt: a value of a shape, for a declared place; and how many levels of tables and how many
/// cells are left for it.
#[derive(Clone, Copy)]
pub(crate) struct Wanted {
    pub(crate) shape: Shape,
    pub(crate) place: Place,
    pub(crate) levels: u8,
    pub(crate) left: u32,
}

impl<'l> TextWalk<'l> {
    /// The steps from the root to what was refused, if they were kept.
    pub(crate) fn into_steps(self) -> Option<Vec<JsonStep>> {
        self.trail.into_steps()
    }

    /// What it has noted.
    pub(crate) fn into_tape(self) -> Tape<'l>
        ensures { result ≡ self.entry.noting.tape }
    {
        let TextWalk { noting, .. } = self;
        let Noting { tape, .. } = noting;
        tape
    }
}

/// Notes what a reference of this shape names, and returns the cells that are left.
#[cycle(reads)]
pub(crate) fn note_excerpt(
    source: JsonContext,
    walk: &mut TextWalk<'_>,
    excerpt: JsonExcerpt<'_>,
    wanted: Wanted,
) -> Result<u32, Unnoted>
    requires layout { walk.old.noting.tape.layout ≡ source.layout.now }
    requires whole { walk.old.noting.tape.unfinished ≡ [] }
    requires part { IsPart source.layout.now (stored_shape source.layout.now.schema wanted.shape) }
    requires brackets { excerpt.brackets ≤ 127 }
    ensures noted { let L = source.entry.layout.now in IfFound result (λ found. (t : Data)
        × IsReadAs excerpt.entry.brackets excerpt.entry.text.now t
        × IsNotedOr L (stored_shape L.schema wanted.shape)
        (meant L source.entry.unknown t wanted.shape wanted.place wanted.levels wanted.left)
        walk.old.noting.tape walk.new.noting.tape found) }
    ensures opened { OnOk result (walk.new.noting.opened ≡ walk.old.noting.opened) }
{
    if !walk.reader.is_long(excerpt) {
        return note_at_once(source, walk, excerpt, wanted);
    }
    match wanted.shape {
        Shape::Many(kind) => {
            let elements = Elements {
                kind,
                place: wanted.place,
                levels: wanted.levels,
            };
            if is_reference(Shape::One(kind)) {
                note_runs(source, walk, excerpt, elements, wanted.left)
            } else {
                note_number_runs(source, walk, excerpt, elements, wanted.left)
            }
        }
        Shape::One(Kind::Table(owner)) => note_members(source, walk, excerpt, owner, wanted),
        _ => note_at_once(source, walk, excerpt, wanted),
    }
}

/// The same where the excerpt is read at once.
pub(crate) fn note_at_once(
    source: JsonContext,
    walk: &mut TextWalk<'_>,
    excerpt: JsonExcerpt<'_>,
    wanted: Wanted,
) -> Result<u32, Unnoted>
    requires layout { walk.old.noting.tape.layout ≡ source.layout.now }
    requires whole { walk.old.noting.tape.unfinished ≡ [] }
    requires part { IsPart source.layout.now (stored_shape source.layout.now.schema wanted.shape) }
    requires brackets { excerpt.brackets ≤ 127 }
    ensures noted { let L = source.entry.layout.now in IfFound result (λ found. (t : Data)
        × IsReadAs excerpt.entry.brackets excerpt.entry.text.now t
        × IsNotedOr L (stored_shape L.schema wanted.shape)
        (meant L source.entry.unknown t wanted.shape wanted.place wanted.levels wanted.left)
        walk.old.noting.tape walk.new.noting.tape found) }
    ensures opened { OnOk result (walk.new.noting.opened ≡ walk.old.noting.opened) }
{
    if let Shape::One(Kind::Text) = wanted.shape {
        return match walk.reader.string(excerpt.text)? {
            Some(text) => note_string(source, &mut walk.noting, text, wanted),
            None => note_in_brackets(source, walk, excerpt, wanted),
        };
    }
    note_in_brackets(source, walk, excerpt, wanted)
}

/// The same where it is read in brackets.
fn note_in_brackets(
    source: JsonContext,
    walk: &mut TextWalk<'_>,
    excerpt: JsonExcerpt<'_>,
    wanted: Wanted,
) -> Result<u32, Unnoted>
    requires layout { walk.old.noting.tape.layout ≡ source.layout.now }
    requires whole { walk.old.noting.tape.unfinished ≡ [] }
    requires part { IsPart source.layout.now (stored_shape source.layout.now.schema wanted.shape) }
    requires brackets { excerpt.brackets ≤ 127 }
    ensures noted { let L = source.entry.layout.now in IfFound result (λ found. (t : Data)
        × IsReadAs excerpt.entry.brackets excerpt.entry.text.now t
        × IsNotedOr L (stored_shape L.schema wanted.shape)
        (meant L source.entry.unknown t wanted.shape wanted.place wanted.levels wanted.left)
        walk.old.noting.tape walk.new.noting.tape found) }
    ensures opened { OnOk result (walk.new.noting.opened ≡ walk.old.noting.opened) }
{
    if let Some(outline) = walk.reader.outline(excerpt, wanted.shape)? {
        return note_wanted(source, walk, &outline, wanted);
    }
    text_is_read_without_brackets();
    let read = walk.reader.read(excerpt)?;
    let Some(tree) = innermost(&read, MOST_BRACKETS - excerpt.brackets) else {
        return Err(Unnoted::Unread(Unread::Piece));
    };
    note_wanted(source, walk, tree, wanted)
}

/// Notes what a tree gives for a reference, and returns the cells that are left.
fn note_wanted(
    source: JsonContext,
    walk: &mut TextWalk<'_>,
    tree: &Json,
    wanted: Wanted,
) -> Result<u32, Unnoted>
    requires layout { walk.old.noting.tape.layout ≡ source.layout.now }
    requires whole { walk.old.noting.tape.unfinished ≡ [] }
    requires part { IsPart source.layout.now (stored_shape source.layout.now.schema wanted.shape) }
    ensures noted { let L = source.entry.layout.now in IfFound result (IsNotedOr L (stored_shape L.schema wanted.shape)
        (meant L source.entry.unknown (tree_view tree.now) wanted.shape wanted.place wanted.levels wanted.left)
        walk.old.noting.tape walk.new.noting.tape) }
    ensures opened { OnOk result (walk.new.noting.opened ≡ walk.old.noting.opened) }
{
    let Wanted {
        shape,
        place,
        levels,
        left,
    } = wanted;
    let noted = note_part(source, &mut walk.noting, tree, shape, place, levels, left);
    if noted.is_err() {
        trace_tree(source, &mut walk.trail, tree, wanted)?;
    }
    Ok(noted?)
}

/// Notes what a string gives for a reference of this shape, and returns the cells that are left.
fn note_string(
    source: JsonContext,
    noting: &mut Noting<'_>,
    text: &str,
    wanted: Wanted,
) -> Result<u32, Unnoted>
    requires layout { noting.old.tape.layout ≡ source.layout.now }
    requires whole { noting.old.tape.unfinished ≡ [] }
    requires part { IsPart source.layout.now (stored_shape source.layout.now.schema wanted.shape) }
    ensures noted { let L = source.entry.layout.now in IfFound result (IsNotedOr L (stored_shape L.schema wanted.shape)
        (meant L source.entry.unknown (string text.now) wanted.shape wanted.place wanted.levels wanted.left)
        noting.old.tape noting.new.tape) }
    ensures opened { OnOk result (noting.new.opened ≡ noting.old.opened) }
{
    let tree = Json::String(String::from_str(source.alloc, text)?);
    let Wanted {
        shape,
        place,
        levels,
        left,
    } = wanted;
    Ok(note_part(source, noting, &tree, shape, place, levels, left)?)
}
