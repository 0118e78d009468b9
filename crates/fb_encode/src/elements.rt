//! Vectors of numbers and structs.
ghost use Rattle.std.specs.Prelude.{◌≡◌, ◌≤◌, [], IfErr, IfOk, false, length};
ghost use Rattle.serde_json.specs.View.{items_view, view as tree_view};
ghost use Rattle.fb_schema.specs.declared.kinds.Shape.TheVariants.{Many, One};
ghost use Rattle.fb_layout.specs.Laid.{align_of, one_of, stored_kind, vector_of};
ghost use Rattle.fb_layout.specs.Widths.{greatest};
ghost use Rattle.fb_json.specs.Meant.{items_meant, meant};
ghost use Rattle.fb_json.specs.Outcome.{Fails};
ghost use Rattle.fb_build.specs.Fields.{IsElement, is_reference};
ghost use Rattle.fb_encode.specs.TreesNoted.{AddsInline, AreElementsAdded, IsElementAdded, IsNoted, vector_given};

use crate::excerpts::Wanted;
use fb_json::{JsonContext, JsonFault, Place, Room, number_of, struct_parts};
use fb_schema::{Kind, Shape};
use fb_tape::Tape;
use fb_value::Value;
use serde_json::Value as Json;

/// What the elements of a vector are, where their faults are, and how many levels of tables may follow.
#[derive(Clone, Copy)]
pub(crate) struct Elements {
    pub(crate) kind: Kind,
    pub(crate) place: Place,
    pub(crate) levels: u8,
}

impl Elements {
    /// What is wanted of a value of this shape at the vector's place.
    fn wanted_as(self, shape: Shape, left: u32) -> Wanted
        ensures { result ≡ record { shape = shape; place = self.place; levels = self.levels; left = left } }
    {
        let Elements { place, levels, .. } = self;
        Wanted {
            shape,
            place,
            levels,
            left,
        }
    }

    /// What is wanted of the vector, for which so many cells are left.
    pub(crate) fn vector(self, left: u32) -> Wanted
        ensures shape { result.shape ≡ Many self.kind }
        ensures place { result.place ≡ self.place }
        ensures levels { result.levels ≡ self.levels }
        ensures left { result.left ≡ left }
    {
        self.wanted_as(Shape::Many(self.kind), left)
    }

    /// What is wanted of an element, for which so many cells are left.
    pub(crate) fn element(self, left: u32) -> Wanted
        ensures shape { result.shape ≡ One self.kind }
        ensures place { result.place ≡ self.place }
        ensures levels { result.levels ≡ self.levels }
        ensures left { result.left ≡ left }
    {
        self.wanted_as(Shape::One(self.kind), left)
    }
}

/// Notes a vector of numbers or structs, and returns the cells that are left.
pub(crate) fn note_elements(
    source: JsonContext,
    tape: &mut Tape<'_>,
    elements: &[Json],
    kind: Kind,
    place: Place,
    levels: u8,
    left: u32,
) -> Result<u32, JsonFault>
    requires layout { tape.old.layout ≡ source.layout.now }
    requires whole { tape.old.unfinished ≡ [] }
    requires inline { is_reference (one_of (stored_kind source.layout.now.schema kind)) ≡ false }
    requires element { IsElement source.layout.now (stored_kind source.layout.now.schema kind) }
    requires low { align_of source.layout.now (stored_kind source.layout.now.schema kind)
        ≤ greatest source.layout.now }
    ensures noted { let L = source.entry.layout.now in IfOk result (IsNoted L (vector_of (stored_kind L.schema kind))
        (vector_given (items_meant L source.entry.unknown (items_view elements.now) kind place levels left))
        tape.old tape.new) }
    ensures refused { IfErr result (λ f. Fails f (items_meant source.entry.layout.now source.entry.unknown
        (items_view elements.now) kind place levels left)) }
{
    tape.open_vector(kind, elements.len())?;
    let left = push_elements(source, tape, elements, kind, place, levels, left)?;
    tape.close_vector(kind, elements.len())?;
    Ok(left)
}

/// Adds numbers or structs to the vector that was begun, and returns the cells that are left.
pub(crate) fn push_elements(
    source: JsonContext,
    tape: &mut Tape<'_>,
    elements: &[Json],
    kind: Kind,
    place: Place,
    levels: u8,
    left: u32,
) -> Result<u32, JsonFault>
    requires layout { tape.old.layout ≡ source.layout.now }
    requires inline { is_reference (one_of (stored_kind source.layout.now.schema kind)) ≡ false }
    requires element { IsElement source.layout.now (stored_kind source.layout.now.schema kind) }
    ensures added { let L = source.entry.layout.now in let stored = stored_kind L.schema kind in
        IfOk result (AreElementsAdded L stored (AddsInline L stored)
        (items_meant L source.entry.unknown (items_view elements.now) kind place levels left) (length elements.now)
        tape.old tape.new) }
    ensures refused { IfErr result (λ f. Fails f (items_meant source.entry.layout.now source.entry.unknown
        (items_view elements.now) kind place levels left)) }
{
    let mut parts = Vec::new(source.alloc);
    let mut left = left;
    for element in elements {
        let vector = Elements {
            kind,
            place,
            levels,
        };
        left = push_next(source, tape, element, vector, left, &mut parts)?;
    }
    Ok(left)
}

/// Drops a value that is a number. It is inlined, so that nothing is done where the value is known to be one.
#[inline(always)]
pub(crate) fn drop_number(_value: Value) {}

/// Adds a number or a struct to the vector that was begun, and returns the cells that are left. `parts` is where those
/// of a struct are kept meanwhile.
#[inline(always)]
fn push_next(
    source: JsonContext,
    tape: &mut Tape<'_>,
    element: &Json,
    vector: Elements,
    left: u32,
    parts: &mut Vec<Value>,
) -> Result<u32, JsonFault>
    requires layout { tape.old.layout ≡ source.layout.now }
    requires inline { is_reference (one_of (stored_kind source.layout.now.schema vector.kind)) ≡ false }
    requires element { IsElement source.layout.now (stored_kind source.layout.now.schema vector.kind) }
    ensures added { let L = source.entry.layout.now in
        IfOk result (IsElementAdded L (stored_kind L.schema vector.kind)
        (meant L source.entry.unknown (tree_view element.now) (One vector.kind) vector.place vector.levels left)
        tape.old tape.new) }
    ensures refused { IfErr result (λ f. Fails f (meant source.entry.layout.now source.entry.unknown
        (tree_view element.now) (One vector.kind) vector.place vector.levels left)) }
{
    let Elements {
        kind,
        place,
        levels,
    } = vector;
    if let Some(number) = number_of(source, element, kind, place) {
        let value = Value::Number(number?);
        let pushed = tape.push_element(kind, &value);
        drop_number(value);
        pushed?;
        return Ok(left);
    }
    let Kind::Struct(structure) = kind else {
        unreachable!();
    };
    let room = Room { levels, left };
    let left = struct_parts(source, element, structure, place, room, parts)?;
    tape.push_struct(structure, parts.as_slice())?;
    Ok(left)
}
