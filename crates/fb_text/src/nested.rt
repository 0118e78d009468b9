//! Structs in structs, and the way from one back to the struct around it.
ghost use Rattle.std.specs.Prelude.{◌≡◌, ℕ, ◌+◌, ◌-◌, ◌<◌, ◌≤◌, ◌^◌, ◌++◌, min, false};
ghost use Rattle.std.specs.Prelude.{List, Bool, Option, Some, IfSome, slice_get, slice_index};
ghost use Rattle.fb_schema.specs.declared.kinds.TypeId.{TypeId};
ghost use Rattle.fb_schema.specs.declared.kinds.Kind.TheVariants.{Struct};
ghost use Rattle.fb_schema.specs.declared.kinds.Shape.TheVariants.{One};
ghost use Rattle.fb_schema.specs.Schema.{DeclaredField, body_at, parts_in};
ghost use Rattle.fb_layout.specs.Laid.{struct_at};
ghost use Rattle.fb_value.specs.Datum.{Datum, Parts, a_struct};
ghost use Rattle.fb_text.specs.Shown.{IsTop, HasWeight};
ghost use Rattle.fb_text.specs.Nested.{HasByte, HasStruct, IsStructAt, StandsIn, IsAt, left_text};

use crate::shown::{Shown, ValueHead};
use fb_layout::{Layout, layout_is_well_made};
use fb_schema::{Kind, Shape, TypeId};

/// A struct in another, or that one itself, and which of its fields is printed next.
#[derive(Drop)]
pub(crate) struct StructCursor<S> {
    pub structure: TypeId,
    pub shown: S,
    /// How many structs are around it.
    pub depth: u64,
    /// Where it begins, in bytes after the start of the outermost.
    pub at: u32,
    pub next: u16,
    /// Whether a field of it was printed.
    pub some: bool,
    /// How many structs may be entered yet. There are never so many in one: it takes 65,535 bytes
    /// at most, and no more structs have a byte than there are types.
    pub left: u64,
}

/// A struct that is in no other, before its first field.
pub(crate) fn outermost<S: Shown>(structure: TypeId, shown: S) -> StructCursor<S>
    ensures { result ≡ record {
      structure = structure;
      shown = shown;
      depth = 0;
      at = 0;
      next = 0;
      some = false;
      left = 2 ^ 64 - 2;
    } }
{
    StructCursor {
        structure,
        shown,
        depth: 0,
        at: 0,
        next: 0,
        some: false,
        left: u64::MAX - 1,
    }
}

/// Moves to the struct in the next field, before its first field.
pub(crate) fn enter<S: Shown>(
    layout: &Layout,
    here: &mut StructCursor<S>,
    structure: TypeId,
    shown: S,
)
    requires some { 0 < here.old.left }
    requires few { here.old.depth + here.old.left < 2 ^ 64 }
    ensures { here.new ≡ record {
      structure = structure;
      shown = shown;
      depth = here.old.depth + 1;
      at = min (here.old.at + slice_index (struct_at layout.now here.old.structure.0).offsets here.old.next)
          (2 ^ 32 - 1);
      next = 0;
      some = false;
      left = here.old.left - 1;
    } }
{
    let offset = layout.offset_of(here.structure, here.next);
    *here = StructCursor {
        structure,
        shown,
        depth: here.depth + 1,
        at: here.at.saturating_add(offset),
        next: 0,
        some: false,
        left: here.left - 1,
    };
}

/// The type of the struct that was found in a field, if one was.
pub(crate) fn struct_in(shape: Shape, found: ValueHead) -> Option<TypeId>
    ensures known { (u : TypeId) (es : Parts) → shape ≡ One (Struct u) → IsTop found.entry (Some (a_struct es))
        → result ≡ Some u }
    ensures shape { IfSome result (λ u. shape ≡ One (Struct u)) }
    ensures part { IfSome result (λ _. (o : Option Datum) → IsTop found.entry o
        → (es : Parts) × (o ≡ Some (a_struct es))) }
    ensures heavy { IfSome result (λ _. (weight : ℕ) → HasWeight found.entry weight → 0 < weight) }
{
    match found {
        ValueHead::Struct => match shape {
            Shape::One(Kind::Struct(structure)) => Some(structure),
            _ => None,
        },
        _ => None,
    }
}

/// The field of a struct that has a byte, counted from the struct's begin; another where none has it.
fn field_at(layout: &Layout, structure: TypeId, byte: u32) -> u16
    ensures found { (k : ℕ) (f : DeclaredField)
        → slice_get (parts_in (body_at layout.now.schema structure.0)) k ≡ Some f
        → HasByte layout.now structure k f byte → result ≡ k }
    ensures few { result < 65535 }
{
    layout_is_well_made(layout);
    let mut low = 0usize;
    let mut high = layout.parts_of(structure).len();
    while low + 1 < high {
        let middle = low + (high - low) / 2;
        if layout.offset_of(structure, middle as u16) <= byte {
            low = middle;
        } else {
            high = middle;
        }
    }
    low as u16
}

/// The struct in the field that has a byte, counted from the begin of the outermost; the struct
/// itself where there is none.
fn inner_at<S: Shown>(layout: &Layout, here: StructCursor<S>, byte: u32) -> StructCursor<S>
    requires { 0 < S.weight here.shown }
    ensures heavy { 0 < S.weight result.shown }
    ensures light { S.weight result.shown ≤ S.weight here.shown }
    ensures inner { (ds : Parts) (k : ℕ) (u : TypeId) (es : Parts) (more : ℕ)
        → S.shows here.shown layout.now (Some (a_struct ds)) → HasStruct layout.now here.structure ds k u es
        → more < (struct_at layout.now u.0).size
        → byte ≡ here.at + (slice_index (struct_at layout.now here.structure.0).offsets k + more)
        → IsStructAt S.shows layout.now u es
        (here.at + slice_index (struct_at layout.now here.structure.0).offsets k) result }
{
    layout_is_well_made(layout);
    let fields = layout.parts_of(here.structure);
    let next = field_at(layout, here.structure, byte.saturating_sub(here.at));
    let k = usize::from(next);
    if k >= fields.len() {
        return here;
    }
    let part = here.shown.child(k);
    match struct_in(fields[k].shape, part.head()) {
        Some(structure) => StructCursor {
            structure,
            shown: part,
            at: here
                .at
                .saturating_add(layout.offset_of(here.structure, next)),
            ..here
        },
        None => here,
    }
}

/// The struct around one, after the field that has that one. It is found by its bytes, from the outermost
/// struct down, which has the type `structure` and is read from `shown`.
pub(crate) fn parent_of<S: Shown>(
    layout: &Layout,
    structure: TypeId,
    shown: S,
    inner: StructCursor<S>,
) -> StructCursor<S>
    requires nested { 0 < inner.depth }
    requires heavy { 0 < S.weight shown }
    ensures heavy { 0 < S.weight result.shown }
    ensures light { S.weight result.shown ≤ S.weight shown }
    ensures up { result.depth + 1 ≡ inner.depth }
    ensures left { result.left ≡ inner.left }
    ensures parent { (defaults : Bool) (indent : Option (List ℕ)) (ds es : Parts) (behind : List ℕ)
        → S.shows shown layout.now (Some (a_struct ds))
        → StandsIn layout.now defaults indent structure ds inner.depth inner.at inner.structure es behind
        → (around : Parts) × (rest : List ℕ)
        × IsAt S.shows layout.now defaults indent structure ds result around rest
        × (behind ≡ left_text layout.now defaults indent result around ++ rest) }
{
    layout_is_well_made(layout);
    let mut here = outermost(structure, shown);
    for _level in 0..inner.depth - 1 {
        here = inner_at(layout, here, inner.at);
    }
    let field = field_at(layout, here.structure, inner.at.saturating_sub(here.at));
    StructCursor {
        depth: inner.depth - 1,
        next: field + 1,
        some: true,
        left: inner.left,
        ..here
    }
}
