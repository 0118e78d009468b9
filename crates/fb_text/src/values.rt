//! Values in JSON texts.
ghost use Rattle.std.specs.Prelude.{◌≡◌, ℕ, ◌<◌, ◌≤◌, ◌++◌, ◌||◌, List, length, Bool, false};
ghost use Rattle.std.specs.Prelude.{Option, Some, is_some, IfSome, IsTrue};
ghost use Rattle.fb_schema.specs.Schema.{body_at, parts_in};
ghost use Rattle.fb_schema.specs.Seen.{field_seen};
ghost use Rattle.fb_schema.specs.declared.kinds.Kind.TheVariants.{Struct};
ghost use Rattle.fb_schema.specs.declared.kinds.Shape.{Shape};
ghost use Rattle.fb_schema.specs.declared.kinds.Shape.TheVariants.{One, Many};
ghost use Rattle.fb_value.specs.Datum.{Datum, Parts, SlotEntries, a_struct, a_table, a_vector};
ghost use Rattle.fb_text.specs.Indents.{blanks};
ghost use Rattle.fb_text.specs.Nested.{GoesOn, IsAt, IsBounded, IsNext, left_text, steps_left};
ghost use Rattle.fb_text.specs.Texts.{value_text};
ghost use Rattle.fb_text.specs.Printed.{is_entry_printed, slot_text, part_text};
ghost use Rattle.fb_text.specs.Shown.{IsTop, HasWeight};
ghost use Rattle.fb_text.specs.Writes.{state_of, Prints};

use crate::indents::Indent;
use crate::lines::{put_closing, put_line, put_member_line};
use crate::members::{is_printed, put_code};
use crate::nested::{StructCursor, enter, outermost, parent_of, struct_in};
use crate::noted::Noted;
use crate::numbers::put_number;
use crate::quotes::put_quoted;
use crate::shown::{Shown, ValueHead};
use crate::vectors::{put_numbers, put_texts};
use fb_layout::{Layout, layout_is_well_made};
use fb_schema::{FieldInfo, Kind, Shape, TypeId};
use std::io::Write;

/// How values are printed: by the names of a layout, with or without fields that have default values.
#[derive(Clone, Copy)]
pub struct Style<'a> {
    pub layout: &'a Layout,
    pub defaults: bool,
}

/// Where a value is read, and what is found there, so that it is found once.
#[derive(Clone, Copy)]
struct FoundValue<'f, S> {
    shown: S,
    found: ValueHead<'f>,
}

/// Adds the text of a value of a shape. Lines that the value begins are indented.
#[cycle(print)]
pub(crate) fn put_value<W: Write, S: Shown>(
    out: &mut Noted<W>,
    style: Style,
    indent: &Indent,
    shape: Shape,
    shown: S,
)
    ensures { (d : Datum) → S.shows shown style.entry.layout.now (Some d)
        → Prints W.contents out.old out.new
        (value_text style.entry.layout.now style.entry.defaults (blanks indent.now) shape d) }
{
    let value = FoundValue {
        shown,
        found: shown.head(),
    };
    put_found(out, style, indent, shape, value);
}

/// The same where it is known what is found there.
#[inline(always)]
#[cycle(print)]
fn put_found<W: Write, S: Shown>(
    out: &mut Noted<W>,
    style: Style,
    indent: &Indent,
    shape: Shape,
    value: FoundValue<'_, S>,
)
    requires { HasWeight value.found (S.weight value.shown) }
    ensures { (d : Datum) → S.shows value.entry.shown style.entry.layout.now (Some d)
        → IsTop value.entry.found (Some d)
        → Prints W.contents out.old out.new
        (value_text style.entry.layout.now style.entry.defaults (blanks indent.now) shape d) }
{
    let FoundValue { shown, found } = value;
    match found {
        ValueHead::Absent | ValueHead::Unknown => {}
        ValueHead::Number(number) => {
            if let Shape::One(kind) = shape {
                put_number(out, style.layout.schema(), kind, number);
            }
        }
        ValueHead::Text(text) => put_quoted(out, text),
        ValueHead::Struct => {
            if let Shape::One(Kind::Struct(structure)) = shape {
                put_struct(out, style, indent, structure, shown);
            }
        }
        ValueHead::Table(owner) => put_table(out, style, indent, owner, shown),
        ValueHead::Member(_) => put_value(out, style, indent, shape, shown.child(0)),
        ValueHead::Vector => {
            if let Shape::Many(kind) = shape {
                put_vector(out, style, indent, kind, shown);
            }
        }
    }
}

#[cycle(print)]
fn put_vector<W: Write, S: Shown>(
    out: &mut Noted<W>,
    style: Style,
    indent: &Indent,
    kind: Kind,
    shown: S,
)
    requires { 0 < S.weight shown }
    ensures { (ds : Parts) → S.shows shown style.entry.layout.now (Some (a_vector ds))
        → Prints W.contents out.old out.new (value_text style.entry.layout.now style.entry.defaults
        (blanks indent.now) (Many kind) (a_vector ds)) }
{
    out.put_str("[");
    if let Some(numbers) = shown.numbers() {
        return put_numbers(out, style.layout, indent, kind, numbers);
    }
    if let Some(texts) = shown.texts() {
        return put_texts(out, indent, texts);
    }
    let inner = indent.inside();
    let mut some = false;
    for i in 0..shown.count() {
        if out.failed() {
            return; // no more of it is written
        }
        put_line(out, &inner, some);
        put_item(out, style, &inner, kind, shown.child(i));
        some = true;
    }
    put_closing(out, indent, some);
    out.put_str("]");
}

/// Adds an element of a vector. A number is told from the rest first: it needs no walk.
#[inline(always)]
#[cycle(print)]
fn put_item<W: Write, S: Shown>(
    out: &mut Noted<W>,
    style: Style,
    indent: &Indent,
    kind: Kind,
    shown: S,
)
    ensures { (d : Datum) → S.shows shown style.entry.layout.now (Some d)
        → Prints W.contents out.old out.new
        (value_text style.entry.layout.now style.entry.defaults (blanks indent.now) (One kind) d) }
{
    match shown.head() {
        ValueHead::Number(number) => put_number(out, style.layout.schema(), kind, number),
        found => put_found(
            out,
            style,
            indent,
            Shape::One(kind),
            FoundValue { shown, found },
        ),
    }
}

#[cycle(print)]
fn put_table<W: Write, S: Shown>(
    out: &mut Noted<W>,
    style: Style,
    indent: &Indent,
    owner: TypeId,
    shown: S,
)
    requires { 0 < S.weight shown }
    ensures { (shape : Shape) (es : SlotEntries)
        → S.shows shown style.entry.layout.now (Some (a_table owner.0 es))
        → Prints W.contents out.old out.new (value_text style.entry.layout.now style.entry.defaults
        (blanks indent.now) shape (a_table owner.0 es)) }
{
    let inner = indent.inside();
    let slots = style.layout.slots_of(owner);
    out.put_str("{");
    let mut some = false;
    let end = shown.printed_slots(style.defaults, slots.len());
    let mut k = shown.next_printed(style.defaults, 0, end);
    while k < end {
        if out.failed() {
            return; // no more of it is written
        }
        some = put_member(out, style, &inner, some, &slots[k], shown.child(k));
        k = shown.next_printed(style.defaults, k + 1, end);
    }
    put_closing(out, indent, some);
    out.put_str("}");
}

/// Adds a slot's member, where it is printed, and says whether there is a member now.
#[cycle(print)]
fn put_member<W: Write, S: Shown>(
    out: &mut Noted<W>,
    style: Style,
    inner: &Indent,
    some: bool,
    slot: &FieldInfo,
    shown: S,
) -> bool
    ensures text { (o : Option Datum) → S.shows shown style.entry.layout.now o
        → Prints W.contents out.old out.new
        (slot_text style.entry.layout.now style.entry.defaults (blanks inner.now) some
        (field_seen slot.now) o) }
    ensures some { (o : Option Datum) → S.shows shown style.entry.layout.now o
        → result ≡ (some || is_entry_printed style.entry.defaults (field_seen slot.now) o) }
{
    let found = shown.head();
    if !is_printed(style.defaults, slot, found) {
        return some;
    }
    let some = put_code(out, style.layout.schema(), inner, some, slot, found);
    put_member_line(out, inner, some, slot.name.as_str(), false);
    put_found(out, style, inner, slot.shape, FoundValue { shown, found });
    true
}

/// Adds a struct, and the structs in it without a call for each: no depth of structs takes more stack.
#[cycle(print)]
fn put_struct<W: Write, S: Shown>(
    out: &mut Noted<W>,
    style: Style,
    indent: &Indent,
    structure: TypeId,
    shown: S,
)
    requires { 0 < S.weight shown }
    ensures { (ds : Parts) → S.shows shown style.entry.layout.now (Some (a_struct ds))
        → Prints W.contents out.old out.new (value_text style.entry.layout.now style.entry.defaults
        (blanks indent.now) (One (Struct structure)) (a_struct ds)) }
{
    let mut here = outermost(structure, shown);
    out.put_str("{");
    loop {
        if out.failed() {
            return; // no more of it is written
        }
        if put_fields(out, style, indent, &mut here) {
            continue;
        }
        match put_struct_end(out, style.layout, indent, structure, shown, here) {
            Some(parent) => here = parent,
            None => return,
        }
    }
}

/// Adds the fields of a struct up to the begin of a struct in one of them, where the cursor is then, or
/// up to the last one. Returns whether such a struct was begun.
#[cycle(print)]
fn put_fields<W: Write, S: Shown>(
    out: &mut Noted<W>,
    style: Style,
    indent: &Indent,
    here: &mut StructCursor<S>,
) -> bool
    requires { IsBounded S.weight here.old.shown here.old }
    ensures bounded { IsBounded S.weight here.old.shown here.new }
    ensures on { steps_left here.new ≤ steps_left here.old }
    ensures begun { IsTrue result → steps_left here.new < steps_left here.old }
    ensures ended { result ≡ false
        → length (parts_in (body_at style.entry.layout.now.schema here.new.structure.0)) ≤ here.new.next }
    ensures text { (t : TypeId) (ds es : Parts) (behind : List ℕ)
        → IsAt S.shows style.entry.layout.now style.entry.defaults (blanks indent.now) t ds here.old es behind
        → GoesOn S.shows style.entry.layout.now style.entry.defaults (blanks indent.now) t ds here.new
        (state_of W.contents out.old) (state_of W.contents out.new)
        (left_text style.entry.layout.now style.entry.defaults (blanks indent.now) here.old es ++ behind) }
{
    layout_is_well_made(style.layout); // so structs take few bytes
    let fields = style.layout.parts_of(here.structure);
    let inner = indent.deeper(here.depth + 1);
    while usize::from(here.next) < fields.len() {
        let k = usize::from(here.next);
        let field = &fields[k];
        let part = here.shown.child(k);
        let found = part.head();
        if here.left > 0
            && let Some(structure) = struct_in(field.shape, found)
        {
            put_member_line(out, &inner, here.some, field.name.as_str(), false);
            out.put_str("{");
            enter(style.layout, here, structure, part);
            return true;
        }
        let value = FoundValue { shown: part, found };
        here.some = put_field(out, style, &inner, here.some, field, value);
        here.next += 1;
    }
    false
}

/// Adds a struct's field, if it has something, and says whether there is a field now.
#[cycle(print)]
fn put_field<W: Write, S: Shown>(
    out: &mut Noted<W>,
    style: Style,
    inner: &Indent,
    some: bool,
    field: &FieldInfo,
    value: FoundValue<'_, S>,
) -> bool
    requires { HasWeight value.found (S.weight value.shown) }
    ensures text { (o : Option Datum) → S.shows value.entry.shown style.entry.layout.now o
        → IsTop value.entry.found o
        → Prints W.contents out.old out.new (part_text style.entry.layout.now style.entry.defaults
        (blanks inner.now) some (field_seen field.now) o) }
    ensures some { (o : Option Datum) → IsTop value.entry.found o → result ≡ (some || is_some o) }
{
    if let ValueHead::Absent = value.found {
        return some;
    }
    put_member_line(out, inner, some, field.name.as_str(), false);
    put_found(out, style, inner, field.shape, value);
    true
}

/// Adds the end of a struct. Returns where the struct around it goes on; nothing where there is none.
/// The outermost struct has the type `structure` and is read from `shown`.
fn put_struct_end<W: Write, S: Shown>(
    out: &mut Noted<W>,
    layout: &Layout,
    indent: &Indent,
    structure: TypeId,
    shown: S,
    here: StructCursor<S>,
) -> Option<StructCursor<S>>
    requires heavy { 0 < S.weight shown }
    requires bounded { IsBounded S.weight shown here }
    requires end { length (parts_in (body_at layout.now.schema here.structure.0)) ≤ here.next }
    ensures bounded { IfSome result (λ parent. IsBounded S.weight shown parent) }
    ensures fewer { IfSome result (λ parent. steps_left parent < steps_left here) }
    ensures text { (defaults : Bool) (ds es : Parts) (behind : List ℕ)
        → S.shows shown layout.now (Some (a_struct ds))
        → IsAt S.shows layout.now defaults (blanks indent.now) structure ds here es behind
        → IsNext S.shows layout.now defaults (blanks indent.now) structure ds result
        (state_of W.contents out.old) (state_of W.contents out.new)
        (left_text layout.now defaults (blanks indent.now) here es ++ behind) }
{
    put_closing(out, &indent.deeper(here.depth), here.some);
    out.put_str("}");
    if here.depth == 0 {
        return None;
    }
    Some(parent_of(layout, structure, shown, here))
}
