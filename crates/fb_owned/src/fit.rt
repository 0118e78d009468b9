//! Whether a value is one that a type may have.
ghost use Rattle.std.specs.Prelude.{◌↔◌, ◌≡◌, ◌≤◌, IsTrue, Some, option_map};
ghost use Rattle.fb_schema.specs.Schema.{Name, DeclaredSchema};
ghost use Rattle.fb_schema.specs.Seen.{body_seen};
ghost use Rattle.fb_layout.specs.Laid.{stored_kind};
ghost use Rattle.fb_layout.specs.Seen.{kind_seen, shape_seen, slot_seen, slots_seen, kinds_seen};
ghost use Rattle.fb_value.specs.View.{view, parts_view, entries_view};
ghost use Rattle.fb_value.specs.Counts.{nesting};
ghost use Rattle.fb_value.specs.Fits.{Fits, PartsFit, EachFits, EntriesFit, kind_of_type, kind_at, FitsType};
ghost use Rattle.fb_value.specs.Entries.{EntryFits};

use crate::shapes::{
    elements_wanted, is_table, may_be_absent, member_wanted, struct_wanted, takes_number,
    takes_text, takes_unknown,
};
use fb_layout::{Layout, kind_in};
use fb_schema::{Body, FieldInfo, Kind, Schema, Shape, TypeId};
use fb_value::Value;

/// Whether the type of this number may have the value.
pub fn fits(layout: &Layout, type_id: TypeId, value: &Value) -> bool
    requires { nesting (view value.now) ≤ 300 }
    ensures { IsTrue result ↔ FitsType layout.now type_id.0 (view value.now) }
{
    kind_of(layout.schema(), type_id).is_some_and(|kind| fits_in(layout, Shape::One(kind), value))
}

// What a declared type is as a kind.
fn kind_of(schema: &Schema, type_id: TypeId) -> Option<Kind>
    ensures { option_map (stored_kind schema.now) result ≡ kind_at schema.now type_id.0 }
{
    let info = schema.types().get(type_id.0 as usize)?;
    Some(kind_of_body(type_id, &info.body))
}

fn kind_of_body(type_id: TypeId, body: &Body) -> Kind
    ensures { (schema : DeclaredSchema) (name : Name)
        → kind_of_type type_id.0 (Some (record { name = name; body = body_seen body.now }))
        ≡ Some (stored_kind schema result) }
{
    match body {
        Body::Table(_) => Kind::Table(type_id),
        Body::Struct(_, _) => Kind::Struct(type_id),
        Body::Enum(base, _, _) => Kind::Scalar(*base),
        Body::Union(_) => Kind::Union(type_id),
    }
}

#[cycle(fits)]
fn fits_in(layout: &Layout, shape: Shape, value: &Value) -> bool
    ensures { IsTrue result ↔ Fits layout.now (shape_seen layout.now shape) (view value.now) }
{
    match value {
        Value::Number(number) => takes_number(layout, shape, *number),
        Value::Text(text) => takes_text(shape, text.as_str()),
        Value::Items(items) => match elements_wanted(shape) {
            Some(kind) => each_fits(layout, kind, items),
            None => false,
        },
        Value::Fixed(parts) => match struct_wanted(shape) {
            Some(structure) => parts_fit(layout, layout.parts_of(structure), parts),
            None => false,
        },
        Value::Fields(owner, entries) => {
            is_table(shape, *owner) && entries_fit(layout, layout.slots_of(*owner), entries)
        }
        Value::Member(code, member) => match member_wanted(layout, shape, *code) {
            Some(table) => fits_in(layout, Shape::One(Kind::Table(table)), member),
            None => false,
        },
        Value::Other(code) => takes_unknown(layout, shape, *code),
    }
}

#[cycle(fits)]
fn each_fits(layout: &Layout, kind: Kind, items: &[Value]) -> bool
    ensures { IsTrue result ↔ EachFits layout.now (kind_seen layout.now kind) (parts_view items.now) }
{
    for item in items {
        if !fits_in(layout, Shape::One(kind), item) {
            return false;
        }
    }
    true
}

#[cycle(fits)]
fn parts_fit(layout: &Layout, fields: &[FieldInfo], parts: &[Value]) -> bool
    ensures { IsTrue result ↔ PartsFit layout.now (kinds_seen layout.now fields.now) (parts_view parts.now) }
{
    if fields.len() != parts.len() {
        return false;
    }
    for i in 0..fields.len() {
        let kind = kind_in(fields[i].shape);
        if !fits_in(layout, Shape::One(kind), &parts[i]) {
            return false;
        }
    }
    true
}

#[cycle(fits)]
fn entries_fit(layout: &Layout, slots: &[FieldInfo], entries: &[Option<Value>]) -> bool
    ensures { IsTrue result ↔ EntriesFit layout.now (slots_seen layout.now slots.now) (entries_view entries.now) }
{
    if slots.len() != entries.len() {
        return false;
    }
    for (i, entry) in entries.iter().enumerate() {
        if !entry_fits(layout, &slots[i], entry) {
            return false;
        }
    }
    true
}

#[cycle(fits)]
fn entry_fits(layout: &Layout, slot: &FieldInfo, entry: &Option<Value>) -> bool
    ensures { IsTrue result ↔ EntryFits layout.now (slot_seen layout.now slot.now) (option_map view entry.now) }
{
    match entry {
        Some(value) => !slot.deprecated && fits_in(layout, slot.shape, value),
        None => may_be_absent(slot),
    }
}
