//! The fields of tables and structs.
ghost use Rattle.std.specs.Prelude.{◌≡◌, map};
ghost use Rattle.fb_schema.specs.Schema.{body_at, slots_in, parts_in};
ghost use Rattle.fb_schema.specs.Seen.{field_seen, body_seen};
ghost use Rattle.fb_layout.specs.Widths.{most_slots};

use fb_schema::{Body, FieldInfo, Schema, TypeId};

/// The slots of a table; none of another type.
pub(crate) fn slots_in(body: &Body) -> &[FieldInfo]
    ensures { map field_seen result.now ≡ slots_in (body_seen body.now) }
{
    body.as_table().unwrap_or(&[])
}

/// The fields of a struct; none of another type.
fn parts_in(body: &Body) -> &[FieldInfo]
    ensures { map field_seen result.now ≡ parts_in (body_seen body.now) }
{
    match body.as_struct() {
        Some((parts, _)) => parts,
        None => &[],
    }
}

/// The slots of the table of a number; none of another type.
pub(crate) fn slots_at(schema: &Schema, table: TypeId) -> &[FieldInfo]
    ensures { map field_seen result.now ≡ slots_in (body_at schema.now table.0) }
{
    match schema.types().get(table.0 as usize) {
        Some(info) => slots_in(&info.body),
        None => &[],
    }
}

/// The fields of the struct of a number; none of another type.
pub(crate) fn parts_at(schema: &Schema, structure: TypeId) -> &[FieldInfo]
    ensures { map field_seen result.now ≡ parts_in (body_at schema.now structure.0) }
{
    match schema.types().get(structure.0 as usize) {
        Some(info) => parts_in(&info.body),
        None => &[],
    }
}

/// The most slots that a table has.
pub(crate) fn most_slots(schema: &Schema) -> usize
    ensures { result ≡ most_slots schema.now }
{
    let types = schema.types();
    let mut most = 0;
    for info in types {
        most = slots_in(&info.body).len().max(most);
    }
    most
}
