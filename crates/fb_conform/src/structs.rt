//! Two structs of one full name.
ghost use Rattle.std.specs.Prelude.{◌≡◌, ◌↔◌, IsTrue, map};
ghost use Rattle.fb_schema.specs.Schema.{body_at, parts_in};
ghost use Rattle.fb_schema.specs.Seen.{field_seen};
ghost use Rattle.fb_layout.specs.Laid.{struct_at};
ghost use Rattle.fb_conform.specs.ByName.{SameFields};

use crate::shapes::same_shape;
use fb_layout::Layout;
use fb_schema::{FieldInfo, Kind, Schema, TypeId};

/// Whether two lists of fields have one list of types.
fn same_fields(old: &Schema, new: &Schema, was: &[FieldInfo], is: &[FieldInfo]) -> bool
    ensures { IsTrue result ↔ SameFields old.now new.now
        (map field_seen was.now) (map field_seen is.now) }
{
    if was.len() != is.len() {
        return false;
    }
    for (i, field) in was.iter().enumerate() {
        if !same_shape(old, new, field.shape, is[i].shape) {
            return false;
        }
    }
    true
}

/// Whether two structs have one list of types and one alignment.
pub(crate) fn same_struct(old: &Layout, new: &Layout, type_id: TypeId, twin: TypeId) -> bool
    ensures { IsTrue result ↔ (SameFields old.now.schema new.now.schema
        (parts_in (body_at old.now.schema type_id.0)) (parts_in (body_at new.now.schema twin.0))
        × ((struct_at new.now twin.0).align ≡ (struct_at old.now type_id.0).align)) }
{
    let was = old.parts_of(type_id);
    let is = new.parts_of(twin);
    let aligned = new.align_of(Kind::Struct(twin)) == old.align_of(Kind::Struct(type_id));
    aligned && same_fields(old.schema(), new.schema(), was, is)
}
