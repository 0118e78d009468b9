//! What a slot's field keeps under a schema that follows: its type, default and marks.
ghost use Rattle.std.specs.Prelude.{◌≡◌, ◌↔◌, true, IsTrue};
ghost use Rattle.fb_schema.specs.Seen.{field_seen};
ghost use Rattle.fb_conform.specs.ByName.{SameShape};
ghost use Rattle.fb_conform.specs.Conforms.{is_number, is_required, SameDefault};

use crate::shapes::same_shape;
use fb_layout::Layout;
use fb_schema::{FieldInfo, Kind, Shape};

fn is_number(field: &FieldInfo) -> bool
    ensures { result ≡ is_number (field_seen field.now).shape }
{
    matches!(field.shape, Shape::One(Kind::Scalar(_) | Kind::Enum(_)))
}

/// Whether a field is required and in use.
pub(crate) fn is_required(field: &FieldInfo) -> bool
    ensures { result ≡ is_required (field_seen field.now) }
{
    field.required && !field.deprecated
}

/// Whether two fields have one type.
pub(crate) fn same_type(old: &Layout, new: &Layout, was: &FieldInfo, is: &FieldInfo) -> bool
    ensures { IsTrue result ↔ SameShape old.now.schema new.now.schema
        (field_seen was.now).shape (field_seen is.now).shape }
{
    same_shape(old.schema(), new.schema(), was.shape, is.shape)
}

/// Whether two numbers have one default or are both optional; nothing else has a default.
pub(crate) fn same_default(was: &FieldInfo, is: &FieldInfo) -> bool
    ensures { IsTrue result ↔ SameDefault (field_seen was.now) (field_seen is.now) }
{
    if !is_number(was) || !is_number(is) {
        return true;
    }
    was.default == is.default && was.optional == is.optional
}

/// Whether two fields are both required and in use, or neither is.
pub(crate) fn same_required(was: &FieldInfo, is: &FieldInfo) -> bool
    ensures { IsTrue result ↔ (is_required (field_seen is.now) ≡ is_required (field_seen was.now)) }
{
    is_required(is) == is_required(was)
}

/// Whether a field that was deprecated is it still.
pub(crate) fn stays_deprecated(was: &FieldInfo, is: &FieldInfo) -> bool
    ensures { IsTrue result ↔ ((field_seen was.now).deprecated ≡ true
        → (field_seen is.now).deprecated ≡ true) }
{
    is.deprecated || !was.deprecated
}
