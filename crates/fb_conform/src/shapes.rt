//! Whether two fields have one type, named types compared by full name.
ghost use Rattle.std.specs.Prelude.{◌≡◌, ◌↔◌, IsTrue};
ghost use Rattle.fb_conform.specs.ByName.{kind_by_name, SameShape};

use crate::twins::same_name;
use fb_schema::{Kind, Schema, Shape};

fn same_kind(old: &Schema, new: &Schema, was: Kind, is: Kind) -> bool
    ensures { IsTrue result ↔ (kind_by_name old.now was ≡ kind_by_name new.now is) }
{
    match (was, is) {
        (Kind::Scalar(base), Kind::Scalar(other)) => base == other,
        (Kind::Text, Kind::Text) => true,
        (Kind::Code(union), Kind::Code(other)) => same_name(old, new, union, other),
        (
            Kind::Enum(a) | Kind::Struct(a) | Kind::Table(a) | Kind::Union(a),
            Kind::Enum(b) | Kind::Struct(b) | Kind::Table(b) | Kind::Union(b),
        ) => same_name(old, new, a, b),
        _ => false,
    }
}

/// Whether two fields have one type.
pub(crate) fn same_shape(old: &Schema, new: &Schema, was: Shape, is: Shape) -> bool
    ensures { IsTrue result ↔ SameShape old.now new.now was is }
{
    match (was, is) {
        (Shape::One(a), Shape::One(b)) => same_kind(old, new, a, b),
        (Shape::Many(a), Shape::Many(b)) => same_kind(old, new, a, b),
        _ => false,
    }
}
