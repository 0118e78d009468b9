//! What a shape wants.
ghost use Rattle.std.specs.Prelude.{◌↔◌, ◌≡◌, IsTrue, Some, option_map};
ghost use Rattle.fb_schema.specs.Seen.{field_seen};
ghost use Rattle.fb_schema.specs.Schema.{DeclaredSchema};
ghost use Rattle.fb_layout.specs.Laid.{LaidSchema, stored_kind, stored_shape, slot_of};
ghost use Rattle.fb_layout.specs.Seen.{shape_seen};
ghost use Rattle.fb_value.specs.Datum.{a_number, a_text, an_unknown};
ghost use Rattle.fb_value.specs.Fits.{MayBeAbsent, Fits};
ghost use Rattle.fb_value.specs.Wanted.{elements_wanted, struct_wanted, table_wanted, union_wanted, member_in};
ghost use Rattle.fb_value.specs.Wanted.{is_text, is_scalar};

use fb_layout::Layout;
use fb_schema::{FieldInfo, Kind, Shape, TypeId};

/// Whether a shape takes the number.
pub(crate) fn takes_number(layout: &Layout, shape: Shape, number: i128) -> bool
    ensures { IsTrue result ↔ Fits layout.now (shape_seen layout.now shape) (a_number number) }
{
    let Shape::One(kind) = shape else {
        return false;
    };
    match kind {
        Kind::Scalar(base) => base.holds(number),
        Kind::Enum(enumeration) => layout.base_of(enumeration).holds(number),
        Kind::Struct(_) | Kind::Table(_) | Kind::Union(_) | Kind::Code(_) | Kind::Text => false,
    }
}

fn is_text(shape: Shape) -> bool
    ensures { (schema : DeclaredSchema) → result ≡ is_text (stored_shape schema shape) }
{
    let Shape::One(kind) = shape else {
        return false;
    };
    match kind {
        Kind::Text => true,
        Kind::Scalar(_)
        | Kind::Enum(_)
        | Kind::Struct(_)
        | Kind::Table(_)
        | Kind::Union(_)
        | Kind::Code(_) => false,
    }
}

/// Whether a shape takes the text.
pub(crate) fn takes_text(shape: Shape, text: &str) -> bool
    ensures { (L : LaidSchema) → IsTrue result ↔ Fits L (stored_shape L.schema shape) (a_text text.now) }
{
    let _ = text; // the contract names it, the code needs none of it
    is_text(shape)
}

/// The kind of a vector's elements.
pub(crate) fn elements_wanted(shape: Shape) -> Option<Kind>
    ensures { (schema : DeclaredSchema)
        → option_map (stored_kind schema) result ≡ elements_wanted (stored_shape schema shape) }
{
    match shape {
        Shape::Many(kind) => Some(kind),
        Shape::One(_) => None,
    }
}

/// The struct that a shape is.
pub(crate) fn struct_wanted(shape: Shape) -> Option<TypeId>
    ensures { (schema : DeclaredSchema) → option_map (λ s. s.0) result ≡ struct_wanted (stored_shape schema shape) }
{
    let Shape::One(kind) = shape else {
        return None;
    };
    match kind {
        Kind::Struct(structure) => Some(structure),
        Kind::Scalar(_)
        | Kind::Enum(_)
        | Kind::Table(_)
        | Kind::Union(_)
        | Kind::Code(_)
        | Kind::Text => None,
    }
}

/// The table that a shape is.
fn table_wanted(shape: Shape) -> Option<TypeId>
    ensures { (schema : DeclaredSchema) → option_map (λ t. t.0) result ≡ table_wanted (stored_shape schema shape) }
{
    let Shape::One(kind) = shape else {
        return None;
    };
    match kind {
        Kind::Table(table) => Some(table),
        Kind::Scalar(_)
        | Kind::Enum(_)
        | Kind::Struct(_)
        | Kind::Union(_)
        | Kind::Code(_)
        | Kind::Text => None,
    }
}

/// Whether a shape is the table of a number.
pub(crate) fn is_table(shape: Shape, table: TypeId) -> bool
    ensures { (schema : DeclaredSchema)
        → IsTrue result ↔ (table_wanted (stored_shape schema shape) ≡ Some table.0) }
{
    table_wanted(shape) == Some(table)
}

/// The union that a shape is.
fn union_wanted(shape: Shape) -> Option<TypeId>
    ensures { (schema : DeclaredSchema) → option_map (λ u. u.0) result ≡ union_wanted (stored_shape schema shape) }
{
    let Shape::One(kind) = shape else {
        return None;
    };
    match kind {
        Kind::Union(union) => Some(union),
        Kind::Scalar(_)
        | Kind::Enum(_)
        | Kind::Struct(_)
        | Kind::Table(_)
        | Kind::Code(_)
        | Kind::Text => None,
    }
}

/// The table that a code names, where a shape is a union.
pub(crate) fn member_wanted(layout: &Layout, shape: Shape, code: u8) -> Option<TypeId>
    ensures { option_map (λ t. t.0) result ≡ member_in layout.now (shape_seen layout.now shape) code }
{
    let union = union_wanted(shape)?;
    layout.schema().member_by_code(union, code)
}

/// Whether a shape is a union without a member of this code, which isn't that of no member.
pub(crate) fn takes_unknown(layout: &Layout, shape: Shape, code: u8) -> bool
    ensures { IsTrue result ↔ Fits layout.now (shape_seen layout.now shape) (an_unknown code) }
{
    let Some(union) = union_wanted(shape) else {
        return false;
    };
    code != 0 && layout.schema().member_by_code(union, code).is_none()
}

/// Whether a shape is a number.
fn is_scalar(shape: Shape) -> bool
    ensures { (schema : DeclaredSchema) → result ≡ is_scalar (stored_shape schema shape) }
{
    let Shape::One(kind) = shape else {
        return false;
    };
    match kind {
        Kind::Scalar(_) | Kind::Enum(_) => true,
        Kind::Struct(_) | Kind::Table(_) | Kind::Union(_) | Kind::Code(_) | Kind::Text => false,
    }
}

/// Whether a slot may have no entry.
pub(crate) fn may_be_absent(slot: &FieldInfo) -> bool
    ensures { (schema : DeclaredSchema) → IsTrue result ↔ MayBeAbsent (slot_of schema (field_seen slot.now)) }
{
    if slot.deprecated {
        return true;
    }
    !slot.required && (slot.optional || !is_scalar(slot.shape))
}
