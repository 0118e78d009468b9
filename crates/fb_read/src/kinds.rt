//! What the values of a kind are.
ghost use Rattle.std.specs.Prelude.{◌≡◌, option_map};
ghost use Rattle.fb_layout.specs.Laid.{LaidSchema, align_of, size_of, stored_kind};
ghost use Rattle.fb_value.specs.Places.{target_of};
ghost use Rattle.fb_read.specs.Values.{led_to};
ghost use Rattle.fb_read.specs.Kinds.{base_wanted, structure_wanted, table_wanted, is_text};

use crate::reference::Reference;
use fb_layout::Layout;
use fb_schema::{Base, Kind, TypeId};

/// The basic type of a kind's numbers.
#[inline(always)]
pub fn base_of(layout: &Layout, kind: Kind) -> Option<Base>
    ensures { result ≡ base_wanted (stored_kind layout.now.schema kind) }
{
    match kind {
        Kind::Scalar(base) => Some(base),
        Kind::Enum(values) => Some(layout.base_of(values)),
        Kind::Struct(_) | Kind::Table(_) | Kind::Union(_) | Kind::Code(_) | Kind::Text => None,
    }
}

/// The struct of a kind.
pub fn structure_of(kind: Kind) -> Option<TypeId>
    ensures { (L : LaidSchema) → option_map (λ s. s.0) result ≡ structure_wanted (stored_kind L.schema kind) }
{
    match kind {
        Kind::Struct(structure) => Some(structure),
        Kind::Scalar(_)
        | Kind::Enum(_)
        | Kind::Table(_)
        | Kind::Union(_)
        | Kind::Code(_)
        | Kind::Text => None,
    }
}

/// The table of a kind.
pub fn table_of(kind: Kind) -> Option<TypeId>
    ensures { (L : LaidSchema) → option_map (λ t. t.0) result ≡ table_wanted (stored_kind L.schema kind) }
{
    match kind {
        Kind::Table(table) => Some(table),
        Kind::Scalar(_)
        | Kind::Enum(_)
        | Kind::Struct(_)
        | Kind::Union(_)
        | Kind::Code(_)
        | Kind::Text => None,
    }
}

/// The size of an element of this kind in bytes. That of a number or a reference takes no look-up.
#[inline(always)]
pub fn size_in(layout: &Layout, kind: Kind) -> u32
    ensures { result ≡ size_of layout.now (stored_kind layout.now.schema kind) }
{
    match kind {
        Kind::Text | Kind::Table(_) => 4,
        Kind::Scalar(base) => u32::from(base.size()),
        Kind::Enum(values) => u32::from(layout.base_of(values).size()),
        Kind::Struct(structure) => layout.size_of(Kind::Struct(structure)),
        Kind::Union(_) => 4,
        Kind::Code(_) => 1,
    }
}

/// The alignment of an element of this kind. That of a number or a reference takes no look-up.
#[inline(always)]
pub fn align_in(layout: &Layout, kind: Kind) -> u32
    ensures { result ≡ align_of layout.now (stored_kind layout.now.schema kind) }
{
    match kind {
        Kind::Text | Kind::Table(_) => 4,
        Kind::Scalar(base) => u32::from(base.size()),
        Kind::Enum(values) => u32::from(layout.base_of(values).size()),
        Kind::Struct(structure) => layout.align_of(Kind::Struct(structure)),
        Kind::Union(_) => 4,
        Kind::Code(_) => 1,
    }
}

/// What a vector's elements refer to, where they are references.
#[inline(always)]
pub fn reference_of(kind: Kind) -> Option<Reference>
    ensures { (L : LaidSchema) → option_map led_to result ≡ target_of (stored_kind L.schema kind) }
{
    match kind {
        Kind::Text => Some(Reference::ToText),
        Kind::Table(table) => Some(Reference::ToTable(table)),
        Kind::Scalar(_) | Kind::Enum(_) | Kind::Struct(_) | Kind::Union(_) | Kind::Code(_) => None,
    }
}

/// Whether a kind's values are texts.
pub fn is_text(kind: Kind) -> bool
    ensures { (L : LaidSchema) → result ≡ is_text (stored_kind L.schema kind) }
{
    match kind {
        Kind::Text => true,
        Kind::Scalar(_)
        | Kind::Enum(_)
        | Kind::Struct(_)
        | Kind::Table(_)
        | Kind::Union(_)
        | Kind::Code(_) => false,
    }
}
