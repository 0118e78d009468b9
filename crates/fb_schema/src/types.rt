//! What a declared type has.
ghost use Rattle.std.specs.Prelude.{◌≡◌, map, option_map, string_bytes};
ghost use Rattle.fb_schema.specs.Seen.{field_seen, body_seen};
ghost use Rattle.fb_schema.specs.Bodies.{as_table, as_struct, as_enum, as_union};

use crate::kinds::{Base, Shape, TypeId};

/// A field of a table or struct.
///
/// `slot` is the field's place in its table's vtable, or its number in a struct. `default` is 0 where
/// none can be written, and without effect where the field is `optional` (`= null`).
#[derive(Drop)]
pub struct FieldInfo {
    pub name: String,
    pub shape: Shape,
    pub default: i128,
    pub optional: bool,
    pub required: bool,
    pub deprecated: bool,
    pub slot: u64,
}

/// A table's slots in order; a struct's fields in order and its `force_align`; an enum's underlying
/// type, its `bit_flags` mark and its values; a union's members by code, from 1 on.
#[derive(Drop)]
pub enum Body {
    Table(Vec<FieldInfo>),
    Struct(Vec<FieldInfo>, Option<u16>),
    Enum(Base, bool, Vec<(String, i128)>),
    Union(Vec<(String, TypeId)>),
}

impl Body {
    /// The slots of a table.
    pub fn as_table(&self) -> Option<&[FieldInfo]>
        ensures { option_map (λ slots. map field_seen slots.now) result
            ≡ as_table (body_seen self.now) }
    {
        match self {
            Body::Table(slots) => Some(slots.as_slice()),
            _ => None,
        }
    }

    /// The fields of a struct, and its `force_align`.
    pub fn as_struct(&self) -> Option<(&[FieldInfo], Option<u16>)>
        ensures { option_map (λ s. (map field_seen s.0.now, s.1)) result
            ≡ as_struct (body_seen self.now) }
    {
        match self {
            Body::Struct(fields, force_align) => Some((fields.as_slice(), *force_align)),
            _ => None,
        }
    }

    /// The underlying type of an enum, its `bit_flags` mark and its values.
    pub fn as_enum(&self) -> Option<(Base, bool, &[(String, i128)])>
        ensures { option_map
            (λ e. (e.0, e.1, map (λ v. (string_bytes v.0, v.1)) e.2.now)) result
            ≡ as_enum (body_seen self.now) }
    {
        match self {
            Body::Enum(base, flags, values) => Some((*base, *flags, values.as_slice())),
            _ => None,
        }
    }

    /// The members of a union, by code from 1 on.
    pub fn as_union(&self) -> Option<&[(String, TypeId)]>
        ensures { option_map (λ members. map (λ m. (string_bytes m.0, m.1.0)) members.now) result
            ≡ as_union (body_seen self.now) }
    {
        match self {
            Body::Union(members) => Some(members.as_slice()),
            _ => None,
        }
    }
}

/// A declared type. `name` is its full name, with its namespace.
#[derive(Drop)]
pub struct TypeInfo {
    pub name: String,
    pub body: Body,
}
