//! What the slots of a table have.
ghost use Rattle.std.specs.Prelude.{◌≡◌, ℕ, ◌+◌, ◌<◌, ◌≤◌, ◌^◌, length, None, false};
ghost use Rattle.fb_layout.specs.Laid.{member_by_code};
ghost use Rattle.fb_value.specs.Nth.{slot_place};
ghost use Rattle.fb_read.specs.Visits.{slot_seen, slots_seen, union_place};
ghost use Rattle.fb_read.specs.Walks.{HasVtable};
ghost use Rattle.fb_read.specs.Weights.{StandsBehind};
ghost use Rattle.fb_read.specs.Stored.{stored_place, stored_at, text_place_of, table_place_of, member_place_of};
ghost use Rattle.fb_read.specs.Stored.{vector_place_of, struct_place_of, number_place_of, default_in};
ghost use Rattle.fb_read.specs.Stored.{unknown_code_of};

use crate::places::{is_stored, slot_of};
use crate::rules::union_code;
use crate::visit_leaves::is_first_required;
use crate::walk::TableAt;
use fb_layout::Layout;
use fb_schema::{Base, FieldInfo, Kind, Shape, TypeId};

/// A union's code: its value's slot, and whether the value is required and present.
#[derive(Clone, Copy, Debug, PartialEq, Eq)]
pub struct UnionCode {
    pub union: TypeId,
    pub value_slot: u16,
    pub required: bool,
    pub present: bool,
}

/// What a slot has, or where it is in the bytes.
#[derive(Clone, Copy, PartialEq, Eq)]
pub enum Stored {
    /// Nothing is stored: the default, if there is one.
    Absent(Option<i128>),
    /// The position of a union's code.
    Code(UnionCode, usize),
    /// The position of a union's value under a code that no member has.
    Unknown(u8, usize),
    /// A number's position.
    Number(Base, usize),
    /// A struct's position.
    Fixed(TypeId, usize),
    /// The position of a reference to a text.
    Text(usize),
    /// The position of a reference to a table.
    Table(TypeId, usize),
    /// The position of a reference to a union's member, under its code.
    Member(u8, TypeId, usize),
    /// The position of a reference to a vector.
    Vector(Kind, usize),
}

impl Stored {
    /// Where a text's reference is.
    pub fn text(self) -> Option<usize>
        ensures { result ≡ text_place_of self }
    {
        match self {
            Stored::Text(at) => Some(at),
            _ => None,
        }
    }

    /// Where a table's reference is.
    pub fn table(self) -> Option<(TypeId, usize)>
        ensures { result ≡ table_place_of self }
    {
        match self {
            Stored::Table(table, at) => Some((table, at)),
            _ => None,
        }
    }

    /// Where the reference of a union's member is.
    pub fn member(self) -> Option<(u8, TypeId, usize)>
        ensures { result ≡ member_place_of self }
    {
        match self {
            Stored::Member(code, table, at) => Some((code, table, at)),
            _ => None,
        }
    }

    /// Where a vector's reference is.
    pub fn vector(self) -> Option<(Kind, usize)>
        ensures { result ≡ vector_place_of self }
    {
        match self {
            Stored::Vector(kind, at) => Some((kind, at)),
            _ => None,
        }
    }

    /// Where a struct is.
    pub fn structure(self) -> Option<(TypeId, usize)>
        ensures { result ≡ struct_place_of self }
    {
        match self {
            Stored::Fixed(structure, at) => Some((structure, at)),
            _ => None,
        }
    }

    /// Where a number is.
    pub fn number(self) -> Option<(Base, usize)>
        ensures { result ≡ number_place_of self }
    {
        match self {
            Stored::Number(base, at) => Some((base, at)),
            _ => None,
        }
    }

    /// The default of a number that isn't stored.
    pub fn default(self) -> Option<i128>
        ensures { result ≡ default_in self }
    {
        match self {
            Stored::Absent(default) => default,
            _ => None,
        }
    }

    /// A union's code that no member has.
    pub fn unknown(self) -> Option<u8>
        ensures { result ≡ unknown_code_of self }
    {
        match self {
            Stored::Unknown(code, _) => Some(code),
            _ => None,
        }
    }
}

/// A number's default, where it has one.
#[inline(always)]
pub fn default_of(layout: &Layout, field: &FieldInfo) -> Option<i128>
    ensures { result ≡ (slot_seen layout.now field.now).if_absent }
{
    if field.deprecated || field.optional {
        return None;
    }
    let _ = layout; // the contract names it, the code needs none of it
    match field.shape {
        Shape::One(Kind::Scalar(_)) | Shape::One(Kind::Enum(_)) => Some(field.default),
        _ => None,
    }
}

// What a union's slot has that is present, by the code before it.
#[inline(always)]
fn stored_member(layout: &Layout, union: TypeId, code: u8, at: usize) -> Stored
    requires low { at < 2 ^ 33 }
    ensures place { stored_place layout.now result ≡ union_place code at
        (member_by_code layout.now union.0 code) }
    ensures default { default_in result ≡ None }
    ensures low { stored_at result < 2 ^ 33 }
    ensures behind { (p : ℕ) → p < at → StandsBehind p result }
{
    match layout.schema().member_by_code(union, code) {
        Some(table) => Stored::Member(code, table, at),
        None if code == 0 => Stored::Absent(None),
        None => Stored::Unknown(code, at),
    }
}

/// What a slot of a table has.
#[inline(always)]
pub fn stored_in(
    layout: &Layout,
    bytes: &[u8],
    field: &FieldInfo,
    later: &[FieldInfo],
    table: TableAt,
    slot: usize,
) -> Stored
    requires vtable { HasVtable bytes.now table }
    requires short { length bytes.now < 2 ^ 31 }
    requires few { slot < 2 ^ 15 }
    ensures place { stored_place layout.now result ≡ slot_place layout.now bytes.now table.at slot
        (slots_seen layout.now later.now) (slot_seen layout.now field.now) }
    ensures default { stored_place layout.now result ≡ None
        → default_in result ≡ (slot_seen layout.now field.now).if_absent }
    ensures low { stored_at result < 2 ^ 33 }
    ensures behind { StandsBehind table.at result }
{
    if field.deprecated {
        return Stored::Absent(None);
    }
    let TableAt { at, vtable_at } = table;
    let offset = slot_of(bytes, at, vtable_at, slot);
    if offset == 0 {
        return Stored::Absent(default_of(layout, field));
    }
    match field.shape {
        Shape::Many(kind) => Stored::Vector(kind, at + offset),
        Shape::One(Kind::Text) => Stored::Text(at + offset),
        Shape::One(Kind::Table(table)) => Stored::Table(table, at + offset),
        Shape::One(Kind::Union(union)) => {
            let code = union_code(bytes, at, vtable_at, slot);
            stored_member(layout, union, code, at + offset)
        }
        Shape::One(Kind::Code(union)) => {
            let code = UnionCode {
                union,
                value_slot: slot as u16 + 1,
                required: is_first_required(later),
                present: is_stored(bytes, at, vtable_at, slot + 1),
            };
            Stored::Code(code, at + offset)
        }
        Shape::One(Kind::Scalar(base)) => Stored::Number(base, at + offset),
        Shape::One(Kind::Enum(values)) => Stored::Number(layout.base_of(values), at + offset),
        Shape::One(Kind::Struct(structure)) => Stored::Fixed(structure, at + offset),
    }
}
