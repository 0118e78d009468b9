//! The values of two enums, and the members of two unions.
ghost use Rattle.std.specs.Prelude.{ℕ, ◌≡◌, ◌≤◌, ◌↔◌, IsTrue, All, Contains, Some, length, map};
ghost use Rattle.std.specs.Prelude.{string_bytes};
ghost use Rattle.fb_schema.specs.Schema.{body_at, values_in, union_body};
ghost use Rattle.fb_schema.specs.Found.{member_coded};
ghost use Rattle.fb_conform.specs.Conforms.{CodeKept};

use crate::twins::same_name;
use fb_layout::Layout;
use fb_schema::{Base, TypeId};

/// Whether two enums have one underlying type and one `bit_flags` mark.
pub(crate) fn same_numbers(base: Base, flags: bool, other: Base, marks: bool) -> bool
    ensures { IsTrue result ↔ ((other ≡ base) × (marks ≡ flags)) }
{
    other == base && marks == flags
}

/// Whether an enum has a value of this name and number.
fn has_value(layout: &Layout, enumeration: TypeId, value: &(String, i128)) -> bool
    ensures { IsTrue result ↔ Contains (values_in (body_at layout.now.schema enumeration.0))
        (string_bytes value.now.0, value.now.1) }
{
    match layout
        .schema()
        .number_of_name(enumeration, value.0.as_str())
    {
        Some(number) => number == value.1,
        None => false,
    }
}

/// Whether an enum has all of some values.
pub(crate) fn has_values(layout: &Layout, enumeration: TypeId, values: &[(String, i128)]) -> bool
    ensures { IsTrue result ↔ All (Contains (values_in (body_at layout.now.schema enumeration.0)))
        (map (λ v. (string_bytes v.0, v.1)) values.now) }
{
    for value in values {
        if !has_value(layout, enumeration, value) {
            return false;
        }
    }
    true
}

/// Whether a code of the new union names the table of the old one's full name.
fn keeps_code(old: &Layout, new: &Layout, union: TypeId, code: u8, table: TypeId) -> bool
    ensures { IsTrue result ↔ CodeKept old.now.schema new.now.schema (body_at new.now.schema union.0) code table.0 }
{
    match new.schema().member_by_code(union, code) {
        Some(other) => same_name(old.schema(), new.schema(), table, other),
        None => false,
    }
}

/// Whether a union has each of some members' tables under its code.
pub(crate) fn keeps_codes(
    old: &Layout,
    new: &Layout,
    union: TypeId,
    members: &[(String, TypeId)],
) -> bool
    requires { length members.now ≤ 255 }
    ensures { IsTrue result ↔ ((c t : ℕ)
        → member_coded (union_body (map (λ m. (string_bytes m.0, m.1.0)) members.now)) c ≡ Some t
        → CodeKept old.now.schema new.now.schema (body_at new.now.schema union.0) c t) }
{
    for (i, member) in members.iter().enumerate() {
        if !keeps_code(old, new, union, (i + 1) as u8, member.1) {
            return false;
        }
    }
    true
}
