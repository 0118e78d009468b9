//! Which members are printed, and the codes of unions.
ghost use Rattle.std.specs.Prelude.{◌≡◌, ◌||◌, Option, Some, false, map, string_bytes};
ghost use Rattle.fb_schema.specs.Schema.{body_at, members_in};
ghost use Rattle.fb_schema.specs.Seen.{field_seen};
ghost use Rattle.fb_value.specs.Datum.{Datum};
ghost use Rattle.fb_text.specs.Indents.{blanks};
ghost use Rattle.fb_text.specs.Texts.{code_text, has_code, member_name};
ghost use Rattle.fb_text.specs.Printed.{is_entry_printed};
ghost use Rattle.fb_text.specs.Shown.{IsTop};
ghost use Rattle.fb_text.specs.Writes.{Prints};

use crate::indents::Indent;
use crate::lines::{put_member_line, put_name};
use crate::noted::Noted;
use crate::shown::ValueHead;
use fb_schema::{FieldInfo, Kind, Schema, Shape, TypeId};
use std::io::Write;

/// Whether a slot is printed.
pub(crate) fn is_printed(defaults: bool, slot: &FieldInfo, found: ValueHead) -> bool
    ensures { (o : Option Datum) → IsTop found.entry o
        → result ≡ is_entry_printed defaults (field_seen slot.now) o }
{
    match found {
        ValueHead::Absent => false,
        ValueHead::Number(number) => defaults || slot.optional || number != slot.default,
        _ => true,
    }
}

/// The members of a union; none of another type.
fn members_of(schema: &Schema, union: TypeId) -> &[(String, TypeId)]
    ensures { map (λ m. (string_bytes m.0, m.1.0)) result.now
        ≡ members_in (body_at schema.now union.0) }
{
    match schema.types().get(union.0 as usize) {
        Some(info) => info.body.as_union().unwrap_or(&[]),
        None => &[],
    }
}

/// The name of the member that a union's code names; nothing where it names none.
fn member_name(schema: &Schema, union: TypeId, code: u8) -> &str
    ensures { result.now ≡ member_name (body_at schema.now union.0) code }
{
    let Some(at) = code.checked_sub(1) else {
        return "";
    };
    let Some(member) = members_of(schema, union).get(usize::from(at)) else {
        return "";
    };
    member.0.as_str()
}

/// Adds a union's code in front of its member, and says whether there is a member now.
pub(crate) fn put_code<W: Write>(
    out: &mut Noted<W>,
    schema: &Schema,
    indent: &Indent,
    some: bool,
    slot: &FieldInfo,
    found: ValueHead,
) -> bool
    ensures text { (d : Datum) → IsTop found.entry (Some d) → Prints W.contents out.old out.new
        (code_text schema.now (blanks indent.now) some (field_seen slot.now).name slot.now.shape d) }
    ensures some { (d : Datum) → IsTop found.entry (Some d) → result ≡ (some || has_code slot.now.shape d) }
{
    let ValueHead::Member(code) = found else {
        return some;
    };
    let Shape::One(Kind::Union(union)) = slot.shape else {
        return some;
    };
    put_member_line(out, indent, some, slot.name.as_str(), true);
    put_name(out, member_name(schema, union, code));
    true
}
