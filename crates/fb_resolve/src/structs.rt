//! Fields and alignments of structs.
ghost use Rattle.std.specs.Prelude.{◌≡◌, ◌≤◌, ℕ, List, IfOk, Some, map};
ghost use Rattle.std.specs.Option.{option_map_or};
ghost use Rattle.fb_schema.specs.Alignments.{base_size};
ghost use Rattle.fb_schema.specs.Seen.{field_seen};
ghost use Rattle.fb_resolve.specs.StructsRead.{align_in, natural_align, forced_align};
ghost use Rattle.fb_resolve.specs.StructsRead.{natural_of_type, align_of_type, parts_from};
ghost use Rattle.fb_resolve.specs.SlotsRead.{shape_of};
ghost use Rattle.fb_resolve.specs.Outline.{TypeRead};

use crate::attributes::is_alignment;
use crate::meanings::Meaning;
use crate::outline::Outline;
use crate::resolved::{ResolvedDecl, ResolvedField, ResolvedType};
use fb_schema::{Base, FieldInfo, Kind, Shape, TypeId};
use fb_syntax::FieldType;
use std::alloc::{AllocError, Global};

/// The shape of a field of this type; a type at fault stands as a text.
pub(crate) fn shape_of(kind: &FieldType<'_>, meaning: Meaning) -> Shape
    ensures { result ≡ shape_of kind.now meaning }
{
    let meant = match meaning {
        Meaning::Known(kind) => kind,
        Meaning::Float | Meaning::Unknown => Kind::Text,
    };
    match kind {
        FieldType::One(_) => Shape::One(meant),
        FieldType::Many(_, _) => Shape::Many(meant),
    }
}

/// The alignment that a field of a struct needs; 0 for a type at fault.
#[tactic(auto, unfolding(crate::specs::StructsRead::align_in))]
fn align_in(outline: &Outline<'_, '_>, lower: &[u16], resolved: &ResolvedField<'_, '_>) -> u16
    ensures { result ≡ align_in outline.now.types lower.now resolved.now }
{
    let field = resolved.field;
    match (&field.kind, resolved.meaning) {
        (FieldType::One(_), Meaning::Known(Kind::Scalar(base))) => base.size(),
        (FieldType::One(_), Meaning::Known(Kind::Enum(TypeId(number)))) => {
            let base = outline.names.underlying_at(number as usize);
            base.map_or(0, Base::size)
        }
        (FieldType::One(_), Meaning::Known(Kind::Struct(TypeId(number)))) => {
            lower.get(number as usize).copied().unwrap_or(0)
        }
        _ => 0,
    }
}

/// The alignment that the integer of a `force_align` names, if it is a power of two from the least
/// one to 256.
#[tactic(auto, unfolding(crate::specs::StructsRead::forced_align))]
pub fn forced_align(least: u16, number: Option<i128>) -> Option<u16>
    ensures { result ≡ forced_align least number }
{
    let number = number?;
    if is_alignment(least, number) {
        u16::try_from(number).ok()
    } else {
        None
    }
}

/// The natural alignment of a type: the greatest that its fields need if it is a struct, where these
/// are the alignments of the types before it; 0 of another type.
#[tactic(auto, unfolding(crate::specs::StructsRead::natural_align))]
pub fn natural_of_type(
    outline: &Outline<'_, '_>,
    lower: &[u16],
    resolved: &ResolvedType<'_, '_, '_>,
) -> u16
    ensures { result ≡ natural_of_type outline.now.types lower.now resolved.now }
{
    let ResolvedDecl::Struct(table) = &resolved.declaration else {
        return 0;
    };
    let mut natural = 0;
    for field in table.fields.as_slice() {
        natural = natural.max(align_in(outline, lower, field));
    }
    natural
}

/// The alignment of a type of this natural one, 0 of what is no struct.
#[tactic(auto, unfolding(crate::specs::StructsRead::align_of_type))]
pub fn align_of_type(natural: u16, resolved: &ResolvedType<'_, '_, '_>) -> u16
    ensures { (types : List TypeRead) (lower : List ℕ)
        → natural_of_type types lower resolved.now ≡ natural
        → result ≡ align_of_type types lower resolved.now }
{
    match &resolved.declaration {
        ResolvedDecl::Struct(table) => forced_align(natural, table.force_align).unwrap_or(natural),
        _ => 0,
    }
}

/// The fields of a struct with their numbers. The only error is a refused allocation.
#[tactic(auto, unfolding(crate::specs::StructsRead::parts_from))]
pub fn parts_read(
    alloc: Global,
    fields: &[ResolvedField<'_, '_>],
) -> Result<Vec<FieldInfo>, AllocError>
    ensures { IfOk result (λ v. map field_seen v.items ≡ parts_from 0 fields.now) }
{
    let mut parts = Vec::with_capacity(alloc, fields.len())?;
    for (number, resolved) in fields.iter().enumerate() {
        let field = resolved.field;
        parts.push_reserved(FieldInfo {
            name: String::from_str(alloc, field.name.text)?,
            shape: shape_of(&field.kind, resolved.meaning),
            default: 0,
            optional: false,
            required: false,
            deprecated: false,
            slot: number as u64,
        });
    }
    Ok(parts)
}
