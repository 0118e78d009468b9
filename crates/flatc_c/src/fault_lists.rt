//! Each fault that the calls report, by its number and at given places.
ghost use Rattle.std.specs.Prelude.{◌≡◌, ◌≢◌, ◌<◌, ◌⊎◌, IfNone, IfSome, unwrap_or};
ghost use Rattle.fb_faults.specs.FaultTable.{number_of, offset_of};
ghost use Rattle.fb_faults.specs.FaultPlaces.{owner_of, slot_of};
ghost use Rattle.fb_faults.specs.declared.faults.ToolFault.{ToolFault};
ghost use Rattle.flatc_c.specs.Faults.{IsReported, IsTold};

use crate::faults::Fault;
use flatc_tool::{
    Breach, BuildFault, JsonFault, LayoutFault, Place, ReadFault, SchemaFault, SchemaTextFault,
    SyntaxFault, TextFault, ToolFault, TypeId,
};

/// The fault of a schema's grammar that has this number.
fn syntax_fault(number: u8, at: u64) -> Option<ToolFault>
    ensures found { IfSome result (λ f. number_of f ≡ number) }
    ensures reported { IfSome result IsReported }
    ensures exact { IfSome result (λ one. (f : ToolFault) → IsReported f → number_of f ≡ number
        → unwrap_or (offset_of f) at ≡ at → f ≡ one) }
    ensures none { IfNone result ((number < 1) ⊎ (7 < number)) }
{
    let fault = match number {
        1 => SyntaxFault::NotUtf8(at),
        2 => SyntaxFault::BadByte(at),
        3 => SyntaxFault::Unterminated(at),
        4 => SyntaxFault::NumberTooBig(at),
        5 => SyntaxFault::Unexpected(at),
        6 => SyntaxFault::NestedVector(at),
        7 => SyntaxFault::Memory,
        _ => return None,
    };
    Some(ToolFault::Schema(SchemaTextFault::Syntax(fault)))
}

/// The fault of declarations that has this number.
fn schema_fault(number: u8, at: u64) -> Option<ToolFault>
    ensures found { IfSome result (λ f. number_of f ≡ number) }
    ensures reported { IfSome result IsReported }
    ensures exact { IfSome result (λ one. (f : ToolFault) → IsReported f → number_of f ≡ number
        → unwrap_or (offset_of f) at ≡ at → f ≡ one) }
    ensures none { IfNone result ((number < 10) ⊎ (23 < number)) }
{
    let fault = match number {
        10 => SchemaFault::DuplicateName(at),
        11 => SchemaFault::UnknownType(at),
        12 => SchemaFault::BadDefault(at),
        13 => SchemaFault::BadIds(at),
        14 => SchemaFault::IncompleteStruct(at),
        15 => SchemaFault::EmptyStruct(at),
        16 => SchemaFault::BadAttribute(at),
        17 => SchemaFault::UnknownAttribute(at),
        18 => SchemaFault::Unsupported(at),
        19 => SchemaFault::BadEnumValue(at),
        20 => SchemaFault::BadMember(at),
        21 => SchemaFault::BadRoot(at),
        22 => SchemaFault::BadIdentifier(at),
        23 => SchemaFault::Memory,
        _ => return None,
    };
    Some(ToolFault::Schema(SchemaTextFault::Schema(fault)))
}

/// The fault of a layout that has this number.
fn layout_fault(number: u8, owner: TypeId) -> Option<ToolFault>
    ensures found { IfSome result (λ f. number_of f ≡ number) }
    ensures reported { IfSome result IsReported }
    ensures exact { IfSome result (λ one. (f : ToolFault) → IsReported f → number_of f ≡ number
        → unwrap_or (owner_of f) owner.0 ≡ owner.0 → f ≡ one) }
    ensures none { IfNone result ((number < 30) ⊎ (32 < number)) }
{
    let fault = match number {
        30 => LayoutFault::StructTooBig(owner),
        31 => LayoutFault::TableTooWide(owner),
        32 => LayoutFault::Memory,
        _ => return None,
    };
    Some(ToolFault::Schema(SchemaTextFault::Layout(fault)))
}

/// The fault of a buffer that has this number.
fn read_fault(number: u8, at: u64, slot: u16) -> Option<ToolFault>
    ensures found { IfSome result (λ f. number_of f ≡ number) }
    ensures reported { IfSome result IsReported }
    ensures exact { IfSome result (λ one. (f : ToolFault) → IsReported f → number_of f ≡ number
        → unwrap_or (offset_of f) at ≡ at → unwrap_or (slot_of f) slot ≡ slot → f ≡ one) }
    ensures none { IfNone result ((number < 50) ⊎ ((number ≡ 61) ⊎ (64 < number))) }
{
    let fault = match number {
        50 => ReadFault::Short(at),
        51 => ReadFault::TooLong(at),
        52 => ReadFault::WrongIdentifier(at),
        53 => ReadFault::Misaligned(at),
        54 => ReadFault::OutOfBounds(at),
        55 => ReadFault::ZeroOffset(at),
        56 => ReadFault::BadVtable(at),
        57 => ReadFault::MissingRequired(at, slot),
        58 => ReadFault::NoTerminator(at),
        59 => ReadFault::BadUtf8(at),
        60 => ReadFault::UnionMismatch(at),
        62 => ReadFault::TooDeep(at),
        63 => ReadFault::TooManyCells(at),
        64 => ReadFault::Memory,
        _ => return None,
    };
    Some(ToolFault::Read(fault))
}

/// The fault of a JSON text that has this number.
fn json_fault(number: u8, place: Place) -> Option<ToolFault>
    ensures found { IfSome result (λ f. number_of f ≡ number) }
    ensures reported { IfSome result IsReported }
    ensures exact { IfSome result (λ one. (f : ToolFault) → IsReported f → number_of f ≡ number
        → unwrap_or (owner_of f) place.owner.0 ≡ place.owner.0 → slot_of f ≡ place.slot → f ≡ one) }
    ensures none { IfNone result ((number < 70) ⊎ (80 < number)) }
{
    let fault = match number {
        70 => JsonFault::WrongShape(place),
        71 => JsonFault::NotWhole(place),
        72 => JsonFault::OutOfRange(place),
        73 => JsonFault::UnknownName(place),
        74 => JsonFault::UnknownMember(place),
        75 => JsonFault::MissingMember(place),
        76 => JsonFault::MissingRequired(place),
        77 => JsonFault::UnionMismatch(place),
        78 => JsonFault::TooDeep(place),
        79 => JsonFault::TooManyCells(place),
        80 => JsonFault::Memory,
        _ => return None,
    };
    Some(ToolFault::Json(fault))
}

/// The breach that has this number.
fn breach(number: u8, owner: TypeId, slot: u16) -> Option<ToolFault>
    ensures found { IfSome result (λ f. number_of f ≡ number) }
    ensures reported { IfSome result IsReported }
    ensures exact { IfSome result (λ one. (f : ToolFault) → IsReported f → number_of f ≡ number
        → unwrap_or (owner_of f) owner.0 ≡ owner.0 → unwrap_or (slot_of f) slot ≡ slot → f ≡ one) }
    ensures none { IfNone result ((number < 90) ⊎ (102 < number)) }
{
    let fault = match number {
        90 => Breach::RootChanged,
        91 => Breach::IdentifierChanged,
        92 => Breach::TypeGone(owner),
        93 => Breach::KindChanged(owner),
        94 => Breach::StructChanged(owner),
        95 => Breach::SlotGone(owner, slot),
        96 => Breach::FieldTypeChanged(owner, slot),
        97 => Breach::DefaultChanged(owner, slot),
        98 => Breach::RequiredChanged(owner, slot),
        99 => Breach::DeprecatedTakenBack(owner, slot),
        100 => Breach::NewRequired(owner, slot),
        101 => Breach::EnumChanged(owner),
        102 => Breach::UnionChanged(owner),
        _ => return None,
    };
    Some(ToolFault::Breach(fault))
}

/// The fault of any other layer that has this number.
fn other_fault(number: u8, place: Place) -> Option<ToolFault>
    ensures found { IfSome result (λ f. number_of f ≡ number) }
    ensures reported { IfSome result IsReported }
    ensures exact { IfSome result (λ one. (f : ToolFault) → IsReported f → number_of f ≡ number
        → unwrap_or (owner_of f) place.owner.0 ≡ place.owner.0 → slot_of f ≡ place.slot → f ≡ one) }
    ensures none { IfNone result ((number ≢ 40) × (number ≢ 41) × (number ≢ 81) × (number ≢ 84)
        × (number ≢ 113) × (number ≢ 114)) }
{
    Some(match number {
        40 => ToolFault::Build(BuildFault::TooBig),
        41 => ToolFault::Build(BuildFault::Memory),
        81 => ToolFault::Text(TextFault::NoMemberName(place)),
        84 => ToolFault::Text(TextFault::Memory),
        113 => ToolFault::BadJson,
        114 => ToolFault::Memory,
        _ => return None,
    })
}

/// The fault that has this number, at the places that it has.
pub(crate) fn fault_at(number: u8, at: u64, place: Place) -> Option<ToolFault>
    ensures found { IfSome result (λ f. number_of f ≡ number) }
    ensures reported { IfSome result IsReported }
    ensures exact { IfSome result (λ one. (f : ToolFault) → IsReported f → number_of f ≡ number
        → unwrap_or (offset_of f) at ≡ at → unwrap_or (owner_of f) place.owner.0 ≡ place.owner.0
        → slot_of f ≡ place.slot → f ≡ one) }
    ensures unknown { IfNone result ((f : ToolFault) → IsReported f → number_of f ≢ number) }
{
    let slot = place.slot.unwrap_or(0);
    match number {
        0..=9 => syntax_fault(number, at),
        10..=29 => schema_fault(number, at),
        30..=39 => layout_fault(number, place.owner),
        50..=69 => read_fault(number, at, slot),
        70..=80 => json_fault(number, place),
        90..=112 => breach(number, place.owner, slot),
        _ => other_fault(number, place),
    }
}

/// The fault that C was told of.
pub(crate) fn fault_of(told_fault: &Fault) -> Option<ToolFault>
    ensures told { IfSome result (IsTold told_fault.now) }
    ensures none { IfNone result ((f : ToolFault) → IsReported f → ¬ IsTold told_fault.now f) }
{
    let place = Place {
        owner: TypeId(told_fault.type_id),
        slot: if told_fault.has_slot {
            Some(told_fault.slot)
        } else {
            None
        },
    };
    let fault = fault_at(told_fault.number, told_fault.offset, place)?;
    if told_fault.tells(fault) {
        Some(fault)
    } else {
        None
    }
}
