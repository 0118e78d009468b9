//! The faults of an enum: its values' numbers differ, and are within its underlying type.
ghost use Rattle.std.specs.Prelude.{◌≡◌, ◌||◌, IfOk};
ghost use Rattle.fb_declare.specs.Faults.{least_of};
ghost use Rattle.fb_declare.specs.EnumFaults.{underlying_faults, is_out_of_range, value_faults};
ghost use Rattle.fb_declare.specs.EnumFaults.{host_of_enum, enum_faults};
ghost use Rattle.fb_declare.specs.FaultRows.{faults_in_turn};
ghost use Rattle.fb_declare.specs.NameSet.{is_met};

use crate::attribute_faults::{AttributeHost, metadata_fault};
use crate::faults::{SchemaFault, earlier_fault, fault_if};
use crate::name_set::NameSet;
use fb_index::HashKey;
use fb_resolve::{EnumValues, Meaning, ResolvedEnum, integer_type, may_be_written};
use fb_schema::Base;
use indexmap::IndexSet;
use std::alloc::{AllocError, Global};

/// The fault of the type under an enum.
fn underlying_fault(meaning: Meaning, at: u64) -> Option<SchemaFault>
    ensures { result ≡ least_of (underlying_faults meaning at) }
{
    match meaning {
        Meaning::Unknown => Some(SchemaFault::UnknownType(at)),
        _ if integer_type(meaning).is_none() => Some(SchemaFault::Unsupported(at)),
        _ => None,
    }
}

/// What an enum over a type is to its attributes.
fn host_of_enum(base: Option<Base>) -> AttributeHost
    ensures { result ≡ host_of_enum base }
{
    match base {
        Some(Base::U8 | Base::U16 | Base::U32 | Base::U64) | None => AttributeHost::Enum,
        Some(_) => AttributeHost::SignedEnum,
    }
}

/// Whether a number is out of range, or again that of a value before.
fn is_bad_number(base: Option<Base>, flags: bool, number: i128, again: bool) -> bool
    ensures { result ≡ (is_out_of_range base flags number || again) }
{
    base.is_some_and(|base| !may_be_written(base, flags, number)) || again
}

/// The least fault of an enum's values. The only error is a refused allocation.
fn values_fault(
    alloc: Global,
    key: HashKey,
    of_enum: &EnumValues<'_, '_>,
) -> Result<Option<SchemaFault>, AllocError>
    ensures { IfOk result (λ f. f ≡ least_of
        (faults_in_turn (value_faults of_enum.now.base of_enum.now.bit_flags) of_enum.now.values)) }
{
    let base = of_enum.base;
    let flags = of_enum.bit_flags;
    let values = of_enum.values.as_slice();
    let repeats = of_enum.repeats.as_slice();
    let mut least = None;
    let mut numbers = IndexSet::with_capacity_and_hasher(alloc, values.len(), key)?;
    for (place, resolved) in values.iter().enumerate() {
        let name = &resolved.value.name;
        let is_new = numbers.insert(resolved.number)?;
        let is_bad = is_bad_number(base, flags, resolved.number, !is_new);
        let bad_name = fault_if(repeats[place], SchemaFault::DuplicateName(name.at));
        let bad_number = fault_if(is_bad, SchemaFault::BadEnumValue(name.at));
        least = earlier_fault(least, earlier_fault(bad_name, bad_number));
    }
    Ok(least)
}

/// The least fault of an enum. The only error is a refused allocation.
#[tactic(auto, using(crate::proofs::Least::least_of_append))]
pub(crate) fn enum_fault(
    alloc: Global,
    declared: &NameSet<'_>,
    resolved: &ResolvedEnum<'_, '_, '_>,
) -> Result<Option<SchemaFault>, AllocError>
    ensures { IfOk result (λ f. f ≡ least_of (enum_faults (is_met declared.now) resolved.now)) }
{
    let read = resolved.declared;
    let meaning = resolved.underlying;
    let values = resolved.values;
    let under = underlying_fault(meaning, read.underlying.at());
    let host = host_of_enum(values.base);
    let metadata = metadata_fault(alloc, declared, host, read.attributes.as_slice())?;
    let in_values = values_fault(alloc, declared.key(), values)?;
    Ok(earlier_fault(earlier_fault(under, metadata), in_values))
}
