//! What is wrong with attributes, and the places of these.
ghost use Rattle.std.specs.Prelude.{◌≡◌, IfOk};
ghost use Rattle.std.specs.Option.{option_copied};
ghost use Rattle.fb_declare.specs.AttributeFaults.{may_stand, attribute_faults, metadata_faults};
ghost use Rattle.fb_declare.specs.Faults.{least_of};
ghost use Rattle.fb_declare.specs.NameSet.{is_met};

use crate::faults::{SchemaFault, earlier_fault, fault_if};
use crate::name_set::NameSet;
use fb_resolve::{is_alignment, is_left_out};
use fb_syntax::{Attribute, AttributeValue, BuiltInAttribute};
use std::alloc::{AllocError, Global};

/// What an attribute stands on, as far as that decides whether it may. A struct has the alignment
/// that its fields need; a field of a table that can't be required is a `ScalarField`.
#[derive(Clone, Copy, Drop)]
pub(crate) enum AttributeHost {
    Table,
    Struct(u16),
    Enum,
    SignedEnum,
    Union,
    ScalarField,
    TableField,
    StructField,
}

/// Whether a built-in attribute may stand on a host with a value.
fn may_stand(
    host: AttributeHost,
    built_in: BuiltInAttribute,
    value: Option<&AttributeValue<'_>>,
) -> bool
    ensures { result ≡ may_stand host built_in (option_copied value.entry) }
{
    let is_table_field = matches!(host, AttributeHost::ScalarField | AttributeHost::TableField);
    match (built_in, value) {
        (BuiltInAttribute::Id, Some(AttributeValue::Integer(_))) => is_table_field,
        (BuiltInAttribute::Deprecated, None) => is_table_field,
        (BuiltInAttribute::Required, None) => matches!(host, AttributeHost::TableField),
        (BuiltInAttribute::BitFlags, None) => matches!(host, AttributeHost::Enum),
        (BuiltInAttribute::OriginalOrder, None) => {
            matches!(host, AttributeHost::Table | AttributeHost::Struct(_))
        }
        (BuiltInAttribute::ForceAlign, Some(AttributeValue::Integer(number))) => match host {
            AttributeHost::Struct(natural) => is_alignment(natural, number.value()),
            _ => false,
        },
        _ => false,
    }
}

/// What is wrong with an attribute, where this says whether one before it has its name.
fn attribute_fault(
    declared: &NameSet<'_>,
    host: AttributeHost,
    again: bool,
    attribute: &Attribute<'_>,
) -> Option<SchemaFault>
    ensures { result ≡ least_of
        (attribute_faults (is_met declared.now) host again attribute.now) }
{
    let at = attribute.name.at;
    let name = attribute.name.text;
    let built_in = attribute.built_in;
    let is_field = matches!(
        host,
        AttributeHost::ScalarField | AttributeHost::TableField | AttributeHost::StructField
    );
    let forces_field = is_field && matches!(built_in, Some(BuiltInAttribute::ForceAlign));
    if is_left_out(name) || forces_field {
        return Some(SchemaFault::Unsupported(at));
    }
    match built_in {
        Some(built_in) => {
            let is_bad = !may_stand(host, built_in, attribute.value.as_ref()) || again;
            fault_if(is_bad, SchemaFault::BadAttribute(at))
        }
        None => fault_if(!declared.contains(name), SchemaFault::UnknownAttribute(at)),
    }
}

/// The least fault of the attributes at a host. The only error is a refused allocation.
pub(crate) fn metadata_fault(
    alloc: Global,
    declared: &NameSet<'_>,
    host: AttributeHost,
    attributes: &[Attribute<'_>],
) -> Result<Option<SchemaFault>, AllocError>
    ensures { IfOk result (λ f. f ≡ least_of
        (metadata_faults (is_met declared.now) host attributes.now)) }
{
    match attributes {
        [] => Ok(None),
        [one] => Ok(attribute_fault(declared, host, false, one)),
        [one, other] => {
            let again = other.name.text == one.name.text;
            let first = attribute_fault(declared, host, false, one);
            Ok(earlier_fault(first, attribute_fault(declared, host, again, other)))
        }
        _ => fault_of_many(alloc, declared, host, attributes),
    }
}

/// The least fault of any number of attributes. The only error is a refused allocation.
fn fault_of_many(
    alloc: Global,
    declared: &NameSet<'_>,
    host: AttributeHost,
    attributes: &[Attribute<'_>],
) -> Result<Option<SchemaFault>, AllocError>
    ensures { IfOk result (λ f. f ≡ least_of
        (metadata_faults (is_met declared.now) host attributes.now)) }
{
    let mut least = None;
    let mut met = NameSet::new(alloc, declared.key(), attributes.len())?;
    for attribute in attributes {
        let name = &attribute.name;
        let again = met.meet(name.text)?;
        least = earlier_fault(least, attribute_fault(declared, host, again, attribute));
    }
    Ok(least)
}
