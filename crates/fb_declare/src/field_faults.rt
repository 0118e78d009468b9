//! Fields: where they are at fault.
ghost use Rattle.std.specs.Prelude.{◌≡◌, ◌++◌, List, IfOk};
ghost use Rattle.std.specs.Option.{option_copied};
ghost use Rattle.fb_schema.specs.Schema.{Name};
ghost use Rattle.fb_declare.specs.Faults.{least_of};
ghost use Rattle.fb_declare.specs.NameSet.{is_met, AreMet};
ghost use Rattle.fb_declare.specs.FaultRows.{faults_behind, faults_in_turn, name_again};
ghost use Rattle.fb_declare.specs.FaultRows.{use_faults, misplaced_type, bad_default};
ghost use Rattle.fb_declare.specs.TypeFaults.{names_of_field, attribute_host, field_faults, field_behind};

use crate::attribute_faults::{AttributeHost, metadata_fault};
use crate::faults::{SchemaFault, earlier_fault, fault_if};
use crate::name_set::NameSet;
use fb_resolve::{Given, Meaning, ResolvedField, type_name};
use fb_schema::Kind;
use fb_syntax::{DefaultValue, FieldType};
use std::alloc::{AllocError, Global};

/// What a field is of: a table, or the struct of a number.
#[derive(Clone, Copy, Drop)]
pub(crate) enum FieldHost {
    Table,
    Struct(usize),
}

/// A type that isn't found, or is a float type.
pub(crate) fn use_fault(meaning: Meaning, at: u64) -> Option<SchemaFault>
    ensures { result ≡ least_of (use_faults meaning at) }
{
    match meaning {
        Meaning::Unknown => Some(SchemaFault::UnknownType(at)),
        Meaning::Float => Some(SchemaFault::Unsupported(at)),
        Meaning::Known(_) => None,
    }
}

/// A type that is found, but that a field of such a host may not have.
fn misplaced_type(host: FieldHost, kind: &FieldType<'_>, meaning: Meaning) -> Option<SchemaFault>
    ensures { result ≡ least_of (misplaced_type host kind.now meaning) }
{
    match (host, kind, meaning) {
        (FieldHost::Table, FieldType::Many(_, name), Meaning::Known(Kind::Union(_))) => {
            Some(SchemaFault::Unsupported(name.at()))
        }
        (FieldHost::Table, _, _) => None,
        (FieldHost::Struct(_), FieldType::Many(at, _), _) => Some(SchemaFault::BadMember(*at)),
        (_, FieldType::One(_), Meaning::Known(Kind::Scalar(_) | Kind::Enum(_))) => None,
        (FieldHost::Struct(number), FieldType::One(name), Meaning::Known(Kind::Struct(part))) => {
            let incomplete = SchemaFault::IncompleteStruct(name.at());
            fault_if(number as u64 <= part.0, incomplete)
        }
        (_, FieldType::One(name), Meaning::Known(_)) => Some(SchemaFault::BadMember(name.at())),
        (_, FieldType::One(_), Meaning::Float | Meaning::Unknown) => None,
    }
}

/// The fault of a default that gives nothing.
fn bad_default(default: Option<&DefaultValue<'_>>, given: Given) -> Option<SchemaFault>
    ensures { result ≡ least_of (bad_default (option_copied default.entry) given) }
{
    match (default, given) {
        (Some(DefaultValue::Integer(number)), Given::Wrong) => {
            Some(SchemaFault::BadDefault(number.at()))
        }
        (Some(DefaultValue::Name(name)), Given::Wrong) => Some(SchemaFault::BadDefault(name.at())),
        _ => None,
    }
}

/// What a field is to its attributes: a scalar or enum can't be required.
fn attribute_host(host: FieldHost, kind: &FieldType<'_>, meaning: Meaning) -> AttributeHost
    ensures { result ≡ attribute_host host kind.now meaning }
{
    match (host, kind, meaning) {
        (FieldHost::Struct(_), _, _) => AttributeHost::StructField,
        (_, FieldType::One(_), Meaning::Known(Kind::Scalar(_) | Kind::Enum(_))) =>
            AttributeHost::ScalarField,
        _ => AttributeHost::TableField,
    }
}

/// The fault of a field that has a name met before; its names are met from now on.
fn names_fault<'f>(
    met: &mut NameSet<'f>,
    host: FieldHost,
    resolved: &'f ResolvedField<'_, '_>,
) -> Result<Option<SchemaFault>, AllocError>
    ensures { (before : List Name) → AreMet met.old before → IfOk result (λ f.
        (f ≡ least_of (faults_behind (name_again resolved.now.field.name.at) before
        (names_of_field host resolved.now)))
        × AreMet met.new (before ++ names_of_field host resolved.now)) }
{
    let field = resolved.field;
    let name = &field.name;
    let code_again = match (host, &resolved.code) {
        (FieldHost::Table, Some(code)) => met.meet(code.name.as_str())?,
        _ => false,
    };
    let again = met.meet(name.text)?;
    let fault = SchemaFault::DuplicateName(name.at);
    Ok(earlier_fault(fault_if(code_again, fault), fault_if(again, fault)))
}

/// What else is wrong with a field.
#[tactic(auto, using(crate::proofs::Least::least_of_append))]
fn field_fault(
    alloc: Global,
    declared: &NameSet<'_>,
    host: FieldHost,
    resolved: &ResolvedField<'_, '_>,
) -> Result<Option<SchemaFault>, AllocError>
    ensures { IfOk result (λ f. f ≡ least_of (field_faults (is_met declared.now) host resolved.now)) }
{
    let field = resolved.field;
    let kind = &field.kind;
    let meaning = resolved.meaning;
    let in_use = use_fault(meaning, type_name(kind).at());
    let in_type = earlier_fault(in_use, misplaced_type(host, kind, meaning));
    let given = match host {
        FieldHost::Table => resolved.given,
        // a field of a struct takes no default, whatever it would give
        FieldHost::Struct(_) => Given::Wrong,
    };
    let fault = earlier_fault(in_type, bad_default(field.default.as_ref(), given));
    let of_attributes = attribute_host(host, kind, meaning);
    let attributes = field.attributes.as_slice();
    let metadata = metadata_fault(alloc, declared, of_attributes, attributes)?;
    Ok(earlier_fault(fault, metadata))
}

/// The least fault of the fields of a table or struct. The only error is a refused allocation.
pub(crate) fn fields_fault(
    alloc: Global,
    declared: &NameSet<'_>,
    host: FieldHost,
    fields: &[ResolvedField<'_, '_>],
) -> Result<Option<SchemaFault>, AllocError>
    ensures { IfOk result (λ f. f ≡ least_of
        (faults_in_turn (field_behind (is_met declared.now) host) fields.now)) }
{
    let mut least = None;
    let mut met = NameSet::new(alloc, declared.key(), fields.len())?;
    for field in fields {
        let again = names_fault(&mut met, host, field)?;
        let fault = field_fault(alloc, declared, host, field)?;
        least = earlier_fault(least, earlier_fault(again, fault));
    }
    Ok(least)
}
