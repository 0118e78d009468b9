//! Tables and structs: what is wrong with one.
ghost use Rattle.std.specs.Prelude.{◌≡◌, ℕ, List, IfOk, length};
ghost use Rattle.fb_resolve.specs.Outline.{TypeRead};
ghost use Rattle.fb_resolve.specs.StructsRead.{natural_align};
ghost use Rattle.fb_declare.specs.Faults.{least_of};
ghost use Rattle.fb_declare.specs.NameSet.{is_met};
ghost use Rattle.fb_declare.specs.TypeFaults.{table_faults, struct_faults};

use crate::attribute_faults::{AttributeHost, metadata_fault};
use crate::faults::{SchemaFault, earlier_fault, fault_if};
use crate::field_faults::{FieldHost, fields_fault};
use crate::name_set::NameSet;
use fb_resolve::{ResolvedStruct, ResolvedTable, wrong_ids};
use std::alloc::{AllocError, Global};

/// The least fault of a table. The only error is a refused allocation.
#[tactic(auto, using(crate::proofs::Least::least_of_append))]
pub(crate) fn table_fault(
    alloc: Global,
    declared: &NameSet<'_>,
    resolved: &ResolvedTable<'_, '_>,
) -> Result<Option<SchemaFault>, AllocError>
    ensures { IfOk result (λ f. f ≡ least_of (table_faults (is_met declared.now) resolved.now)) }
{
    let read = resolved.declared;
    let attributes = read.attributes.as_slice();
    let metadata = metadata_fault(alloc, declared, AttributeHost::Table, attributes)?;
    let ids = fault_if(
        wrong_ids(resolved).is_some(),
        SchemaFault::BadIds(read.name.at),
    );
    let fields = resolved.fields.as_slice();
    let in_fields = fields_fault(alloc, declared, FieldHost::Table, fields)?;
    Ok(earlier_fault(earlier_fault(metadata, ids), in_fields))
}

/// The least fault of the struct of a number, whose fields need this alignment. The only error is a
/// refused allocation.
#[tactic(auto, using(crate::proofs::Least::least_of_append))]
pub(crate) fn struct_fault(
    alloc: Global,
    declared: &NameSet<'_>,
    number: usize,
    natural: u16,
    resolved: &ResolvedStruct<'_, '_>,
) -> Result<Option<SchemaFault>, AllocError>
    ensures { (types : List TypeRead) (lower : List ℕ) → length lower ≡ number
        → natural_align types lower resolved.now.fields ≡ natural
        → IfOk result (λ f. f ≡ least_of
        (struct_faults types (is_met declared.now) lower resolved.now)) }
{
    let read = resolved.declared;
    let fields = resolved.fields.as_slice();
    let host = AttributeHost::Struct(natural);
    let metadata = metadata_fault(alloc, declared, host, read.attributes.as_slice())?;
    let empty = fault_if(fields.is_empty(), SchemaFault::EmptyStruct(read.name.at));
    let in_fields = fields_fault(alloc, declared, FieldHost::Struct(number), fields)?;
    Ok(earlier_fault(earlier_fault(metadata, empty), in_fields))
}
