//! Types: the least of their faults, and what they give.
ghost use Rattle.std.specs.Prelude.{◌≡◌, ℕ, List, IfOk, length, map};
ghost use Rattle.fb_resolve.specs.Outline.{TypeRead};
ghost use Rattle.fb_resolve.specs.StructsRead.{natural_of_type};
ghost use Rattle.fb_declare.specs.Faults.{least_of};
ghost use Rattle.fb_declare.specs.FaultRows.{faults_in_turn};
ghost use Rattle.fb_declare.specs.NameSet.{is_met};
ghost use Rattle.fb_declare.specs.TypeFaults.{type_faults, type_behind};
ghost use Rattle.std.specs.List.{AllZip};
ghost use Rattle.fb_schema.specs.Seen.{body_seen, type_seen};
ghost use Rattle.fb_declare.specs.Declares.{HasBody, IsType, IsBuildable, AreBuildable};

use crate::enum_faults::enum_fault;
use crate::faults::{SchemaFault, earlier_fault, fault_if};
use crate::name_set::NameSet;
use crate::tables::{struct_fault, table_fault};
use crate::unions::{members_read, union_fault};
use fb_resolve::{
    Resolved, ResolvedDecl, ResolvedType, align_of_type, forced_align, is_reserved, name_of_type,
    natural_of_type, parts_read, table_slots, values_over, word_of,
};
use fb_schema::{Base, Body, TypeInfo};
use std::alloc::{AllocError, Global};

/// The least fault of the type of a number and of a natural alignment, where this says whether one
/// before it has its full name.
#[tactic(auto, using(crate::proofs::Least::least_of_append))]
fn type_fault(
    alloc: Global,
    declared: &NameSet<'_>,
    number: usize,
    natural: u16,
    again: bool,
    resolved: &ResolvedType<'_, '_, '_>,
) -> Result<Option<SchemaFault>, AllocError>
    ensures { (types : List TypeRead) (lower : List ℕ) → length lower ≡ number
        → natural_of_type types lower resolved.now ≡ natural
        → IfOk result (λ f. f ≡ least_of
        (type_faults types (is_met declared.now) lower again resolved.now)) }
{
    let read = resolved.read;
    let name = word_of(read.declaration);
    let is_taken = again || is_reserved(name.text);
    let bad_name = fault_if(is_taken, SchemaFault::DuplicateName(name.at));
    let fault = match &resolved.declaration {
        ResolvedDecl::Table(table) => table_fault(alloc, declared, table),
        ResolvedDecl::Struct(table) => struct_fault(alloc, declared, number, natural, table),
        ResolvedDecl::Enum(resolved) => enum_fault(alloc, declared, resolved),
        ResolvedDecl::Union(union) => union_fault(alloc, declared, union),
    }?;
    Ok(earlier_fault(bad_name, fault))
}

/// The least fault of the types. The only error is a refused allocation.
pub(crate) fn types_fault(
    alloc: Global,
    declared: &NameSet<'_>,
    resolved: &Resolved<'_, '_, '_>,
) -> Result<Option<SchemaFault>, AllocError>
    ensures { IfOk result (λ f. f ≡ least_of
        (faults_in_turn (type_behind resolved.now.outline.now.types (is_met declared.now))
        resolved.now.types.items)) }
{
    let outline = resolved.outline;
    let repeats = resolved.repeats;
    let types = resolved.types.as_slice();
    let mut least = None;
    let mut lower = Vec::with_capacity(alloc, types.len())?;
    for (number, read) in types.iter().enumerate() {
        let natural = natural_of_type(outline, lower.as_slice(), read);
        let fault = type_fault(alloc, declared, number, natural, repeats[number], read)?;
        least = earlier_fault(least, fault);
        lower.push_reserved(align_of_type(natural, read));
    }
    Ok(least)
}

fn body_of(alloc: Global, declaration: ResolvedDecl<'_, '_, '_>) -> Result<Body, AllocError>
    requires { IsBuildable declaration }
    ensures { IfOk result (λ b. HasBody declaration.entry (body_seen b)) }
{
    match declaration {
        ResolvedDecl::Table(table) => Ok(Body::Table(table_slots(alloc, table)?)),
        ResolvedDecl::Struct(table) => {
            let parts = parts_read(alloc, table.fields.as_slice())?;
            Ok(Body::Struct(parts, forced_align(0, table.force_align)))
        }
        ResolvedDecl::Enum(resolved) => {
            let values = resolved.values;
            let flags = values.bit_flags;
            let named = values_over(alloc, values.base, flags, values.values.as_slice())?;
            Ok(Body::Enum(values.base.unwrap_or(Base::U8), flags, named))
        }
        ResolvedDecl::Union(union) => Ok(Body::Union(members_read(alloc, union.members)?)),
    }
}

fn type_of(alloc: Global, resolved: ResolvedType<'_, '_, '_>) -> Result<TypeInfo, AllocError>
    requires { IsBuildable resolved.declaration }
    ensures { IfOk result (λ t. IsType resolved.entry (type_seen t)) }
{
    let name = name_of_type(alloc, resolved.read)?;
    let body = body_of(alloc, resolved.declaration)?;
    Ok(TypeInfo { name, body })
}

/// The types that the declarations give. The only error is a refused allocation.
pub(crate) fn types_of(
    alloc: Global,
    resolved: Vec<ResolvedType<'_, '_, '_>>,
) -> Result<Vec<TypeInfo>, AllocError>
    requires { AreBuildable resolved.items }
    ensures { IfOk result (λ v. AllZip IsType resolved.entry.items (map type_seen v.items)) }
{
    let mut made = Vec::with_capacity(alloc, resolved.len())?;
    for read in resolved {
        made.push_reserved(type_of(alloc, read)?);
    }
    Ok(made)
}
