//! Unions: what is wrong with one, and its members.
ghost use Rattle.std.specs.Prelude.{◌≡◌, List, IfOk, length, map, string_bytes};
ghost use Rattle.std.specs.Str.{bytes_eq};
ghost use Rattle.fb_resolve.specs.MembersRead.{member_read};
ghost use Rattle.fb_resolve.specs.ResolvedFields.{ResolvedMember as Member};
ghost use Rattle.fb_declare.specs.Faults.{least_of};
ghost use Rattle.fb_declare.specs.NameSet.{is_met};
ghost use Rattle.fb_declare.specs.FaultRows.{faults_in_turn, member_faults};
ghost use Rattle.fb_resolve.specs.RepeatedNames.{is_again};
ghost use Rattle.fb_declare.specs.TypeFaults.{union_faults};

use crate::attribute_faults::{AttributeHost, metadata_fault};
use crate::faults::{SchemaFault, earlier_fault, fault_if};
use crate::field_faults::use_fault;
use crate::name_set::NameSet;
use fb_index::HashKey;
use fb_resolve::{ResolvedMember, ResolvedUnion, is_table, member_read};
use fb_schema::TypeId;
use std::alloc::{AllocError, Global};

/// What is wrong with a member with so many before it, where this says whether one of them has its name.
#[tactic(auto, using(crate::proofs::Least::least_of_append))]
fn member_fault(
    number: usize,
    again: bool,
    resolved: &ResolvedMember<'_, '_>,
) -> Option<SchemaFault>
    ensures { (before : List Member) → length before ≡ number
        → is_again bytes_eq (λ m. m.name.bytes) before resolved.now ≡ again
        → result ≡ least_of (member_faults before resolved.now) }
{
    let meaning = resolved.meaning;
    let at = resolved.member.table.at();
    let is_taken = resolved.name.as_str() == "NONE" || again;
    let is_bad = !is_table(meaning) || 255 <= number;
    let bad_name = fault_if(is_taken, SchemaFault::DuplicateName(resolved.name_at));
    let bad_member = fault_if(is_bad, SchemaFault::BadMember(at));
    earlier_fault(earlier_fault(bad_name, use_fault(meaning, at)), bad_member)
}

fn members_fault(
    alloc: Global,
    key: HashKey,
    members: &[ResolvedMember<'_, '_>],
) -> Result<Option<SchemaFault>, AllocError>
    ensures { IfOk result (λ f. f ≡ least_of (faults_in_turn member_faults members.now)) }
{
    let mut least = None;
    let mut met = NameSet::new(alloc, key, members.len())?;
    for (number, member) in members.iter().enumerate() {
        let again = met.meet(member.name.as_str())?;
        least = earlier_fault(least, member_fault(number, again, member));
    }
    Ok(least)
}

/// The least fault of a union. The only error is a refused allocation.
#[tactic(auto, using(crate::proofs::Least::least_of_append))]
pub(crate) fn union_fault(
    alloc: Global,
    declared: &NameSet<'_>,
    resolved: &ResolvedUnion<'_, '_>,
) -> Result<Option<SchemaFault>, AllocError>
    ensures { IfOk result (λ f. f ≡ least_of (union_faults (is_met declared.now) resolved.now)) }
{
    let read = resolved.declared;
    let attributes = read.attributes.as_slice();
    let metadata = metadata_fault(alloc, declared, AttributeHost::Union, attributes)?;
    let in_members = members_fault(alloc, declared.key(), resolved.members.as_slice())?;
    Ok(earlier_fault(metadata, in_members))
}

/// What is read of the members. The only error is a refused allocation.
pub(crate) fn members_read(
    alloc: Global,
    members: Vec<ResolvedMember<'_, '_>>,
) -> Result<Vec<(String, TypeId)>, AllocError>
    ensures { IfOk result (λ v. map (λ m. (string_bytes m.0, m.1.0)) v.items
        ≡ map member_read members.entry.items) }
{
    let mut read = Vec::with_capacity(alloc, members.len())?;
    for member in members {
        read.push_reserved(member_read(alloc, member)?);
    }
    Ok(read)
}
