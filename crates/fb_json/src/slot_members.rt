//! The members of a table by its slots, or of a struct by its fields.
ghost use Rattle.std.specs.Prelude.{◌≡◌, ◌<◌, ◌||◌, [], None, Some, length, map, option_copied, option_map};
ghost use Rattle.std.specs.Prelude.{replicate, set, slice_get, IfOk};
ghost use Rattle.serde_json.specs.View.{members_view};
ghost use Rattle.fb_schema.specs.Schema.{body_at};
ghost use Rattle.fb_schema.specs.Seen.{field_seen};
ghost use Rattle.fb_schema.specs.Found.{field_named};
ghost use Rattle.fb_json.specs.Meant.{if_known, names_known, type_place};
ghost use Rattle.fb_json.specs.Outcome.{Gives};
ghost use Rattle.fb_json.specs.SlotMembers.{AreFieldsOf, AreMembersOf};

use crate::context::JsonContext;
use crate::faults::{JsonFault, Place};
use crate::members::is_allowed;
use crate::numbered_members::NumberedMembers;
use fb_schema::{FEW_NAMES, FieldInfo, Schema, TypeId, field_among};
use serde_json::{Map, Value as Json};
use std::alloc::{AllocError, Global};
use std::marker::Model;

/// The members of a table by its slots, or of a struct by its fields. Those of few slots stand in places that take no
/// memory.
#[derive(Drop)]
pub struct SlotMembers<'t> {
    slots: usize,
    // The places beyond the slots have no member.
    few: [Option<&'t Json>; 16],
    // Those of more slots.
    many: NumberedMembers<'t>,
}

impl<'t> Model for SlotMembers<'t> {
    ghost use Rattle.std.specs.Prelude.{List, Option};
    ghost use Rattle.std.specs.Borrow.{Bor};
    ghost use Rattle.std.specs.Coded.{codes};
    ghost use Rattle.serde_json.specs.declared.value.Value.{Value as Tree};
    ghost use Rattle.serde_json.specs.contracts.value.Value as json;
    ghost use Rattle.fb_json.specs.SlotMembers.{by_slot, AreFew};

    ghost Value = { List (Option (Bor Tree)) };

    ghost coded = { Prim.hlevel (codes, json.the_row.coded) };

    ghost view = { λ s. by_slot s.slots s.few s.many };

    ghost invariant = { λ s. AreFew s.slots s.few };
}

impl<'t> SlotMembers<'t> {
    /// No slots.
    pub fn new(alloc: Global) -> SlotMembers<'t>
        ensures none { result ≡ [] }
    {
        SlotMembers {
            slots: 0,
            few: [None; 16],
            many: NumberedMembers::new(alloc),
        }
    }

    /// The member of a slot, if it has one.
    #[inline(always)]
    pub fn get(&self, slot: usize) -> Option<&'t Json>
        requires within { slot < length self.now }
        ensures is { slice_get self.now slot ≡ Some result }
    {
        if self.slots <= FEW_NAMES {
            let few = &self.few[..];
            return few[slot];
        }
        self.many.get(slot)
    }

    /// So many slots without a member; of more than a few, also memory for so many members.
    fn begin(&mut self, alloc: Global, slots: usize, members: usize) -> Result<(), AllocError>
        ensures { IfOk result (λ done. self.new ≡ replicate slots None) }
    {
        if self.slots != 0 {
            self.few = [None; 16];
        }
        self.slots = slots;
        if slots > FEW_NAMES {
            self.many.begin(alloc, slots, members)?;
        }
        Ok(())
    }

    /// Puts a member at its slot, where there is one.
    #[inline(always)]
    fn put(&mut self, slot: usize, tree: &'t Json) -> Result<(), AllocError>
        ensures { IfOk result (λ done. self.new ≡ set self.old slot (Some tree.entry)) }
    {
        if self.slots > FEW_NAMES {
            return self.many.put(slot, tree);
        }
        if slot < self.slots {
            let few = &mut self.few[..];
            few[slot] = Some(tree);
        }
        Ok(())
    }
}

/// The field of a table or struct that has a name. The names of few slots are compared one after another.
#[inline(always)]
fn field_of<'s>(
    schema: &'s Schema,
    owner: TypeId,
    slots: &'s [FieldInfo],
    name: &str,
) -> Option<&'s FieldInfo>
    requires { AreFieldsOf (map field_seen slots.now) (body_at schema.now owner.0) }
    ensures { option_map field_seen (option_copied result)
        ≡ field_named (body_at schema.now owner.0) name.now }
{
    if slots.is_empty() || slots.len() > FEW_NAMES {
        return schema.field_by_name(owner, name);
    }
    field_among(slots, name)
}

/// Puts each member of a table or struct at its slot, where each has the name of a field in use or any name is let
/// through.
fn put_members<'t>(
    source: JsonContext,
    owner: TypeId,
    slots: &[FieldInfo],
    members: &'t Map<String, Json>,
    found: &mut SlotMembers<'t>,
) -> Result<(), JsonFault>
    requires slots { AreFieldsOf (map field_seen slots.now) (body_at source.layout.now.schema owner.0) }
    requires empty { found.old ≡ replicate (length slots.now) None }
    ensures members { IfOk result (λ done. AreMembersOf found.new
        (map field_seen slots.now) (members_view members.now.entries)) }
    ensures known { let body = body_at source.entry.layout.now.schema owner.0 in
        Gives (λ done. tt) result (if_known
        (source.entry.unknown || names_known body (members_view members.now.entries))
        (type_place owner.0)) }
{
    let schema = source.layout.schema();
    for (name, tree) in members {
        let field = field_of(schema, owner, slots, name.as_str());
        if !is_allowed(source.unknown, field) {
            return Err(JsonFault::UnknownMember(Place { owner, slot: None }));
        }
        let Some(field) = field else {
            continue;
        };
        found.put(field.slot as usize, tree)?;
    }
    Ok(())
}

/// Finds the member of each slot of a table, or of each field of a struct, where each member has the name of a field in
/// use or any name is let through. Each member's name is looked up once, so that a slot without a member costs no
/// search. What was found before is forgotten.
pub fn members_by_slot<'t>(
    source: JsonContext,
    owner: TypeId,
    slots: &[FieldInfo],
    members: &'t Map<String, Json>,
    found: &mut SlotMembers<'t>,
) -> Result<(), JsonFault>
    requires { AreFieldsOf (map field_seen slots.now) (body_at source.layout.now.schema owner.0) }
    ensures members { IfOk result (λ done. AreMembersOf found.new
        (map field_seen slots.now) (members_view members.now.entries)) }
    ensures known { let body = body_at source.entry.layout.now.schema owner.0 in
        Gives (λ done. tt) result (if_known
        (source.entry.unknown || names_known body (members_view members.now.entries))
        (type_place owner.0)) }
{
    found.begin(source.alloc, slots.len(), members.len())?;
    put_members(source, owner, slots, members, found)
}
