//! Names that stand for something else in a new schema.
ghost use Rattle.std.specs.Prelude.{ℕ, ◌≡◌, ◌<◌, ◌≤◌, ◌↔◌, length, map, None, IsTrue, IfOk, AllPairs, Contains};
ghost use Rattle.std.specs.Prelude.{option_copied};
ghost use Rattle.fb_schema.specs.Schema.{body_at};
ghost use Rattle.fb_schema.specs.Seen.{field_seen};
ghost use Rattle.fb_schema.specs.Found.{fields_in};
ghost use Rattle.fb_schema.specs.WellDeclared.{IsDeclared};
ghost use Rattle.fb_conform.specs.declared.names.MovedName.{MovedName};
ghost use Rattle.fb_conform.specs.Names.{slot_named, name_in, IsMoved, IsBefore};
ghost use Rattle.fb_conform.specs.Twins.{Twins};

use crate::bodies::body_of;
use crate::walk::walk;
use fb_layout::Layout;
use fb_schema::{Body, FieldInfo, TypeId};
use std::alloc::{AllocError, Global};

/// A name that stands for another field or member in the new schema: where it was in the old one.
#[derive(Clone, Copy, Debug, PartialEq, Eq, Drop)]
pub struct MovedName {
    /// The old type that has it.
    pub type_id: TypeId,
    /// Its slot; in a struct its place from 0 on, in a union its code.
    pub slot: u16,
}

/// What a name stands for in a type: a field's slot or a member's code. `NONE` names no member.
fn slot_named(layout: &Layout, owner: TypeId, name: &str) -> Option<u64>
    ensures { result ≡ slot_named (body_at layout.now.schema owner.0) name.now }
{
    let schema = layout.schema();
    if let Some(field) = schema.field_by_name(owner, name) {
        return Some(field.slot);
    }
    let code = schema.code_of_name(owner, name)?;
    if code == 0 {
        return None;
    }
    Some(u64::from(code))
}

/// The fields of a table or struct, in order; none of another type.
fn fields_of(layout: &Layout, owner: TypeId) -> &[FieldInfo]
    ensures fields { map field_seen result.now ≡ fields_in (body_at layout.now.schema owner.0) }
    ensures few { length result.now ≤ 65535 }
{
    let slots = layout.slots_of(owner);
    if slots.is_empty() {
        return layout.parts_of(owner);
    }
    slots
}

/// The name that a slot, a place in a struct or a union's code has.
fn name_in(layout: &Layout, owner: TypeId, slot: u16) -> Option<&str>
    requires { owner.0 < length layout.now.schema.types }
    ensures { option_copied result ≡ name_in (body_at layout.now.schema owner.0) slot }
{
    let at = usize::from(slot);
    match body_of(layout, owner) {
        Body::Union(members) => Some(members.get(at.checked_sub(1)?)?.0.as_str()),
        _ => Some(fields_of(layout, owner).get(at)?.name.as_str()),
    }
}

/// A number above all that a type's names stand for.
pub(crate) fn names_end(layout: &Layout, owner: TypeId) -> u16
    requires { owner.0 < length layout.now.schema.types }
    ensures { (k : ℕ) → result ≤ k → name_in (body_at layout.now.schema owner.0) k ≡ None }
{
    match body_of(layout, owner) {
        Body::Union(members) => members.len() as u16 + 1,
        _ => fields_of(layout, owner).len() as u16,
    }
}

/// Whether the name in an old place stands for another one in the new type.
pub(crate) fn is_moved(old: &Layout, new: &Layout, twin: TypeId, place: MovedName) -> bool
    requires declared { IsDeclared old.now.schema }
    requires twins { Twins old.now.schema new.now.schema place.type_id.0 twin.0 }
    ensures { IsTrue result ↔ IsMoved old.now new.now place }
{
    let Some(name) = name_in(old, place.type_id, place.slot) else {
        return false;
    };
    match slot_named(new, twin, name) {
        Some(slot) => slot != u64::from(place.slot),
        None => false,
    }
}

/// The names that stand for another field or member in the new schema, which JSON texts and generated code go by.
///
/// Fields that are deprecated count like others. What was renamed in its place isn't moved: its old name is gone. They
/// are listed by the old schema's types, in a type by slot, place or code.
pub fn moved_names(alloc: Global, old: &Layout, new: &Layout) -> Result<Vec<MovedName>, AllocError>
    ensures all { IfOk result (λ list. (m : MovedName) → Contains list.items m ↔ IsMoved old.now new.now m) }
    ensures order { IfOk result (λ list. AllPairs IsBefore list.items) }
{
    let mut found: Vec<MovedName> = Vec::new(alloc);
    walk(&mut found, old, new)?;
    Ok(found)
}
