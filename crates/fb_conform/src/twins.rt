//! Types of an old schema in a new one.
ghost use Rattle.std.specs.Prelude.{◌≡◌, ◌↔◌, IsTrue, option_map};
ghost use Rattle.fb_conform.specs.Twins.{SameName, twin};

use fb_schema::{Schema, TypeId};

/// Whether two types, each of its own schema, have one full name.
pub(crate) fn same_name(old: &Schema, new: &Schema, was: TypeId, is: TypeId) -> bool
    ensures { IsTrue result ↔ SameName old.now new.now was.0 is.0 }
{
    match (old.name_at(was), new.name_at(is)) {
        (Some(name), Some(other)) => name == other,
        (None, None) => true,
        _ => false,
    }
}

/// The new type that has an old type's full name.
pub fn twin_of(old: &Schema, new: &Schema, type_id: TypeId) -> Option<TypeId>
    ensures { option_map (λ t. t.0) result ≡ twin old.now new.now type_id.0 }
{
    let name = old.name_at(type_id)?;
    new.find(name)
}
