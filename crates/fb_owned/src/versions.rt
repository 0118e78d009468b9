//! Two layouts of which the new one follows the old, and the numbers that old types have in the new one.
ghost use Rattle.std.specs.Prelude.{◌≡◌, IfOk, unwrap_or};
ghost use Rattle.fb_conform.specs.Twins.{twin, to_new};
ghost use Rattle.fb_owned.specs.NewNumbers.{ListsNewNumbers};

use fb_conform::twin_of;
use fb_layout::Layout;
use fb_schema::{Schema, TypeId};
use std::alloc::{AllocError, Global};

/// The number that an old type has in the new schema, 0 where it is gone.
fn number_in_new(old: &Schema, new: &Schema, type_id: TypeId) -> TypeId
    ensures { result.0 ≡ unwrap_or (twin old.now new.now type_id.0) 0 }
{
    twin_of(old, new, type_id).unwrap_or(TypeId(0))
}

/// For each old type its number in the new schema, looked up once.
pub(crate) fn new_numbers(
    alloc: Global,
    old: &Layout,
    new: &Layout,
) -> Result<Vec<TypeId>, AllocError>
    ensures { IfOk result (λ numbers. ListsNewNumbers old.now new.now numbers.items) }
{
    let was = old.schema();
    let is = new.schema();
    let types = was.types().len();
    let mut numbers = Vec::with_capacity(alloc, types)?;
    for i in 0..types {
        numbers.push(number_in_new(was, is, TypeId(i as u64)))?;
    }
    Ok(numbers)
}

/// Two layouts of which the new one follows the old, and each old type's new number.
#[derive(Clone, Copy)]
pub(crate) struct Versions<'a> {
    pub before: &'a Layout,
    pub after: &'a Layout,
    pub numbers: &'a [TypeId],
    ghost listed: { ListsNewNumbers before.now after.now numbers.now },
}

impl Versions<'_> {
    /// The number that an old type has in the new schema, 0 where it is gone.
    pub(crate) fn new_number(self, type_id: TypeId) -> TypeId
        ensures { result.0 ≡ to_new self.entry.before.now self.entry.after.now type_id.0 }
    {
        self.numbers
            .get(type_id.0 as usize)
            .copied()
            .unwrap_or(TypeId(0))
    }
}
