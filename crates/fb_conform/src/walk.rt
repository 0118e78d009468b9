//! One walk over two schemas that reports their differences to a hearer, in order.
ghost use Rattle.std.specs.Prelude.{◌≡◌, ◌<◌, ◌+◌, ◌↔◌, [], length, IsTrue, Some, option_map, option_copied};
ghost use Rattle.fb_schema.specs.Seen.{field_seen};
ghost use Rattle.fb_schema.specs.WellDeclared.{IsDeclared};
ghost use Rattle.fb_layout.specs.Laid.{LaidSchema};
ghost use Rattle.fb_conform.specs.Conforms.{Kept};
ghost use Rattle.fb_conform.specs.declared.difference.Difference.TheVariants.{Breach as Broken};
ghost use Rattle.fb_conform.specs.Listed.{Lists, Walks, IsAhead, IsUpTo, IsOfTypesBelow, IsOfSlotsBelow};
ghost use Rattle.fb_conform.specs.Listed.{IsOfNamesBelow, IsAny};
ghost use Rattle.fb_conform.specs.Twins.{SameName, Twins, TableTwins, TableSlot};

use crate::bodies::body_of;
use crate::breaches::Breach;
use crate::difference::Difference;
use crate::hearers::DifferenceHearer;
use crate::kept_fields::{is_required, same_default, same_required, same_type, stays_deprecated};
use crate::members::{has_values, keeps_codes, same_numbers};
use crate::names::{MovedName, is_moved, names_end};
use crate::structs::same_struct;
use crate::twins::{same_name, twin_of};
use fb_layout::Layout;
use fb_schema::{Body, FieldInfo, TypeId};

/// Reports a breach, unless what it is about is kept.
fn report_unless<H: DifferenceHearer>(
    hearer: &mut H,
    kept: bool,
    breach: Breach,
) -> Result<(), H::Error>
    ensures { (A B : LaidSchema) → IsTrue kept ↔ Kept A B breach
        → Lists A B H.wants (IsAhead (Broken breach)) (H.heard hearer.old)
        → Walks A B H.wants H.stops (IsUpTo (Broken breach)) (H.heard hearer.new) result }
{
    if kept {
        return Ok(());
    }
    hearer.hear(Difference::Breach(breach))
}

/// A slot of a table by its number, in both schemas, and the table's type in the old one.
#[derive(Clone, Copy)]
struct OldSlot {
    type_id: TypeId,
    slot: u16,
}

/// Reports the breaches of two fields in one slot.
fn walk_fields<H: DifferenceHearer>(
    hearer: &mut H,
    old: &Layout,
    new: &Layout,
    at: OldSlot,
    was: &FieldInfo,
    is: &FieldInfo,
) -> Result<(), H::Error>
    requires slot { TableSlot old.now.schema new.now.schema at.type_id.0 at.slot
        (Some (field_seen was.now)) (Some (field_seen is.now)) }
    requires before { Lists old.now new.now H.wants (IsOfSlotsBelow at.type_id.0 at.slot) (H.heard hearer.old) }
    ensures { Walks old.now new.now H.wants H.stops (IsOfSlotsBelow at.type_id.0 (at.slot + 1))
        (H.heard hearer.new) result }
{
    let OldSlot { type_id, slot } = at;
    let shape = same_type(old, new, was, is);
    report_unless(hearer, shape, Breach::FieldTypeChanged(type_id, slot))?;
    let default = same_default(was, is);
    report_unless(hearer, default, Breach::DefaultChanged(type_id, slot))?;
    let required = same_required(was, is);
    report_unless(hearer, required, Breach::RequiredChanged(type_id, slot))?;
    let deprecated = stays_deprecated(was, is);
    report_unless(
        hearer,
        deprecated,
        Breach::DeprecatedTakenBack(type_id, slot),
    )
}

/// Reports the breaches of one slot of two tables.
fn walk_slot<H: DifferenceHearer>(
    hearer: &mut H,
    old: &Layout,
    new: &Layout,
    at: OldSlot,
    was: Option<&FieldInfo>,
    is: Option<&FieldInfo>,
) -> Result<(), H::Error>
    requires slot { TableSlot old.now.schema new.now.schema at.type_id.0 at.slot
        (option_map field_seen (option_copied was)) (option_map field_seen (option_copied is)) }
    requires before { Lists old.now new.now H.wants (IsOfSlotsBelow at.type_id.0 at.slot) (H.heard hearer.old) }
    ensures { Walks old.now new.now H.wants H.stops (IsOfSlotsBelow at.type_id.0 (at.slot + 1))
        (H.heard hearer.new) result }
{
    let OldSlot { type_id, slot } = at;
    match (was, is) {
        (Some(was), Some(is)) => walk_fields(hearer, old, new, at, was, is),
        (Some(_), None) => hearer.hear(Difference::Breach(Breach::SlotGone(type_id, slot))),
        (None, Some(is)) => {
            let plain = !is_required(is);
            report_unless(hearer, plain, Breach::NewRequired(type_id, slot))
        }
        (None, None) => Ok(()),
    }
}

/// Reports the breaches of two tables' slots.
fn walk_slots<H: DifferenceHearer>(
    hearer: &mut H,
    old: &Layout,
    new: &Layout,
    type_id: TypeId,
    twin: TypeId,
) -> Result<(), H::Error>
    requires tables { TableTwins old.now.schema new.now.schema type_id.0 twin.0 }
    requires before { Lists old.now new.now H.wants (IsOfTypesBelow type_id.0) (H.heard hearer.old) }
    ensures { Walks old.now new.now H.wants H.stops (IsOfNamesBelow type_id.0 0) (H.heard hearer.new) result }
{
    let was = old.slots_of(type_id);
    let is = new.slots_of(twin);
    for i in 0..was.len().max(is.len()) {
        let at = OldSlot {
            type_id,
            slot: i as u16,
        };
        walk_slot(hearer, old, new, at, was.get(i), is.get(i))?;
    }
    Ok(())
}

/// Reports the breaches of two types of one full name.
fn walk_bodies<H: DifferenceHearer>(
    hearer: &mut H,
    old: &Layout,
    new: &Layout,
    type_id: TypeId,
    twin: TypeId,
) -> Result<(), H::Error>
    requires known { type_id.0 < length old.now.schema.types }
    requires found { twin.0 < length new.now.schema.types }
    requires twins { Twins old.now.schema new.now.schema type_id.0 twin.0 }
    requires before { Lists old.now new.now H.wants (IsOfTypesBelow type_id.0) (H.heard hearer.old) }
    ensures { Walks old.now new.now H.wants H.stops (IsOfNamesBelow type_id.0 0) (H.heard hearer.new) result }
{
    let was = body_of(old, type_id);
    let is = body_of(new, twin);
    match (was, is) {
        (Body::Table(_), Body::Table(_)) => walk_slots(hearer, old, new, type_id, twin),
        (Body::Struct(_, _), Body::Struct(_, _)) => {
            let kept = same_struct(old, new, type_id, twin);
            report_unless(hearer, kept, Breach::StructChanged(type_id))
        }
        (Body::Enum(base, flags, values), Body::Enum(other, marks, _)) => {
            let kept = same_numbers(*base, *flags, *other, *marks) && has_values(new, twin, values);
            report_unless(hearer, kept, Breach::EnumChanged(type_id))
        }
        (Body::Union(members), Body::Union(_)) => {
            let kept = keeps_codes(old, new, twin, members);
            report_unless(hearer, kept, Breach::UnionChanged(type_id))
        }
        _ => hearer.hear(Difference::Breach(Breach::KindChanged(type_id))),
    }
}

/// Reports the names of an old type that are moved.
fn walk_names<H: DifferenceHearer>(
    hearer: &mut H,
    old: &Layout,
    new: &Layout,
    type_id: TypeId,
    twin: TypeId,
) -> Result<(), H::Error>
    requires declared { IsDeclared old.now.schema }
    requires twins { Twins old.now.schema new.now.schema type_id.0 twin.0 }
    requires before { Lists old.now new.now H.wants (IsOfNamesBelow type_id.0 0) (H.heard hearer.old) }
    ensures { Walks old.now new.now H.wants H.stops (IsOfTypesBelow (type_id.0 + 1)) (H.heard hearer.new) result }
{
    for slot in 0..names_end(old, type_id) {
        let place = MovedName { type_id, slot };
        if is_moved(old, new, twin, place) {
            hearer.hear(Difference::Moved(place))?;
        }
    }
    Ok(())
}

/// Reports the breaches of an old type, then its names that are moved.
fn walk_type<H: DifferenceHearer>(
    hearer: &mut H,
    old: &Layout,
    new: &Layout,
    type_id: TypeId,
) -> Result<(), H::Error>
    requires known { type_id.0 < length old.now.schema.types }
    requires before { Lists old.now new.now H.wants (IsOfTypesBelow type_id.0) (H.heard hearer.old) }
    ensures { Walks old.now new.now H.wants H.stops (IsOfTypesBelow (type_id.0 + 1)) (H.heard hearer.new) result }
{
    let Some(twin) = twin_of(old.schema(), new.schema(), type_id) else {
        return hearer.hear(Difference::Breach(Breach::TypeGone(type_id)));
    };
    walk_bodies(hearer, old, new, type_id, twin)?;
    if !H::WANTS_NAMES {
        return Ok(());
    }
    walk_names(hearer, old, new, type_id, twin)
}

/// Whether the roots have one full name.
fn same_root(old: &Layout, new: &Layout) -> bool
    ensures { IsTrue result ↔ SameName old.now.schema new.now.schema
        old.now.schema.root new.now.schema.root }
{
    let was = old.schema();
    let is = new.schema();
    same_name(was, is, was.root(), is.root())
}

/// Whether the schemas have one file identifier, or neither has one.
fn same_identifier(old: &Layout, new: &Layout) -> bool
    ensures { IsTrue result ↔ (new.now.schema.identifier ≡ old.now.schema.identifier) }
{
    new.schema().identifier() == old.schema().identifier()
}

/// Reports the breaches of the root and the identifier.
fn walk_header<H: DifferenceHearer>(
    hearer: &mut H,
    old: &Layout,
    new: &Layout,
) -> Result<(), H::Error>
    requires { H.heard hearer.old ≡ [] }
    ensures { Walks old.now new.now H.wants H.stops (IsOfTypesBelow 0) (H.heard hearer.new) result }
{
    let root = same_root(old, new);
    report_unless(hearer, root, Breach::RootChanged)?;
    let identifier = same_identifier(old, new);
    report_unless(hearer, identifier, Breach::IdentifierChanged)
}

/// Reports each difference that the hearer wants: the root's and the identifier's breaches, then for each old type its
/// breaches by slot and number, and its moved names by slot.
pub(crate) fn walk<H: DifferenceHearer>(
    hearer: &mut H,
    old: &Layout,
    new: &Layout,
) -> Result<(), H::Error>
    requires { H.heard hearer.old ≡ [] }
    ensures { Walks old.now new.now H.wants H.stops IsAny (H.heard hearer.new) result }
{
    walk_header(hearer, old, new)?;
    for i in 0..old.schema().types().len() {
        walk_type(hearer, old, new, TypeId(i as u64))?;
    }
    Ok(())
}
