//! Numbers and structs, for who reads a tree part by part.
ghost use Rattle.std.specs.Prelude.{◌≡◌, ◌≢◌, ℕ, None, true, IfOk, IfSome, OnOk};
ghost use Rattle.serde_json.specs.View.{view as tree_view};
ghost use Rattle.fb_schema.specs.declared.kinds.Base.{Base};
ghost use Rattle.fb_schema.specs.declared.kinds.Kind.TheVariants.{Struct};
ghost use Rattle.fb_schema.specs.declared.kinds.Shape.TheVariants.{One};
ghost use Rattle.fb_layout.specs.Laid.{scalar_kind, stored_kind, stored_shape};
ghost use Rattle.fb_value.specs.Counts.{is_whole};
ghost use Rattle.fb_value.specs.Datum.{a_number, a_struct};
ghost use Rattle.fb_value.specs.Fits.{Fits};
ghost use Rattle.fb_value.specs.View.{parts_view};
ghost use Rattle.fb_json.specs.FaultPaths.{front_of, rest_of, tree_spot};
ghost use Rattle.fb_json.specs.Meant.{meant};
ghost use Rattle.fb_json.specs.Outcome.{Gives};

use crate::context::JsonContext;
use crate::faults::{JsonFault, Place};
use crate::room::Room;
use crate::scalars::{enum_of, scalar_of};
use crate::structs::struct_of;
use crate::trail::JsonTrail;
use fb_layout::layout_is_well_made;
use fb_schema::{Kind, TypeId};
use fb_value::Value;
use serde_json::Value as Json;

/// The parts of the struct that a tree means are left in `parts`, and the cells that are left are returned.
pub fn struct_parts(
    source: JsonContext,
    tree: &Json,
    owner: TypeId,
    place: Place,
    room: Room,
    parts: &mut Vec<Value>,
) -> Result<u32, JsonFault>
    ensures gives { Gives (λ rest. (a_struct (parts_view parts.new.items), rest)) result
        (meant source.entry.layout.now source.entry.unknown (tree_view tree.now) (One (Struct owner))
        place room.levels room.left) }
    ensures fits { let L = source.entry.layout.now in
        OnOk result (Fits L (stored_shape L.schema (One (Struct owner))) (a_struct (parts_view parts.new.items))) }
    ensures whole { OnOk result (is_whole (a_struct (parts_view parts.new.items)) ≡ true) }
{
    layout_is_well_made(source.layout);
    parts.clear();
    let Some(members) = tree.as_object() else {
        return Err(JsonFault::WrongShape(place));
    };
    let left = struct_of(source, &mut JsonTrail::none(), members, owner, room, parts)?;
    Ok(left)
}

/// The number that a tree means as an element of a vector of numbers: `None` where the kind isn't one of numbers.
#[inline(always)]
pub fn number_of(
    source: JsonContext,
    tree: &Json,
    kind: Kind,
    place: Place,
) -> Option<Result<i128, JsonFault>>
    ensures gives { IfSome result (λ read. (levels left : ℕ) → Gives (λ n. (a_number n, left)) read
        (meant source.entry.layout.now source.entry.unknown (tree_view tree.now) (One kind) place levels left)) }
    ensures fits { let L = source.entry.layout.now in IfSome result (λ read. IfOk read (λ n.
        Fits L (stored_shape L.schema (One kind)) (a_number n))) }
    ensures none { result ≡ None → (base : Base)
        → stored_kind source.entry.layout.now.schema kind ≢ scalar_kind base }
    ensures front { let L = source.entry.layout.now in IfSome result (λ read. (levels left : ℕ)
        → front_of L source.entry.unknown (tree_spot (tree_view tree.now) (One kind) place levels left)
        ≡ rest_of (meant L source.entry.unknown (tree_view tree.now) (One kind) place levels left)) }
{
    layout_is_well_made(source.layout);
    match kind {
        Kind::Scalar(base) => Some(scalar_of(base, tree, place)),
        Kind::Enum(enumeration) => Some(enum_of(source.layout, enumeration, tree, place)),
        _ => None,
    }
}
