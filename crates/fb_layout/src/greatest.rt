//! The greatest alignment in a schema.
ghost use Rattle.std.specs.Prelude.{◌≡◌, map};
ghost use Rattle.std.specs.Option.{unwrap_or};
ghost use Rattle.fb_schema.specs.Alignments.{greatest_in};
ghost use Rattle.fb_schema.specs.Seen.{field_seen, type_seen};
ghost use Rattle.fb_layout.specs.Laid.{align_of, no_struct, kind_in, stored_shape, stored_kind};
ghost use Rattle.fb_layout.specs.Widths.{slots_align, greatest};
ghost use Rattle.fb_layout.specs.Known.{structs_seen, layout_known};

use crate::extents::{StructSizes, extent_of, kind_in};
use fb_schema::{Body, FieldInfo, Kind, Schema, TypeInfo};

/// The alignment of a kind; 1 for a struct that isn't known.
#[tactic(auto, using(crate::proofs::extents::UnknownStructTakesNothing::align_known))]
fn known_align(schema: &Schema, structs: &[Option<StructSizes>], kind: Kind) -> u16
    ensures { result ≡ align_of (layout_known schema.now (structs_seen structs.now)) (stored_kind schema.now kind) }
{
    match extent_of(schema, structs, kind) {
        Some(extent) => extent.align,
        None => 1,
    }
}

/// The greatest alignment of what slots hold, elements of vectors and deprecated slots included.
fn slots_align(schema: &Schema, structs: &[Option<StructSizes>], slots: &[FieldInfo]) -> u16
    ensures { result
        ≡ greatest_in (map (λ f. align_of (layout_known schema.now (structs_seen structs.now))
        (kind_in (stored_shape schema.now f.shape))) (map field_seen slots.now)) }
{
    let mut greatest = 0;
    for field in slots {
        greatest = known_align(schema, structs, kind_in(field.shape)).max(greatest);
    }
    greatest
}

/// The greatest alignment that the slots of a type need.
fn type_align(schema: &Schema, structs: &[Option<StructSizes>], info: &TypeInfo) -> u16
    ensures { result ≡ slots_align (layout_known schema.now (structs_seen structs.now)) (type_seen info.now) }
{
    match &info.body {
        Body::Table(slots) => slots_align(schema, structs, slots.as_slice()),
        _ => 0,
    }
}

/// The greatest alignment that the slots of all types need.
fn types_align(schema: &Schema, structs: &[Option<StructSizes>]) -> u16
    ensures { result
        ≡ greatest_in (map (slots_align (layout_known schema.now (structs_seen structs.now))) schema.now.types) }
{
    let types = schema.types();
    let mut greatest = 0;
    for info in types {
        greatest = type_align(schema, structs, info).max(greatest);
    }
    greatest
}

/// The greatest alignment of all structs.
fn structs_align(structs: &[Option<StructSizes>]) -> u16
    ensures { result
        ≡ greatest_in (map (λ r. r.align) (map (λ s. unwrap_or s no_struct) (structs_seen structs.now))) }
{
    let mut greatest = 0;
    for sizes in structs {
        let align = sizes.as_ref().map_or(1, |sizes| sizes.align);
        greatest = align.max(greatest);
    }
    greatest
}

/// The greatest of 4 and the alignments of all structs, slots and elements of vectors.
pub(crate) fn greatest(schema: &Schema, structs: &[Option<StructSizes>]) -> u16
    ensures { result ≡ greatest (layout_known schema.now (structs_seen structs.now)) }
{
    structs_align(structs)
        .max(types_align(schema, structs))
        .max(4)
}
