//! What kinds take where they are stored.
ghost use Rattle.std.specs.Prelude.{◌≡◌, Some, slice_get};
ghost use Rattle.std.specs.Option.{unwrap_or};
ghost use Rattle.fb_schema.specs.Schema.{DeclaredSchema, body_at, base_in};
ghost use Rattle.fb_schema.specs.Alignments.{base_size};
ghost use Rattle.fb_layout.specs.Laid.{no_struct, stored_kind, stored_shape, kind_in};
ghost use Rattle.fb_layout.specs.Known.{structs_seen, struct_extent, extent_of, slot_extent};

use fb_schema::{Base, Kind, Schema, Shape, TypeId};

/// The size and alignment of what is stored, in bytes.
#[derive(Clone, Copy, Drop)]
pub struct Extent {
    pub size: u16,
    pub align: u16,
}

/// What a struct takes: its size and alignment in bytes, and where its fields begin.
#[derive(Drop)]
pub struct StructSizes {
    pub size: u16,
    pub align: u16,
    pub offsets: Vec<u16>,
}

// A string, a vector, a table and a union's value are stored as references.
const REFERENCE: Extent = Extent { size: 4, align: 4 };

/// What a number takes.
fn number_extent(base: Base) -> Extent
    ensures { result ≡ record { size = base_size base; align = base_size base } }
{
    let size = base.size();
    Extent { size, align: size }
}

/// The underlying type of an enum.
pub(crate) fn base_in(schema: &Schema, enumeration: TypeId) -> Base
    ensures { result ≡ base_in (body_at schema.now enumeration.0) }
{
    let Some(info) = schema.types().get(enumeration.0 as usize) else {
        return Base::U8;
    };
    match info.body.as_enum() {
        Some((base, _, _)) => base,
        None => Base::U8,
    }
}

/// What a struct takes; None where it is over 65,535 bytes.
fn struct_extent(structs: &[Option<StructSizes>], number: TypeId) -> Option<Extent>
    ensures { result ≡ struct_extent (structs_seen structs.now) number.0 }
{
    let Some(known) = structs.get(number.0 as usize) else {
        return Some(Extent { size: 0, align: 1 });
    };
    let sizes = known.as_ref()?;
    Some(Extent {
        size: sizes.size,
        align: sizes.align,
    })
}

/// Where the fields of a struct begin; none of another type.
pub(crate) fn offsets_in(structs: &[Option<StructSizes>], number: TypeId) -> &[u16]
    ensures { result.now
        ≡ (unwrap_or (unwrap_or (slice_get (structs_seen structs.now) number.0) (Some no_struct))
        no_struct).offsets }
{
    match structs.get(number.0 as usize) {
        Some(Some(sizes)) => sizes.offsets.as_slice(),
        _ => &[],
    }
}

/// What a kind takes, where the structs take what is known; None for a struct over 65,535 bytes.
pub(crate) fn extent_of(
    schema: &Schema,
    structs: &[Option<StructSizes>],
    kind: Kind,
) -> Option<Extent>
    ensures { result ≡ extent_of (structs_seen structs.now) (stored_kind schema.now kind) }
{
    match kind {
        Kind::Scalar(base) => Some(number_extent(base)),
        Kind::Enum(number) => Some(number_extent(base_in(schema, number))),
        Kind::Struct(number) => struct_extent(structs, number),
        Kind::Code(_) => Some(Extent { size: 1, align: 1 }),
        Kind::Table(_) | Kind::Union(_) | Kind::Text => Some(REFERENCE),
    }
}

/// What a slot takes in its table: a vector is stored as a reference.
pub(crate) fn slot_extent(
    schema: &Schema,
    structs: &[Option<StructSizes>],
    shape: Shape,
) -> Option<Extent>
    ensures { result ≡ slot_extent (structs_seen structs.now) (stored_shape schema.now shape) }
{
    match shape {
        Shape::One(kind) => extent_of(schema, structs, kind),
        Shape::Many(_) => Some(REFERENCE),
    }
}

/// The kind of a shape's one value or of its elements.
pub fn kind_in(shape: Shape) -> Kind
    ensures { (schema : DeclaredSchema) → stored_kind schema result ≡ kind_in (stored_shape schema shape) }
{
    match shape {
        Shape::One(kind) | Shape::Many(kind) => kind,
    }
}
