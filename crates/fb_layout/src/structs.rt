//! Sizes of structs, from one type to the next.
ghost use Rattle.std.specs.Prelude.{◌≡◌, [], map, option_map, IfOk};
ghost use Rattle.fb_schema.specs.Seen.{field_seen, body_seen};
ghost use Rattle.fb_layout.specs.Known.{sizes_seen, structs_seen, place_behind, each_added, field_placed, no_fields};
ghost use Rattle.fb_layout.specs.Known.{whole_struct, known_struct, known_from};

use crate::extents::{Extent, StructSizes, extent_of, kind_in};
use fb_schema::{Body, FieldInfo, Schema};
use std::alloc::{AllocError, Global};

/// Where a field begins after an end, and where it ends; None over 65,535 bytes.
fn place_behind(end: u16, field: Extent) -> Option<(u16, u16)>
    ensures { result ≡ place_behind end field }
{
    let offset = end.checked_next_multiple_of(field.align)?;
    Some((offset, offset.checked_add(field.size)?))
}

/// The fields of a struct in order; None where they end over 65,535 bytes.
fn fields_placed(
    alloc: Global,
    schema: &Schema,
    structs: &[Option<StructSizes>],
    fields: &[FieldInfo],
) -> Result<Option<StructSizes>, AllocError>
    ensures { IfOk result (λ r. option_map sizes_seen r
        ≡ each_added (field_placed schema.now (structs_seen structs.now)) no_fields (map field_seen fields.now)) }
{
    let mut offsets = Vec::with_capacity(alloc, fields.len())?;
    let mut size = 0u16;
    let mut align = 0u16;
    for field in fields {
        let Some(extent) = extent_of(schema, structs, kind_in(field.shape)) else {
            return Ok(None);
        };
        let Some((offset, end)) = place_behind(size, extent) else {
            return Ok(None);
        };
        offsets.push(offset)?;
        size = end;
        align = align.max(extent.align);
    }
    Ok(Some(StructSizes {
        size,
        align,
        offsets,
    }))
}

/// The whole struct after its fields, aligned by `force_align` or as its fields are.
fn whole_struct(force: Option<u16>, placed: StructSizes) -> Option<StructSizes>
    ensures { option_map sizes_seen result ≡ whole_struct force (sizes_seen placed) }
{
    let align = force.unwrap_or(placed.align);
    let size = placed.size.checked_next_multiple_of(align)?;
    Some(StructSizes {
        size,
        align,
        offsets: placed.offsets,
    })
}

/// What a type takes as a struct: nothing where it is none; None over 65,535 bytes.
fn struct_of(
    alloc: Global,
    schema: &Schema,
    structs: &[Option<StructSizes>],
    body: &Body,
) -> Result<Option<StructSizes>, AllocError>
    ensures { IfOk result (λ r. option_map sizes_seen r
        ≡ known_struct schema.now (structs_seen structs.now) (body_seen body.now)) }
{
    let Some((fields, force_align)) = body.as_struct() else {
        return Ok(Some(StructSizes {
            size: 0,
            align: 1,
            offsets: Vec::new(alloc),
        }));
    };
    let Some(placed) = fields_placed(alloc, schema, structs, fields)? else {
        return Ok(None);
    };
    Ok(whole_struct(force_align, placed))
}

/// One entry for each type: what it takes as a struct, None over 65,535 bytes.
pub(crate) fn structs_of(
    alloc: Global,
    schema: &Schema,
) -> Result<Vec<Option<StructSizes>>, AllocError>
    ensures { IfOk result (λ r. structs_seen r.items ≡ known_from schema.now [] schema.now.types) }
{
    let types = schema.types();
    let mut structs = Vec::with_capacity(alloc, types.len())?;
    for info in types {
        let sizes = struct_of(alloc, schema, structs.as_slice(), &info.body)?;
        structs.push(sizes)?;
    }
    Ok(structs)
}
