//! The greatest inline sizes of tables.
ghost use Rattle.std.specs.Prelude.{◌≡◌, ◌≢◌, Ok, Err, map, IfOk, IfErr};
ghost use Rattle.fb_schema.specs.Seen.{field_seen, body_seen};
ghost use Rattle.fb_schema.specs.WellDeclared.{IsDeclared};
ghost use Rattle.fb_layout.specs.declared.faults.LayoutFault.TheVariants.{Memory};
ghost use Rattle.fb_layout.specs.Known.{structs_seen, slot_added, slots_summed, whole_table, known_table};
ghost use Rattle.fb_layout.specs.Known.{type_sizes, tables_known};

use crate::extents::{StructSizes, slot_extent};
use crate::faults::LayoutFault;
use fb_schema::{Body, FieldInfo, Schema, TypeId};
use std::alloc::Global;

/// A table's greatest inline size and its alignment, in bytes.
#[derive(Clone, Copy, Drop)]
pub struct TableSizes {
    pub widest: u16,
    pub align: u16,
}

// As many slots as a vtable of 65,535 bytes holds.
const MOST_SLOTS: usize = 32_765;

/// The sizes with one more slot; None over 65,535 bytes.
fn slot_added(
    schema: &Schema,
    structs: &[Option<StructSizes>],
    sizes: TableSizes,
    field: &FieldInfo,
) -> Option<TableSizes>
    ensures { result ≡ slot_added schema.now (structs_seen structs.now) sizes (field_seen field.now) }
{
    if field.deprecated {
        return Some(sizes);
    }
    let slot = slot_extent(schema, structs, field.shape)?;
    Some(TableSizes {
        widest: sizes.widest.checked_add(slot.size)?,
        align: sizes.align.max(slot.align),
    })
}

/// The sum of all slots that aren't deprecated; None over 65,535 bytes.
fn slots_added(
    schema: &Schema,
    structs: &[Option<StructSizes>],
    slots: &[FieldInfo],
) -> Option<TableSizes>
    ensures { result ≡ slots_summed schema.now (structs_seen structs.now) (map field_seen slots.now) }
{
    let mut sizes = TableSizes {
        widest: 0,
        align: 4,
    };
    for field in slots {
        sizes = slot_added(schema, structs, sizes, field)?;
    }
    Some(sizes)
}

/// The table with its first number; None over 65,535 bytes.
fn whole_table(slots: TableSizes) -> Option<TableSizes>
    ensures { result ≡ whole_table slots }
{
    let sum = slots.widest.checked_next_multiple_of(4)?;
    Some(TableSizes {
        widest: sum.checked_add(4)?,
        align: slots.align,
    })
}

/// The sizes of a table; None where it is over 65,535 bytes or has over 32,765 slots.
pub(crate) fn table_of(
    schema: &Schema,
    structs: &[Option<StructSizes>],
    slots: &[FieldInfo],
) -> Option<TableSizes>
    ensures { result ≡ known_table schema.now (structs_seen structs.now) (map field_seen slots.now) }
{
    if slots.len() > MOST_SLOTS {
        return None;
    }
    whole_table(slots_added(schema, structs, slots)?)
}

/// What a type takes as a table, or the rule that it fails.
fn type_sizes(
    schema: &Schema,
    structs: &[Option<StructSizes>],
    number: TypeId,
    body: &Body,
) -> Result<TableSizes, LayoutFault>
    ensures { result ≡ type_sizes schema.now (structs_seen structs.now) number.0 (body_seen body.now) }
{
    let none = TableSizes {
        widest: 4,
        align: 4,
    };
    match body {
        Body::Table(slots) => {
            table_of(schema, structs, slots.as_slice()).ok_or(LayoutFault::TableTooWide(number))
        }
        Body::Struct(_, _) => match structs.get(number.0 as usize) {
            Some(None) => Err(LayoutFault::StructTooBig(number)),
            _ => Ok(none),
        },
        _ => Ok(none),
    }
}

/// One entry for each type, its sizes as a table, or the first rule that a type fails.
pub(crate) fn tables_of(
    alloc: Global,
    schema: &Schema,
    structs: &[Option<StructSizes>],
) -> Result<Vec<TableSizes>, LayoutFault>
    ensures declared { IsDeclared schema.now }
    ensures sizes { IfOk result (λ r. tables_known schema.now (structs_seen structs.now) ≡ Ok r.items) }
    ensures fault { IfErr result (λ f. f ≢ Memory
        → tables_known schema.now (structs_seen structs.now) ≡ Err f) }
{
    let types = schema.types();
    let mut tables = Vec::with_capacity(alloc, types.len())?;
    for (number, info) in types.iter().enumerate() {
        let sizes = type_sizes(schema, structs, TypeId(number as u64), &info.body)?;
        tables.push(sizes)?;
    }
    Ok(tables)
}
