//! Values of what is read in place.
ghost use Rattle.std.specs.Prelude.{◌≡◌, IfOk, Option, option_map};
ghost use Rattle.fb_layout.specs.Laid.{LaidSchema};
ghost use Rattle.fb_value.specs.Datum.{Datum, Parts};
ghost use Rattle.fb_value.specs.View.{view, parts_view};
ghost use Rattle.fb_read.specs.Shows.{Shows, ShowsFields, ShowsItems};
ghost use Rattle.fb_read.specs.Weights.{ShowsEntry};

use fb_read::{Entry, FixedView, Items, View};
use fb_value::Value;
use std::alloc::{AllocError, Global};

/// The value of a table that is read in place.
#[cycle(values)]
pub fn value_of_view(alloc: Global, table: View) -> Result<Value, AllocError>
    ensures { IfOk result (λ v. (d : Datum) → Shows table.entry d → view v ≡ d) }
{
    let slots = table.layout().slots_of(table.type_id());
    let mut entries = Vec::with_capacity(alloc, slots.len())?;
    for slot in 0..slots.len() {
        entries.push(value_of_entry(alloc, table.slot(slot as u16))?)?;
    }
    Ok(Value::Fields(table.type_id(), entries))
}

/// The value of an entry that is read in place, if there is one.
#[cycle(values)]
fn value_of_entry(alloc: Global, entry: Entry) -> Result<Option<Value>, AllocError>
    ensures { IfOk result (λ found. (L : LaidSchema) (o : Option Datum) → ShowsEntry L entry.entry o
        → option_map view found ≡ o) }
{
    match entry {
        Entry::Absent => Ok(None),
        Entry::Number(number) => Ok(Some(Value::Number(number))),
        Entry::Text(text) => Ok(Some(Value::Text(String::from_str(alloc, text)?))),
        Entry::Fixed(fixed) => Ok(Some(Value::Fixed(values_of_fields(alloc, fixed)?))),
        Entry::Table(table) => Ok(Some(value_of_view(alloc, table)?)),
        Entry::Member(code, table) => {
            let member = value_of_view(alloc, table)?;
            Ok(Some(Value::Member(code, Box::new(alloc, member)?)))
        }
        Entry::Unknown(code) => Ok(Some(Value::Other(code))),
        Entry::Vector(items) => Ok(Some(Value::Items(values_of_items(alloc, items)?))),
    }
}

/// The values of the fields of a struct that is read in place.
#[cycle(values)]
fn values_of_fields(alloc: Global, fixed: FixedView) -> Result<Vec<Value>, AllocError>
    ensures { IfOk result (λ values. (ds : Parts) → ShowsFields fixed.entry ds → parts_view values.items ≡ ds) }
{
    let fields = fixed.layout().parts_of(fixed.type_id());
    let mut values = Vec::with_capacity(alloc, fields.len())?;
    for field in 0..fields.len() {
        if let Some(value) = value_of_entry(alloc, fixed.part(field as u16))? {
            values.push(value)?;
        }
    }
    Ok(values)
}

/// The values of the elements of a vector that is read in place.
#[cycle(values)]
fn values_of_items(alloc: Global, items: Items) -> Result<Vec<Value>, AllocError>
    ensures { IfOk result (λ values. (ds : Parts) → ShowsItems items.entry ds → parts_view values.items ≡ ds) }
{
    let mut values = Vec::with_capacity(alloc, items.count() as usize)?;
    for i in 0..items.count() {
        if let Some(value) = value_of_entry(alloc, items.item(i))? {
            values.push(value)?;
        }
    }
    Ok(values)
}
