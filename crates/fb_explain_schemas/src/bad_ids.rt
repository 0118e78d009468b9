//! Ids of a table's fields that don't name each of its slots once.
use fb_findings::Note;
use fb_resolve::{
    ResolvedDecl, ResolvedField, ResolvedTable, ResolvedType, WrongIds, union_in, wrong_ids,
};

/// A field's name, and its offset.
fn name_of<'s>(resolved: &ResolvedField<'_, 's>) -> (&'s str, u64) {
    let field = resolved.field;
    (field.name.text, field.name.at)
}

/// The first and the last slot that a field takes by its id.
fn slots_of(field: &ResolvedField<'_, '_>) -> Option<(u64, u64)> {
    let last = field.attributes.id?;
    match union_in(field) {
        Some(_) => Some((last.checked_sub(1)?, last)),
        None => Some((last, last)),
    }
}

/// Whether a field takes a slot.
fn takes(field: &ResolvedField<'_, '_>, slot: u64) -> bool {
    slots_of(field).is_some_and(|(first, last)| first <= slot && slot <= last)
}

/// The field of the least id after a slot.
fn least_after<'f, 'd, 's>(
    fields: &'f [ResolvedField<'d, 's>],
    slot: u64,
) -> Option<&'f ResolvedField<'d, 's>> {
    let mut least: Option<(u64, &'f ResolvedField<'d, 's>)> = None;
    for field in fields {
        let Some((first, _)) = slots_of(field) else {
            continue;
        };
        if first > slot && least.is_none_or(|(found, _)| first < found) {
            least = Some((first, field));
        }
    }
    least.map(|(_, field)| field)
}

/// The field whose id is wrong. Of two that take one slot it is the second.
fn wrong_field<'f, 'd, 's>(
    fields: &'f [ResolvedField<'d, 's>],
    wrong: WrongIds,
) -> Option<&'f ResolvedField<'d, 's>> {
    match wrong {
        WrongIds::NoSlot(place) => fields.get(place),
        WrongIds::Twice(slot) => fields.iter().filter(|field| takes(field, slot)).nth(1),
        WrongIds::Missing(slot) => least_after(fields, slot),
    }
}

/// Adds why a field's id gives it no slot.
fn push_no_slot(note: &mut Note, field: &ResolvedField<'_, '_>, table: &str) {
    if field.attributes.id.is_some() {
        note.push_str(" is a union, and its type has the id before its own: so it is 1 at least");
    } else if field.attributes.has_id {
        note.push_str(" has an id that is no number from 0 on");
    } else {
        note.push_str(" has no id, and others of ");
        note.push_name(table.as_bytes());
        note.push_str(" have one: give it to each field, from 0 on");
    }
}

/// The name of the first field that takes a slot.
fn first_with<'s>(fields: &[ResolvedField<'_, 's>], slot: u64) -> &'s str {
    let first = fields.iter().find(|field| takes(field, slot));
    first.map_or("?", |field| name_of(field).0)
}

/// Adds that a field before has a slot of a field already.
fn push_twice(
    note: &mut Note,
    fields: &[ResolvedField<'_, '_>],
    field: &ResolvedField<'_, '_>,
    slot: u64,
) {
    note.push_str(if field.attributes.id == Some(slot) {
        " has the id "
    } else {
        " has for its type the id "
    });
    note.push_number(slot);
    note.push_str(", which ");
    note.push_name(first_with(fields, slot).as_bytes());
    note.push_str(" has already");
}

/// Adds that no field has a slot, and a field has one after it.
fn push_missing(note: &mut Note, field: &ResolvedField<'_, '_>, slot: u64) {
    note.push_str(" has the id ");
    note.push_number(field.attributes.id.unwrap_or(0));
    note.push_str(", and no field has ");
    note.push_number(slot);
    note.push_str(": ids go from 0 on without a gap");
}

/// The table whose name is at an offset.
fn table_at<'r, 't, 'd, 's>(
    types: &'r [ResolvedType<'t, 'd, 's>],
    offset: u64,
) -> Option<&'r ResolvedTable<'d, 's>> {
    types
        .iter()
        .find_map(|declared| match &declared.declaration {
            ResolvedDecl::Table(table) if declared_at(table).1 == offset => Some(table),
            _ => None,
        })
}

/// A table's name, and its offset.
fn declared_at<'s>(table: &ResolvedTable<'_, 's>) -> (&'s str, u64) {
    let declared = table.declared;
    (declared.name.text, declared.name.at)
}

/// Adds which field's id is wrong in the table at an offset, and why. Returns the offset of the field.
pub(crate) fn push_bad_ids(
    note: &mut Note,
    types: &[ResolvedType<'_, '_, '_>],
    offset: u64,
) -> Option<u64> {
    let table = table_at(types, offset)?;
    let fields = table.fields.as_slice();
    let wrong = wrong_ids(table)?;
    let field = wrong_field(fields, wrong)?;
    let (name, at) = name_of(field);
    note.push_str("the field ");
    note.push_name(name.as_bytes());
    match wrong {
        WrongIds::NoSlot(_) => push_no_slot(note, field, declared_at(table).0),
        WrongIds::Twice(slot) => push_twice(note, fields, field, slot),
        WrongIds::Missing(slot) => push_missing(note, field, slot),
    }
    Some(at)
}
