//! Fields that were removed or inserted before others, or changed places: many slots break with the old ones, and the
//! mistake is one.
use crate::sides::{Sides, Twin};
use fb_conform::Breach;
use fb_findings::Note;
use fb_schema::{FieldInfo, Kind, Shape, TypeId, fields_of, type_name};

// How many slots that are removed or inserted side by side are looked for.
const MOST: usize = 16;

#[derive(Clone, Copy)]
pub(crate) enum Change {
    /// Old slots that the new table hasn't got there.
    Removed,
    /// New slots before old ones.
    Inserted,
    /// Two slots that have each other's fields; the second is the last of the shift.
    Swapped,
}

/// Slots of a table that were removed or inserted, with those after them as they were.
#[derive(Clone, Copy)]
pub(crate) struct Shift {
    change: Change,
    first: usize,
    count: usize,
    /// How many slots, from the first on, break with the old ones by it.
    end: usize,
}

impl Shift {
    /// Its fields, of those of the table that has them.
    fn of(self, fields: &[FieldInfo]) -> &[FieldInfo] {
        let end = self.first.saturating_add(self.count);
        fields.get(self.first..end).unwrap_or(&[])
    }

    /// Whether a slot breaks by it.
    fn breaks(self, slot: usize) -> bool {
        match self.change {
            Change::Swapped => slot == self.first || slot == self.last(),
            Change::Removed | Change::Inserted => (self.first..self.end).contains(&slot),
        }
    }

    fn last(self) -> usize {
        self.end.saturating_sub(1)
    }
}

/// The slot of the field with a name.
fn slot_of_name(fields: &[FieldInfo], name: &str) -> Option<usize> {
    for (slot, field) in fields.iter().enumerate() {
        if field.name.as_str() == name {
            return Some(slot);
        }
    }
    None
}

/// The field of the first slot and one after it that have each other's slots.
fn swap_from(old: &[FieldInfo], new: &[FieldInfo], first: usize) -> Option<Shift> {
    let was = old.get(first)?;
    let is = new.get(first)?;
    let second = slot_of_name(new, was.name.as_str())?;
    if slot_of_name(old, is.name.as_str())? != second {
        return None;
    }
    Some(Shift {
        change: Change::Swapped,
        first,
        count: 1,
        end: second.saturating_add(1),
    })
}

/// Whether all fields of the first list are called like those that the second begins with.
fn begin_alike(fields: &[FieldInfo], others: &[FieldInfo]) -> bool {
    fields.len() <= others.len()
        && fields
            .iter()
            .zip(others)
            .all(|(field, other)| field.name == other.name)
}

fn rest_of(fields: &[FieldInfo], from: usize) -> &[FieldInfo] {
    fields.get(from..).unwrap_or(&[])
}

/// The shift of `count` slots from `first` on, which is the first that has another name.
fn shift_by(old: &[FieldInfo], new: &[FieldInfo], first: usize, count: usize) -> Option<Shift> {
    let next = first.saturating_add(count);
    if next < old.len() && begin_alike(rest_of(old, next), rest_of(new, first)) {
        let end = old.len();
        return Some(Shift {
            change: Change::Removed,
            first,
            count,
            end,
        });
    }
    if begin_alike(rest_of(old, first), rest_of(new, next)) {
        let end = old.len().saturating_add(count);
        return Some(Shift {
            change: Change::Inserted,
            first,
            count,
            end,
        });
    }
    None
}

/// Which slots were removed, inserted or swapped, where that is the only change of order.
fn shift_of(old: &[FieldInfo], new: &[FieldInfo]) -> Option<Shift> {
    let first = old
        .iter()
        .zip(new)
        .position(|(was, is)| was.name != is.name)?;
    let swap = swap_from(old, new, first);
    if swap.is_some() {
        return swap;
    }
    (1..=MOST).find_map(|count| shift_by(old, new, first, count))
}

/// What a breach is to a shift.
#[derive(Clone, Copy)]
pub(crate) enum PartOfShift {
    Nothing,
    /// The first breach of the shift of an old table, which stands for all of them.
    First(TypeId, Shift),
    Further,
}

/// The shift of the table that breaches are listed of.
#[derive(Clone, Copy)]
pub(crate) struct Shifts {
    found: Option<(TypeId, Option<Shift>)>,
    /// Whether a breach of it was met.
    is_met: bool,
}

impl Shifts {
    pub(crate) fn new() -> Shifts {
        Shifts {
            found: None,
            is_met: false,
        }
    }

    /// The shift of an old table, which is looked for once.
    fn of(&mut self, sides: &Sides<'_, '_>, old: TypeId) -> Option<Shift> {
        if let Some((known, shift)) = self.found
            && known == old
        {
            return shift;
        }
        let shift = sides.twin(old).and_then(|twin| sides.shift(twin));
        self.found = Some((old, shift));
        self.is_met = false;
        shift
    }

    /// The part that a breach has in a shift.
    pub(crate) fn part_of(&mut self, sides: &Sides<'_, '_>, breach: Breach) -> PartOfShift {
        let (Some(old), Some(slot)) = (breach.type_id(), breach.slot()) else {
            return PartOfShift::Nothing;
        };
        let Some(shift) = self.of(sides, old) else {
            return PartOfShift::Nothing;
        };
        if !shift.breaks(usize::from(slot)) {
            return PartOfShift::Nothing;
        }
        if self.is_met {
            return PartOfShift::Further;
        }
        self.is_met = true;
        PartOfShift::First(old, shift)
    }
}

/// The name that some slots have together: one field's, or a union's, whose code has a slot of its own.
fn only_name(fields: &[FieldInfo]) -> Option<&str> {
    match fields {
        [field] => Some(field.name.as_str()),
        [_, field] => match field.shape {
            Shape::One(Kind::Union(_)) => Some(field.name.as_str()),
            _ => None,
        },
        _ => None,
    }
}

impl<'l, 's> Sides<'l, 's> {
    fn shift(&self, twin: Twin) -> Option<Shift> {
        let old = fields_of(self.old.schema(), twin.old);
        let new = fields_of(self.new.schema(), twin.new);
        shift_of(old, new)
    }

    /// Adds which fields they are; whether it is one.
    fn push_shifted(&self, note: &mut Note, old: TypeId, fields: &[FieldInfo]) -> bool {
        note.push_cut(type_name(self.old.schema(), old).as_bytes());
        note.push_str(".");
        if let Some(name) = only_name(fields) {
            note.push_cut(name.as_bytes());
            return true;
        }
        if let (Some(first), Some(last)) = (fields.first(), fields.last()) {
            note.push_cut(first.name.as_bytes());
            note.push_str(" to ");
            note.push_cut(last.name.as_bytes());
        }
        false
    }

    /// Whether the new table has a field of this name.
    fn has_new_field(&self, twin: Twin, field: &FieldInfo) -> bool {
        let found = self
            .new
            .schema()
            .field_by_name(twin.new, field.name.as_str());
        found.is_some()
    }

    fn push_removed(&self, note: &mut Note, twin: Twin, shift: Shift) {
        let fields = shift.of(fields_of(self.old.schema(), twin.old));
        let is_one = self.push_shifted(note, twin.old, fields);
        let is_moved = match fields.first() {
            Some(field) => self.has_new_field(twin, field),
            None => false,
        };
        note.push_str(match (is_one, is_moved) {
            (true, false) => " was removed",
            (false, false) => " were removed",
            (true, true) => " was moved after others",
            (false, true) => " were moved after others",
        });
        self.old.push_field_line(note, twin.old, shift.first as u64);
        note.push_str(if is_one {
            ": later fields take its place"
        } else {
            ": later fields take their places"
        });
        note.push_str(if is_moved {
            "; fields keep their order, or each field has an (id: ..)"
        } else {
            "; a field is never removed, but marked (deprecated)"
        });
    }

    fn push_inserted(&self, note: &mut Note, twin: Twin, shift: Shift) {
        let fields = shift.of(fields_of(self.new.schema(), twin.new));
        let is_one = self.push_shifted(note, twin.old, fields);
        note.push_str(if is_one {
            " was inserted"
        } else {
            " were inserted"
        });
        self.new.push_field_line(note, twin.new, shift.first as u64);
        note.push_str(": later fields lose their places; ");
        note.push_str("new fields go after the others, or each field has an (id: ..)");
    }

    /// Adds a slot's field by its name.
    fn push_name_at(&self, note: &mut Note, twin: Twin, slot: usize) {
        if let Some(field) = fields_of(self.old.schema(), twin.old).get(slot) {
            note.push_cut(field.name.as_bytes());
        }
        self.old.push_field_line(note, twin.old, slot as u64);
    }

    fn push_swapped(&self, note: &mut Note, twin: Twin, shift: Shift) {
        note.push_cut(type_name(self.old.schema(), twin.old).as_bytes());
        note.push_str(".");
        self.push_name_at(note, twin, shift.first);
        note.push_str(" and ");
        self.push_name_at(note, twin, shift.last());
        note.push_str(" changed places");
        self.new.push_field_line(note, twin.new, shift.first as u64);
        note.push_str(": fields keep their order, or each field has an (id: ..)");
    }

    /// Adds what was removed, inserted or swapped, and where.
    pub(crate) fn push_shift(&self, note: &mut Note, old: TypeId, shift: Shift) {
        let Some(twin) = self.twin(old) else {
            return;
        };
        match shift.change {
            Change::Removed => self.push_removed(note, twin, shift),
            Change::Inserted => self.push_inserted(note, twin, shift),
            Change::Swapped => self.push_swapped(note, twin, shift),
        }
    }
}
