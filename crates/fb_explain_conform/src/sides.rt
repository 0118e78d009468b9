//! Two schemas side by side, with the texts that declare them.
use crate::places::Places;
use fb_conform::MovedName;
use fb_findings::{Location, Note, Source};
use fb_layout::Layout;
use fb_schema::{Schema, TypeId, field_at, type_name};

/// One of two schemas: its layout, its text, and where the text declares what.
#[derive(Clone, Copy)]
pub(crate) struct Side<'l, 's> {
    pub(crate) layout: &'l Layout,
    pub(crate) source: Source<'s>,
    pub(crate) places: &'l Places,
}

impl<'l, 's> Side<'l, 's> {
    pub(crate) fn schema(&self) -> &'l Schema {
        self.layout.schema()
    }

    /// Adds the file and a line of it.
    fn push_line_number(&self, note: &mut Note, line: Option<usize>) {
        let Some(line) = line else {
            return;
        };
        note.push_str(" (");
        note.push_str(self.source.path);
        note.push_str(":");
        note.push_number(line as u64);
        note.push_str(")");
    }

    /// Adds where a type is declared.
    pub(crate) fn push_type_line(&self, note: &mut Note, number: TypeId) {
        self.push_line_number(note, self.places.line_of_type(number));
    }

    /// Adds where a field is declared; a union's type is where the union is.
    pub(crate) fn push_field_line(&self, note: &mut Note, owner: TypeId, slot: u64) {
        self.push_line_number(note, self.places.line_of_field(owner, slot));
    }
}

/// A schema and the one that is to follow it.
#[derive(Clone, Copy)]
pub(crate) struct Sides<'l, 's> {
    pub(crate) old: Side<'l, 's>,
    pub(crate) new: Side<'l, 's>,
}

/// The same place in both texts.
#[derive(Clone, Copy)]
pub(crate) struct PlacesOfBoth<'s> {
    pub(crate) old: Location<'s>,
    pub(crate) new: Location<'s>,
}

/// A type of both schemas, by its number in each.
#[derive(Clone, Copy)]
pub(crate) struct Twin {
    pub(crate) old: TypeId,
    pub(crate) new: TypeId,
}

impl<'l, 's> Sides<'l, 's> {
    /// The type of an old type's full name.
    pub(crate) fn twin(&self, old: TypeId) -> Option<Twin> {
        let new = self.new.schema().find(type_name(self.old.schema(), old))?;
        Some(Twin { old, new })
    }

    /// Where both texts have an old type or one of its slots.
    pub(crate) fn places_of(&self, old: TypeId, slot: Option<u16>) -> PlacesOfBoth<'s> {
        let new = self.twin(old).map(|twin| twin.new);
        let slot = slot.map(u64::from);
        PlacesOfBoth {
            old: self
                .old
                .places
                .location_of(self.old.source, Some(old), slot),
            new: self.new.places.location_of(self.new.source, new, slot),
        }
    }

    /// The name of a slot's field in the new schema; empty where there is none.
    pub(crate) fn new_field_name(&self, old: TypeId, slot: u16) -> &'l str {
        let Some(twin) = self.twin(old) else {
            return "";
        };
        match field_at(self.new.schema(), twin.new, slot) {
            Some(field) => field.name.as_str(),
            None => "",
        }
    }

    /// Where the new text has the field or member that a moved name now belongs to.
    pub(crate) fn new_place_of(&self, moved: MovedName) -> Location<'s> {
        let Some(twin) = self.twin(moved.type_id) else {
            return self.places_of(moved.type_id, None).new;
        };
        let was = field_at(self.old.schema(), twin.old, moved.slot);
        let is = was.and_then(|was| self.new.schema().field_by_name(twin.new, was.name.as_str()));
        let slot = is.map(|is| is.slot);
        self.new
            .places
            .location_of(self.new.source, Some(twin.new), slot)
    }

    /// Where both texts name their root.
    pub(crate) fn places_of_root(&self) -> PlacesOfBoth<'s> {
        PlacesOfBoth {
            old: self.old.places.location_of_root(self.old.source),
            new: self.new.places.location_of_root(self.new.source),
        }
    }

    /// Where both texts have their file identifier.
    pub(crate) fn places_of_identifier(&self) -> PlacesOfBoth<'s> {
        PlacesOfBoth {
            old: self.old.places.location_of_identifier(self.old.source),
            new: self.new.places.location_of_identifier(self.new.source),
        }
    }
}
