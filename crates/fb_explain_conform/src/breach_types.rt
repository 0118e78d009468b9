//! What in a new schema breaks with the old one, with both side by side.
use crate::breach_fields::Compared;
use crate::sides::{PlacesOfBoth, Sides, Twin};
use fb_conform::Breach;
use fb_findings::Note;
use fb_schema::{Schema, TypeId, members_of, type_name, values_of};
use std::alloc::{AllocError, Global};

fn kind_of_type(schema: &Schema, number: TypeId) -> &'static str {
    match schema.types().get(number.0 as usize) {
        Some(declared) if declared.body.as_table().is_some() => "a table",
        Some(declared) if declared.body.as_struct().is_some() => "a struct",
        Some(declared) if declared.body.as_enum().is_some() => "an enum",
        _ => "a union",
    }
}

fn push_identifier(note: &mut Note, schema: &Schema) {
    match schema.identifier() {
        Some(identifier) => note.push_name(&identifier),
        None => note.push_str("none"),
    }
}

impl<'l, 's> Sides<'l, 's> {
    /// Adds a type's name and where each schema declares it.
    fn push_type(&self, note: &mut Note, old: TypeId, what: &str) {
        note.push_name(type_name(self.old.schema(), old).as_bytes());
        note.push_str(what);
        self.old.push_type_line(note, old);
        if let Some(twin) = self.twin(old) {
            note.push_str(" ->");
            self.new.push_type_line(note, twin.new);
        }
    }

    fn push_root(&self, note: &mut Note) {
        let (old, new) = (self.old.schema(), self.new.schema());
        note.push_str("the root was ");
        note.push_name(type_name(old, old.root()).as_bytes());
        note.push_str(", is ");
        note.push_name(type_name(new, new.root()).as_bytes());
    }

    fn push_identifiers(&self, note: &mut Note) {
        note.push_str("the file identifier was ");
        push_identifier(note, self.old.schema());
        note.push_str(", is ");
        push_identifier(note, self.new.schema());
    }

    fn push_kinds(&self, note: &mut Note, old: TypeId) {
        let Some(twin) = self.twin(old) else {
            return;
        };
        note.push_name(type_name(self.old.schema(), old).as_bytes());
        note.push_str(" was ");
        note.push_str(kind_of_type(self.old.schema(), old));
        self.old.push_type_line(note, old);
        note.push_str(", is ");
        note.push_str(kind_of_type(self.new.schema(), twin.new));
        self.new.push_type_line(note, twin.new);
    }
}

/// The number of a union's member at an index.
fn code_at(index: usize) -> Option<u8> {
    u8::try_from(index.checked_add(1)?).ok()
}

impl<'l, 's> Sides<'l, 's> {
    /// What of an enum changed: its type, its mark, and which values are gone or have another number.
    fn changed_values(&self, alloc: Global, old: TypeId) -> Result<Vec<String>, AllocError> {
        let Some(twin) = self.twin(old) else {
            return Ok(Vec::new(alloc));
        };
        let mut changed = self.changed_mark(alloc, twin)?;
        for (name, number) in values_of(self.old.schema(), old) {
            let is = self.new.schema().number_of_name(twin.new, name.as_str());
            if is != Some(*number) {
                changed.push(renumbered(alloc, name.as_str(), *number, is)?)?;
            }
        }
        Ok(changed)
    }

    /// That a member of a union is gone or names another table; `None` where it is unchanged.
    fn changed_member(
        &self,
        alloc: Global,
        twin: Twin,
        code: u8,
        table: TypeId,
    ) -> Result<Option<String>, AllocError> {
        let was = type_name(self.old.schema(), table);
        let is = match self.new.schema().member_by_code(twin.new, code) {
            Some(table) => type_name(self.new.schema(), table),
            None => "gone",
        };
        if was == is {
            return Ok(None);
        }
        let mut note = Note::new(alloc);
        note.push_str("member ");
        note.push_number(u64::from(code));
        note.push_str(" was ");
        note.push_cut(was.as_bytes());
        note.push_str(", is ");
        note.push_cut(is.as_bytes());
        Ok(Some(note.into_text()?))
    }

    /// What of a union's members is gone or names another table, each in a sentence.
    fn changed_members(&self, alloc: Global, old: TypeId) -> Result<Vec<String>, AllocError> {
        let mut changed = Vec::new(alloc);
        let Some(twin) = self.twin(old) else {
            return Ok(changed);
        };
        for (index, (_, table)) in members_of(self.old.schema(), old).iter().enumerate() {
            if let Some(code) = code_at(index)
                && let Some(sentence) = self.changed_member(alloc, twin, code, *table)?
            {
                changed.push(sentence)?;
            }
        }
        Ok(changed)
    }

    /// The details of a breach, one sentence each.
    pub(crate) fn breach_details(
        &self,
        alloc: Global,
        breach: Breach,
    ) -> Result<Vec<String>, AllocError> {
        match breach {
            Breach::EnumChanged(old) => self.changed_values(alloc, old),
            Breach::UnionChanged(old) => self.changed_members(alloc, old),
            Breach::StructChanged(old) => self.changed_parts(alloc, old),
            _ => Ok(Vec::new(alloc)),
        }
    }

    /// Where each text declares the subject of a breach.
    pub(crate) fn breach_places(&self, breach: Breach) -> PlacesOfBoth<'s> {
        match breach.type_id() {
            Some(old) => self.places_of(old, breach.slot()),
            None if breach == Breach::RootChanged => self.places_of_root(),
            None => self.places_of_identifier(),
        }
    }

    /// Adds a breach, with what was and what is.
    pub(crate) fn push_breach(&self, note: &mut Note, breach: Breach) {
        match breach {
            Breach::RootChanged => self.push_root(note),
            Breach::IdentifierChanged => self.push_identifiers(note),
            Breach::TypeGone(old) => self.push_type(note, old, " is gone"),
            Breach::KindChanged(old) => self.push_kinds(note, old),
            Breach::StructChanged(old) => {
                self.push_type(
                    note,
                    old,
                    " has fields of other types, or another alignment",
                )
            }
            Breach::EnumChanged(old) => {
                self.push_type(note, old, " has lost a value, or its type or mark changed")
            }
            Breach::UnionChanged(old) => self.push_type(note, old, " has lost a member"),
            Breach::SlotGone(old, slot) => self.push_gone(note, old, slot),
            Breach::NewRequired(old, slot) => self.push_new_required(note, old, slot),
            Breach::FieldTypeChanged(old, slot) => {
                self.push_field_change(note, old, slot, Compared::Type)
            }
            Breach::DefaultChanged(old, slot) => {
                self.push_field_change(note, old, slot, Compared::Default)
            }
            Breach::RequiredChanged(old, slot) => {
                self.push_field_change(note, old, slot, Compared::Required)
            }
            Breach::DeprecatedTakenBack(old, slot) => {
                self.push_field_change(note, old, slot, Compared::Deprecated)
            }
        }
    }
}

/// That a value has another number, or is gone.
fn renumbered(
    alloc: Global,
    name: &str,
    was: i128,
    is: Option<i128>,
) -> Result<String, AllocError> {
    let mut note = Note::new(alloc);
    note.push_name(name.as_bytes());
    note.push_str(" was ");
    note.push_integer(was);
    match is {
        Some(is) => {
            note.push_str(", is ");
            note.push_integer(is);
        }
        None => note.push_str(", is gone"),
    }
    note.into_text()
}
