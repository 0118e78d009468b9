//! What of a struct or of an enum's type and mark changed, each in a sentence.
use crate::breach_fields::push_type_of_field;
use crate::sides::{Sides, Twin};
use fb_findings::Note;
use fb_schema::{Base, FieldInfo, Kind, Schema, TypeId, base_name, fields_of};
use std::alloc::{AllocError, Global};

/// A field's name and what became of it.
fn named(alloc: Global, field: &FieldInfo, what: &str) -> Result<String, AllocError> {
    let mut note = Note::new(alloc);
    note.push_name(field.name.as_bytes());
    note.push_str(what);
    note.into_text()
}

/// A field's type as its schema writes it.
fn type_text(alloc: Global, schema: &Schema, field: &FieldInfo) -> Result<String, AllocError> {
    let mut note = Note::new(alloc);
    push_type_of_field(&mut note, schema, field);
    note.into_text()
}

/// What was and what is.
fn was_and_is(alloc: Global, front: &str, was: &str, is: &str) -> Result<String, AllocError> {
    let mut note = Note::new(alloc);
    note.push_str(front);
    note.push_str(was);
    note.push_str(", is ");
    note.push_str(is);
    note.into_text()
}

/// That an enum has another underlying type.
fn other_base(alloc: Global, was: Base, is: Base) -> Result<String, AllocError> {
    let mut note = Note::new(alloc);
    note.push_str("the type was ");
    note.push_str(base_name(was));
    note.push_str(", is ");
    note.push_str(base_name(is));
    note.push_str(": declare another enum");
    note.into_text()
}

/// That a field of a struct has another place.
fn moved(alloc: Global, was: &FieldInfo, is: &FieldInfo) -> Result<String, AllocError> {
    let mut note = Note::new(alloc);
    note.push_name(was.name.as_bytes());
    note.push_str(" was field ");
    note.push_number(was.slot);
    note.push_str(", is field ");
    note.push_number(is.slot);
    note.into_text()
}

/// An enum's underlying type, and whether it has bit_flags.
fn enum_in(schema: &Schema, number: TypeId) -> Option<(Base, bool)> {
    let declared = schema.types().get(number.0 as usize)?;
    match declared.body.as_enum() {
        Some((base, has_flags, _)) => Some((base, has_flags)),
        None => None,
    }
}

/// What the mark of an enum has become.
fn mark_sentence(has_flags: bool) -> &'static str {
    if has_flags {
        "it has bit_flags now, so that its numbers are 1, 2, 4 and so on: declare another enum"
    } else {
        "it has no bit_flags any more, so that its numbers are 0, 1, 2 and so on: declare another enum"
    }
}

impl<'l, 's> Sides<'l, 's> {
    /// What became of a struct's field; `None` where it is unchanged.
    fn changed_part(
        &self,
        alloc: Global,
        twin: Twin,
        was: &FieldInfo,
    ) -> Result<Option<String>, AllocError> {
        let Some(is) = self.new.schema().field_by_name(twin.new, was.name.as_str()) else {
            return Ok(Some(named(alloc, was, " is gone")?));
        };
        let was_type = type_text(alloc, self.old.schema(), was)?;
        let is_type = type_text(alloc, self.new.schema(), is)?;
        if was_type != is_type {
            let front = named(alloc, was, " was ")?;
            let (was_type, is_type) = (was_type.as_str(), is_type.as_str());
            return Ok(Some(was_and_is(alloc, front.as_str(), was_type, is_type)?));
        }
        if was.slot != is.slot {
            return Ok(Some(moved(alloc, was, is)?));
        }
        Ok(None)
    }

    /// Adds a struct's fields that are new.
    fn add_new_parts(
        &self,
        alloc: Global,
        twin: Twin,
        changed: &mut Vec<String>,
    ) -> Result<(), AllocError> {
        for is in fields_of(self.new.schema(), twin.new) {
            if self
                .old
                .schema()
                .field_by_name(twin.old, is.name.as_str())
                .is_none()
            {
                changed.push(named(alloc, is, " is new")?)?;
            }
        }
        Ok(())
    }

    /// Adds the alignments of a struct where they differ.
    fn add_alignments(
        &self,
        alloc: Global,
        twin: Twin,
        changed: &mut Vec<String>,
    ) -> Result<(), AllocError> {
        let was = self.old.layout.align_of(Kind::Struct(twin.old));
        let is = self.new.layout.align_of(Kind::Struct(twin.new));
        if was == is {
            return Ok(());
        }
        let mut note = Note::new(alloc);
        note.push_str("the alignment was ");
        note.push_number(u64::from(was));
        note.push_str(", is ");
        note.push_number(u64::from(is));
        changed.push(note.into_text()?)?;
        Ok(())
    }

    /// What of a struct changed, each in a sentence.
    pub(crate) fn changed_parts(
        &self,
        alloc: Global,
        old: TypeId,
    ) -> Result<Vec<String>, AllocError> {
        let mut changed = Vec::new(alloc);
        let Some(twin) = self.twin(old) else {
            return Ok(changed);
        };
        for was in fields_of(self.old.schema(), twin.old) {
            if let Some(sentence) = self.changed_part(alloc, twin, was)? {
                changed.push(sentence)?;
            }
        }
        self.add_new_parts(alloc, twin, &mut changed)?;
        self.add_alignments(alloc, twin, &mut changed)?;
        Ok(changed)
    }

    /// What of an enum's underlying type and its mark changed, each in a sentence.
    pub(crate) fn changed_mark(
        &self,
        alloc: Global,
        twin: Twin,
    ) -> Result<Vec<String>, AllocError> {
        let mut changed = Vec::new(alloc);
        let Some((was, had_flags)) = enum_in(self.old.schema(), twin.old) else {
            return Ok(changed);
        };
        let Some((is, has_flags)) = enum_in(self.new.schema(), twin.new) else {
            return Ok(changed);
        };
        if was != is {
            changed.push(other_base(alloc, was, is)?)?;
        }
        if had_flags != has_flags {
            changed.push(String::from_str(alloc, mark_sentence(has_flags))?)?;
        }
        Ok(changed)
    }
}
