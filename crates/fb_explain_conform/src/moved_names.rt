//! What conforms by its slots, and yet shows old values under other names: names that stand for another field or
//! member.
use crate::sides::{Sides, Twin};
use fb_conform::MovedName;
use fb_findings::Note;
use fb_schema::{FieldInfo, field_at, members_of, type_name};

impl<'l, 's> Sides<'l, 's> {
    /// Adds a name after its type's.
    fn push_name_in(&self, note: &mut Note, twin: Twin, name: &str) {
        note.push_cut(type_name(self.old.schema(), twin.old).as_bytes());
        note.push_str(".");
        note.push_cut(name.as_bytes());
    }

    /// Adds what becomes of a field's values, whose slot has another name.
    fn push_new_name(&self, note: &mut Note, was: &FieldInfo, now: &FieldInfo) {
        if was.deprecated {
            note.push_str(": the name of a deprecated field now belongs to another one");
            return;
        }
        if now.deprecated {
            note.push_str(
                ": programs no longer see the values that buffers of the old schema have there",
            );
            return;
        }
        note.push_str(": buffers of the old schema show the values of ");
        note.push_cut(was.name.as_bytes());
        note.push_str(" as ");
        note.push_cut(now.name.as_bytes());
        note.push_str(", to every program that reads by name");
    }

    /// Adds that the field in a slot has its name no longer, and which has it.
    fn push_moved_field(&self, note: &mut Note, twin: Twin, was: &FieldInfo, now: &FieldInfo) {
        let Some(is) = self.new.schema().field_by_name(twin.new, was.name.as_str()) else {
            return;
        };
        self.push_name_in(note, twin, was.name.as_str());
        note.push_str(" was field ");
        note.push_number(was.slot);
        self.old.push_field_line(note, twin.old, was.slot);
        note.push_str(", is field ");
        note.push_number(is.slot);
        self.new.push_field_line(note, twin.new, is.slot);
        self.push_new_name(note, was, now);
    }

    /// Adds that the union member of a code has its name no longer, and which has it.
    fn push_moved_member(&self, note: &mut Note, twin: Twin, code: u16) {
        let index = usize::from(code).saturating_sub(1);
        let was = members_of(self.old.schema(), twin.old).get(index);
        let members = members_of(self.new.schema(), twin.new);
        let (Some((was, _)), Some((now, _))) = (was, members.get(index)) else {
            return;
        };
        let Some(place) = self.new.schema().code_of_name(twin.new, was.as_str()) else {
            return;
        };
        self.push_name_in(note, twin, was.as_str());
        note.push_str(" was member ");
        note.push_number(u64::from(code));
        note.push_str(", is member ");
        note.push_number(u64::from(place));
        note.push_str(": buffers of the old schema show ");
        note.push_cut(was.as_bytes());
        note.push_str(" as ");
        note.push_cut(now.as_bytes());
    }

    /// Adds that a name stands for another field or member.
    pub(crate) fn push_moved(&self, note: &mut Note, moved: MovedName) {
        let Some(twin) = self.twin(moved.type_id) else {
            return;
        };
        let was = field_at(self.old.schema(), twin.old, moved.slot);
        let now = field_at(self.new.schema(), twin.new, moved.slot);
        match (was, now) {
            (Some(was), Some(now)) => self.push_moved_field(note, twin, was, now),
            _ => self.push_moved_member(note, twin, moved.slot),
        }
    }
}
