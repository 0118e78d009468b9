//! Breaches in a field of a table.
use crate::sides::Sides;
use fb_findings::{Note, push_shape};
use fb_layout::kind_in;
use fb_schema::{FieldInfo, Kind, Schema, Shape, TypeId, field_at, kind_name, type_name};

/// What of a field is compared.
#[derive(Clone, Copy)]
pub(crate) enum Compared {
    Type,
    Default,
    Required,
    Deprecated,
}

fn front_of(compared: Compared) -> &'static str {
    match compared {
        Compared::Type => "the type was ",
        Compared::Default => "the default was ",
        Compared::Required | Compared::Deprecated => "was ",
    }
}

/// Adds a field's type as its schema writes it.
pub(crate) fn push_type_of_field(note: &mut Note, schema: &Schema, field: &FieldInfo) {
    let name = kind_name(schema, kind_in(field.shape));
    push_shape(note, field.shape, name)
}

/// Adds a field's default, of an enum's value with its number.
fn push_default(note: &mut Note, schema: &Schema, field: &FieldInfo) {
    if field.optional {
        note.push_str("null");
        return;
    }
    if let Shape::One(Kind::Enum(number)) = field.shape
        && let Some(name) = schema.name_of_number(number, field.default)
    {
        note.push_str(name);
        note.push_str(" = ");
    }
    note.push_integer(field.default);
}

/// Whether a field may be absent, and why.
fn presence_of(field: &FieldInfo) -> &'static str {
    match (field.required, field.deprecated) {
        (true, true) => "not required, since it is deprecated",
        (true, false) => "required",
        (false, _) => "not required",
    }
}

fn push_compared(note: &mut Note, schema: &Schema, field: &FieldInfo, compared: Compared) {
    match compared {
        Compared::Type => push_type_of_field(note, schema, field),
        Compared::Default => push_default(note, schema, field),
        Compared::Required => note.push_str(presence_of(field)),
        Compared::Deprecated if field.deprecated => note.push_str("deprecated"),
        Compared::Deprecated => note.push_str("not deprecated"),
    }
}

/// Whether a field isn't required any more because it is deprecated.
fn is_retired(is: &FieldInfo, compared: Compared) -> bool {
    matches!(compared, Compared::Required) && is.required && is.deprecated
}

/// Adds which field has the place of one that was deprecated.
fn push_new_owner(note: &mut Note, was: &FieldInfo, is: &FieldInfo) {
    if !was.deprecated || was.name == is.name {
        return;
    }
    note.push_str("; '");
    note.push_cut(is.name.as_bytes());
    note.push_str("' has its place: leave it deprecated, and put new fields after the others");
}

impl<'l, 's> Sides<'l, 's> {
    /// Adds a field's name after its type's.
    fn push_field_name(&self, note: &mut Note, old: TypeId, name: &str) {
        note.push_cut(type_name(self.old.schema(), old).as_bytes());
        note.push_str(".");
        note.push_cut(name.as_bytes());
        note.push_str(": ");
    }

    /// Adds what a field was and is.
    pub(crate) fn push_field_change(
        &self,
        note: &mut Note,
        old: TypeId,
        slot: u16,
        compared: Compared,
    ) {
        let Some(twin) = self.twin(old) else {
            return;
        };
        let Some(was) = field_at(self.old.schema(), old, slot) else {
            return;
        };
        let Some(is) = field_at(self.new.schema(), twin.new, slot) else {
            return;
        };
        self.push_field_name(note, old, was.name.as_str());
        note.push_str(front_of(compared));
        push_compared(note, self.old.schema(), was, compared);
        self.old.push_field_line(note, old, was.slot);
        note.push_str(", is ");
        push_compared(note, self.new.schema(), is, compared);
        self.new.push_field_line(note, twin.new, is.slot);
        push_new_owner(note, was, is);
        if is_retired(is, compared) {
            note.push_str("; a required field stays in use");
        }
    }

    /// Adds that a slot is gone.
    pub(crate) fn push_gone(&self, note: &mut Note, old: TypeId, slot: u16) {
        let Some(was) = field_at(self.old.schema(), old, slot) else {
            return;
        };
        self.push_field_name(note, old, was.name.as_str());
        note.push_str("is gone");
        self.old.push_field_line(note, old, was.slot);
        note.push_str("; a field is never removed, but marked (deprecated)");
    }

    /// Adds that a new field is required.
    pub(crate) fn push_new_required(&self, note: &mut Note, old: TypeId, slot: u16) {
        let Some(twin) = self.twin(old) else {
            return;
        };
        let Some(is) = field_at(self.new.schema(), twin.new, slot) else {
            return;
        };
        self.push_field_name(note, old, is.name.as_str());
        note.push_str("is new and required");
        self.new.push_field_line(note, twin.new, is.slot);
        note.push_str("; old data doesn't have it");
    }
}
