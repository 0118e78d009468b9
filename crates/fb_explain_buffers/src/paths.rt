//! The path to a place in a buffer, by the names of the schema.
use fb_findings::Note;
use fb_layout::Layout;
use fb_read::Step;
use fb_schema::field_at;

/// Adds a step: a field's name after a dot, or a number in brackets.
fn push_step(note: &mut Note, layout: &Layout, step: Step, is_first: bool) {
    match step {
        Step::Reference => {}
        Step::Slot(owner, slot) => {
            if !is_first {
                note.push_str(".");
            }
            match field_at(layout.schema(), owner, slot) {
                Some(field) => note.push_cut(field.name.as_bytes()),
                None => note.push_str("?"),
            }
        }
        Step::Element(index) => {
            note.push_str("[");
            note.push_number(u64::from(index));
            note.push_str("]")
        }
    }
}

/// Adds a path from the root, as `weapons[2].name`; nothing for the root itself.
pub(crate) fn push_path(note: &mut Note, layout: &Layout, steps: &[Step]) {
    let mut is_first = true;
    for step in steps {
        push_step(note, layout, *step, is_first);
        is_first = is_first && matches!(step, Step::Reference);
    }
}
