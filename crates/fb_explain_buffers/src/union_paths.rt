//! The first union of a buffer whose code no member has.
use fb_read::{Entry, Items, Step, View};
use fb_schema::Kind;
use std::alloc::{AllocError, Global};

/// A union whose code no member has.
#[derive(Drop)]
pub(crate) struct Unnamed {
    /// The steps that lead to it, the last one first.
    pub(crate) steps: Vec<Step>,
    pub(crate) code: u8,
}

impl Unnamed {
    fn after(self, step: Step) -> Result<Option<Unnamed>, AllocError> {
        let Unnamed { mut steps, code } = self;
        steps.push(step)?;
        Ok(Some(Unnamed { steps, code }))
    }
}

#[cycle(unnamed)]
fn first_in_items(alloc: Global, items: Items<'_>) -> Result<Option<Unnamed>, AllocError> {
    for i in 0..items.count() {
        if let Some(found) = first_in_entry(alloc, items.item(i))? {
            return found.after(Step::Element(i));
        }
    }
    Ok(None)
}

/// The first union, in the order of slots and elements, whose code no member has.
#[cycle(unnamed)]
pub(crate) fn first_unnamed(alloc: Global, view: View<'_>) -> Result<Option<Unnamed>, AllocError> {
    // after the stored slots there are only defaults
    for slot in 0..view.stored_slots() {
        if let Some(found) = first_in_entry(alloc, view.slot(slot))? {
            return found.after(Step::Slot(view.type_id(), slot));
        }
    }
    Ok(None)
}

#[cycle(unnamed)]
fn first_in_entry(alloc: Global, entry: Entry<'_>) -> Result<Option<Unnamed>, AllocError> {
    match entry {
        Entry::Unknown(code) => Ok(Some(Unnamed {
            steps: Vec::new(alloc),
            code,
        })),
        Entry::Table(view) | Entry::Member(_, view) => first_unnamed(alloc, view),
        Entry::Vector(items) => match items.kind {
            Kind::Table(_) => first_in_items(alloc, items),
            _ => Ok(None), // no union is in anything else that elements can be
        },
        Entry::Absent | Entry::Number(_) | Entry::Text(_) | Entry::Fixed(_) => Ok(None),
    }
}
