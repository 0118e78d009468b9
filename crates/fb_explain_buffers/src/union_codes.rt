//! A union in a buffer whose code has no member.
ghost use Rattle.std.specs.Prelude.{◌≡◌, None, IfOk, IfSome};
ghost use Rattle.fb_findings.specs.Findings.{offset_in};

use crate::paths::push_path;
use crate::union_paths::{Unnamed, first_unnamed};
use fb_faults::ToolFault;
use fb_findings::{Finding, Note, Sources, names_in, push_names};
use fb_json::Place;
use fb_layout::Layout;
use fb_read::{Entries, verify_framed};
use fb_schema::{Kind, Shape, field_at, members_of, type_name};
use std::alloc::{AllocError, Global};

/// The first such union of the buffer.
fn unnamed_in(
    alloc: Global,
    layout: &Layout,
    sources: &Sources<'_>,
) -> Result<Option<Unnamed>, AllocError> {
    let root = verify_framed(
        layout,
        sources.input.bytes,
        sources.limits,
        sources.raw_binary,
        sources.size_prefixed,
        &mut Entries::new(),
    );
    match root {
        Ok(root) => first_unnamed(alloc, root),
        Err(_) => Ok(None),
    }
}

/// Adds the members of a union that is in a slot.
fn push_members(note: &mut Note, layout: &Layout, place: Place) {
    let schema = layout.schema();
    let Some(slot) = place.slot else {
        return;
    };
    let Some(field) = field_at(schema, place.owner, slot) else {
        return;
    };
    if let Shape::One(Kind::Code(union) | Kind::Union(union)) = field.shape {
        note.push_str("; ");
        note.push_cut(type_name(schema, union).as_bytes());
        note.push_str(" has ");
        let names = names_in(note.alloc(), members_of(schema, union));
        if let Some(names) = note.keep(names) {
            push_names(note, names.as_slice());
        }
    }
}

/// The first union of a buffer whose code has no member: the path to it, its code, and the members that there are.
pub fn unnamed_finding<'s>(
    alloc: Global,
    layout: &Layout,
    sources: &Sources<'s>,
    fault: ToolFault,
    place: Place,
) -> Result<Finding<'s>, AllocError>
    ensures fault { IfOk result (λ f. f.fault ≡ fault) }
    ensures place { IfOk result (λ f. offset_in f.place ≡ None) }
    ensures line { IfOk result (λ f. IfSome f.place (λ l. l.position ≡ None)) }
{
    let Some(mut found) = unnamed_in(alloc, layout, sources)? else {
        return Ok(Finding::of(alloc, fault));
    };
    found.steps.as_mut_slice().reverse();
    let mut path = Note::new(alloc);
    push_path(&mut path, layout, found.steps.as_slice());
    let mut note = Note::new(alloc);
    note.push_str("the union's code ");
    note.push_number(u64::from(found.code));
    note.push_str(" is one that the schema doesn't have");
    push_members(&mut note, layout, place);
    let mut finding = Finding::in_file(fault, sources.input.path, None, note)?;
    finding.path = path.into_text()?;
    finding.name_place(alloc, layout.schema())?;
    Ok(finding)
}
