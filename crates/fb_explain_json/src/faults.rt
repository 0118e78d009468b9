//! What is wrong with a JSON text under a schema.
ghost use Rattle.std.specs.Prelude.{◌≡◌, IfOk, IfSome};
ghost use Rattle.fb_findings.specs.Findings.{IsLineOf};
ghost use Rattle.fb_faults.specs.declared.faults.ToolFault.{ToolFault};

use crate::places::{Name, element_offset, member_offset, rest_of, unknown_member};
use crate::rules::{BrokenValue, push_rule};
use fb_encode::{PIECE, text_fault_path};
use fb_faults::ToolFault;
use fb_findings::{Finding, Note, Sources};
use fb_json::{JsonContext, JsonFault, JsonStep};
use fb_layout::Layout;
use fb_schema::field_at;
use std::alloc::{AllocError, Global};
use std::str;

/// The name of a step's field.
fn field_name(layout: &Layout, step: JsonStep) -> Option<&str> {
    match step {
        JsonStep::Slot(owner, slot) | JsonStep::Field(owner, slot) => {
            Some(field_at(layout.schema(), owner, slot)?.name.as_str())
        }
        JsonStep::Element(_) => None,
    }
}

/// Adds a path from the root, as `weapons[2].damage`.
fn push_path(note: &mut Note, layout: &Layout, steps: &[JsonStep]) {
    let mut is_first = true;
    for step in steps {
        match step {
            JsonStep::Element(index) => {
                note.push_str("[");
                note.push_number(*index as u64);
                note.push_str("]");
            }
            _ => {
                if !is_first {
                    note.push_str(".");
                }
                note.push_cut(field_name(layout, *step).unwrap_or("?").as_bytes());
            }
        }
        is_first = false;
    }
}

/// The offset of what a step leads to, from the offset of what it leads from.
fn step_offset(
    alloc: Global,
    layout: &Layout,
    text: &str,
    step: JsonStep,
) -> Result<Option<usize>, AllocError> {
    match step {
        JsonStep::Element(index) => element_offset(alloc, text, index),
        _ => match field_name(layout, step) {
            Some(name) => member_offset(alloc, text, name),
            None => Ok(None),
        },
    }
}

/// An offset in a JSON text, and whether the value at a path's end is there, or the object that lacks it.
#[derive(Clone, Copy)]
struct Found {
    offset: usize,
    is_there: bool,
}

/// The offset of the value at a path's end, and whether it is there; else of the last object on the way.
fn offset_of_path(
    alloc: Global,
    layout: &Layout,
    text: &str,
    steps: &[JsonStep],
) -> Result<Found, AllocError> {
    let mut offset = text.len().saturating_sub(text.trim_start().len());
    for step in steps {
        match step_offset(alloc, layout, rest_of(text, offset), *step)? {
            Some(further) => offset = offset.saturating_add(further),
            None => return Ok(Found {
                offset,
                is_there: false,
            }),
        }
    }
    Ok(Found {
        offset,
        is_there: true,
    })
}

/// Where the value at a path's end is, and the unknown member there that is reported.
fn found_at(
    alloc: Global,
    layout: &Layout,
    text: &str,
    fault: JsonFault,
    steps: &[JsonStep],
) -> Result<(Option<Name>, Found), AllocError> {
    let found = offset_of_path(alloc, layout, text, steps)?;
    let unknown = match fault {
        JsonFault::UnknownMember(place) => {
            unknown_member(
                alloc,
                layout.schema(),
                place.owner,
                rest_of(text, found.offset),
            )?
        }
        _ => None,
    };
    Ok((unknown, found))
}

/// What is wrong at the end of a path.
fn finding_at<'s>(
    source: JsonContext<'_>,
    sources: &Sources<'s>,
    text: &str,
    fault: JsonFault,
    steps: &[JsonStep],
) -> Result<Finding<'s>, AllocError>
    ensures fault { IfOk result (λ f. f.fault ≡ ToolFault.Json fault) }
    ensures line { IfOk result (λ f. IfSome f.place (IsLineOf sources.now.input.bytes.now)) }
{
    let JsonContext { alloc, layout, .. } = source;
    let (unknown, found) = found_at(alloc, layout, text, fault, steps)?;
    let unknown_at = unknown.as_ref().map_or(0, |name| name.at);
    let unknown_name = unknown.as_ref().map(|name| name.text.as_str());
    let value = BrokenValue {
        text: rest_of(text, found.offset),
        is_there: found.is_there,
        is_element: matches!(steps.last(), Some(JsonStep::Element(_))),
    };
    let mut note = Note::new(alloc);
    push_rule(
        &mut note,
        layout,
        sources.limits,
        fault,
        value,
        unknown_name,
    );
    let offset = found.offset.saturating_add(unknown_at) as u64;
    let mut finding = Finding::in_text(ToolFault::Json(fault), sources.input, offset, note)?;
    let mut path = Note::new(alloc);
    push_path(&mut path, layout, steps);
    finding.path = path.into_text()?;
    finding.name_place(alloc, layout.schema())?;
    Ok(finding)
}

/// What is wrong with a JSON text under a schema.
pub fn json_finding<'s>(
    alloc: Global,
    layout: &Layout,
    sources: &Sources<'s>,
    fault: JsonFault,
) -> Result<Finding<'s>, AllocError>
    ensures fault { IfOk result (λ f. f.fault ≡ ToolFault.Json fault) }
    ensures line { IfOk result (λ f. IfSome f.place (IsLineOf sources.now.input.bytes.now)) }
{
    let source = JsonContext {
        alloc,
        layout,
        unknown: sources.unknown_json,
    };
    let steps = text_fault_path(source, sources.input.bytes, sources.limits, PIECE)?;
    match (str::from_utf8(sources.input.bytes), steps) {
        (Ok(text), Some(steps)) => finding_at(source, sources, text, fault, steps.as_slice()),
        _ => Ok(Finding::of(alloc, ToolFault::Json(fault))),
    }
}
