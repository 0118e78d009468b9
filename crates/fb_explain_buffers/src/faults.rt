//! What is wrong with a buffer.
ghost use Rattle.std.specs.Prelude.{◌≡◌, None, IfOk, IfSome};
ghost use Rattle.fb_value.specs.FaultTable.{offset_of};
ghost use Rattle.fb_findings.specs.Findings.{offset_in};
ghost use Rattle.fb_faults.specs.declared.faults.ToolFault.{ToolFault};

use crate::other_kinds::another_kind;
use crate::paths::push_path;
use crate::prefixes::{other_framing, push_count};
use crate::references::last_reference;
use fb_faults::ToolFault;
use fb_findings::{Excerpt, Finding, Note, Sources};
use fb_layout::Layout;
use fb_read::{Entries, Framing, Step, fault_path};
use fb_value::{Limits, ReadFault, front_of};
use std::alloc::{AllocError, Global};

/// The bytes of a number at an offset.
fn word_at(bytes: &[u8], offset: usize) -> Option<[u8; 4]> {
    bytes.get(offset..)?.first_chunk::<4>().copied()
}

/// Adds a text and a number after it.
fn push_part(note: &mut Note, text: &str, number: u64) {
    note.push_str(text);
    note.push_number(number);
}

/// Adds what is wrong with a table's vtable.
fn push_vtable(note: &mut Note, bytes: &[u8], offset: u64) {
    push_part(note, "the vtable of the table at ", offset);
    let Some(word) = word_at(bytes, offset as usize) else {
        note.push_str(" can't be found: the table ends past the buffer");
        return;
    };
    let place = i128::from(offset) - i128::from(i32::from_le_bytes(word));
    let Ok(start) = u64::try_from(place) else {
        note.push_str(" would be before the buffer");
        return;
    };
    push_part(note, " would be at ", start);
    if start % 2 != 0 {
        note.push_str(", which isn't even");
        return;
    }
    if let Some([low, high, ..]) = bytes.get(start as usize..) {
        let size = u16::from_le_bytes([*low, *high]);
        push_part(note, " and have a size of ", u64::from(size));
        if size % 2 != 0 || size < 4 {
            note.push_str(", where an even number from 4 on is right");
            return;
        }
    }
    push_part(note, ", and the buffer ends at ", bytes.len() as u64);
}

fn push_identifiers(note: &mut Note, layout: &Layout, bytes: &[u8], offset: u64) {
    let start = offset.min(8) as usize;
    note.push_str("the file identifier is ");
    note.push_name(bytes.get(start..start + 4).unwrap_or(&[]));
    if let Some(identifier) = layout.schema().identifier() {
        note.push_str(", the schema's is ");
        note.push_name(&identifier);
    }
    note.push_str(" (--raw-binary skips this check)");
}

fn push_byte(note: &mut Note, bytes: &[u8], offset: u64) {
    match bytes.get(offset as usize) {
        Some(byte) => {
            push_part(note, "the byte at ", offset);
            push_part(note, " is ", u64::from(*byte));
        }
        None => push_part(note, "there is no byte at ", offset),
    }
}

/// Adds that a place isn't a multiple of an alignment, or how far it is past the buffer.
fn push_misaligned(note: &mut Note, bytes: &[u8], offset: u64) {
    let len = bytes.len() as u64;
    push_part(note, "what is stored at ", offset);
    if offset < len {
        note.push_str(" must be at a multiple of its alignment, and isn't");
        return;
    }
    push_part(note, " would be ", offset.saturating_sub(len));
    push_part(note, " bytes past the buffer, which ends at ", len);
}

/// Adds a sentence on the rule that a buffer breaks, with the numbers that break it.
fn push_rule(note: &mut Note, layout: &Layout, limits: Limits, bytes: &[u8], fault: ReadFault) {
    let rest = match fault {
        ReadFault::Short(len) => {
            push_part(note, "the buffer's length is ", len);
            ": too short for the root's offset and the file identifier"
        }
        ReadFault::TooLong(most) => {
            push_part(note, "the buffer is longer than ", most);
            " bytes"
        }
        ReadFault::WrongIdentifier(at) => return push_identifiers(note, layout, bytes, at),
        ReadFault::Misaligned(at) => return push_misaligned(note, bytes, at),
        ReadFault::OutOfBounds(at) => {
            push_part(note, "what is stored at ", at);
            push_part(
                note,
                " ends past the buffer, which ends at ",
                bytes.len() as u64,
            );
            ""
        }
        ReadFault::ZeroOffset(at) => {
            push_part(note, "the offset at ", at);
            " is 0: it must lead on to a table, string or vector"
        }
        ReadFault::BadVtable(at) => return push_vtable(note, bytes, at),
        ReadFault::MissingRequired(at, slot) => {
            push_part(note, "the table at ", at);
            push_part(note, " has nothing in slot ", u64::from(slot));
            ", which is required"
        }
        ReadFault::NoTerminator(at) => {
            push_byte(note, bytes, at);
            ", where a string's final 0 must be"
        }
        ReadFault::BadUtf8(at) => {
            push_byte(note, bytes, at);
            ": the string isn't UTF-8 from here on"
        }
        ReadFault::UnionMismatch(at) => {
            push_byte(note, bytes, at);
            ": the union's type says that it has a value, and it has none"
        }
        ReadFault::TooDeep(at) => {
            push_part(note, "the table at ", at);
            push_part(
                note,
                " is nested deeper than ",
                u64::from(limits.most_depth()),
            );
            " levels"
        }
        ReadFault::TooManyCells(at) => {
            push_part(note, "at ", at);
            push_part(
                note,
                " the buffer has more than ",
                u64::from(limits.most_cells()),
            );
            " tables, strings, vectors, elements and bytes of strings"
        }
        ReadFault::Memory => return,
    };
    note.push_str(rest);
}

/// Adds what is wrong with the offset of the root, which a buffer has after its count.
fn push_root_offset(note: &mut Note, bytes: &[u8], prefixed: bool, fault: ReadFault) -> bool {
    let len = bytes.len() as u64;
    let says = if prefixed {
        "bytes 4 to 7 say that it is at "
    } else {
        "bytes 0 to 3 say that it is at "
    };
    match fault {
        ReadFault::Misaligned(at) if at < len => {
            push_part(note, says, at);
            note.push_str(", which isn't a multiple of 4");
        }
        ReadFault::OutOfBounds(at) | ReadFault::Misaligned(at) => {
            push_part(note, says, at);
            push_part(note, ", and the buffer has ", len);
            note.push_str(" bytes");
        }
        _ => return false,
    }
    true
}

/// Adds where an offset leads to that leads out of the buffer; whether it does.
fn push_far_offset(note: &mut Note, bytes: &[u8], at: u64, fault: ReadFault) -> bool {
    let len = bytes.len() as u64;
    let target = match fault {
        ReadFault::OutOfBounds(target) | ReadFault::Misaligned(target) if target >= len => target,
        _ => return false,
    };
    push_part(note, "bytes ", at);
    push_part(note, " to ", at.saturating_add(3));
    push_part(note, " say that it is at ", target);
    push_part(note, ", and the buffer has ", len);
    note.push_str(" bytes");
    true
}

/// The steps to what is wrong after a buffer's header.
fn steps_to(
    alloc: Global,
    layout: &Layout,
    sources: &Sources<'_>,
) -> Result<Option<Vec<Step>>, AllocError> {
    let framing = Framing {
        raw: sources.raw_binary,
        prefixed: sources.size_prefixed,
    };
    fault_path(
        alloc,
        layout,
        sources.input.bytes,
        sources.limits,
        framing,
        &mut Entries::new(),
    )
}

/// What leads to a fault.
#[derive(Clone, Copy)]
struct Origin {
    /// Whether the root itself is wrong, or what is before it.
    is_root: bool,
    /// The position of the offset that leads to the fault's.
    reference: Option<usize>,
}

/// Adds what is wrong with a buffer. Returns the bytes to show with it.
fn push_fault<'s>(
    note: &mut Note,
    layout: &Layout,
    sources: &Sources<'s>,
    fault: ReadFault,
    origin: Origin,
) -> Excerpt<'s> {
    let bytes = sources.input.bytes;
    let prefixed = sources.size_prefixed;
    if origin.is_root && push_root_offset(note, bytes, prefixed, fault) {
        return Excerpt::Bytes(bytes, front_of(prefixed));
    }
    if prefixed && push_count(note, bytes, fault) {
        return excerpt_at(bytes, fault);
    }
    if let Some(at) = origin.reference
        && push_far_offset(note, bytes, at as u64, fault)
    {
        return Excerpt::Bytes(bytes, at);
    }
    push_rule(note, layout, sources.limits, bytes, fault);
    excerpt_at(bytes, fault)
}

/// The bytes at a fault.
fn excerpt_at(bytes: &[u8], fault: ReadFault) -> Excerpt<'_> {
    match fault.offset() {
        Some(offset) => Excerpt::Bytes(bytes, offset as usize),
        None => Excerpt::Nothing,
    }
}

/// The position of the offset that a path ends with.
fn reference_in(sources: &Sources<'_>, steps: &[Step]) -> Option<usize> {
    let root = front_of(sources.size_prefixed);
    last_reference(sources.input.bytes, root, steps)
}

/// What is wrong with a buffer that isn't a file of another kind.
fn finding_in<'s>(
    alloc: Global,
    layout: &Layout,
    sources: &Sources<'s>,
    fault: ReadFault,
) -> Result<Finding<'s>, AllocError>
    ensures fault { IfOk result (λ f. f.fault ≡ ToolFault.Read fault) }
    ensures place { IfOk result (λ f. offset_in f.place ≡ offset_of fault) }
    ensures line { IfOk result (λ f. IfSome f.place (λ l. l.position ≡ None)) }
{
    let mut note = Note::new(alloc);
    let mut path = Note::new(alloc);
    let mut origin = Origin {
        is_root: false,
        reference: None,
    };
    if let Some(steps) = steps_to(alloc, layout, sources)? {
        push_path(&mut path, layout, steps.as_slice());
        origin = Origin {
            is_root: path.is_empty(),
            reference: reference_in(sources, steps.as_slice()),
        };
        if origin.is_root {
            note.push_str("the root: ");
        }
    }
    let excerpt = push_fault(&mut note, layout, sources, fault, origin);
    let refusal = ToolFault::Read(fault);
    let mut finding = Finding::in_file(refusal, sources.input.path, fault.offset(), note)?;
    finding.path = path.into_text()?;
    finding.excerpt = excerpt;
    finding.advice = other_framing(alloc, layout, sources)?;
    Ok(finding)
}

/// What is wrong with a buffer.
pub fn buffer_finding<'s>(
    alloc: Global,
    layout: &Layout,
    sources: &Sources<'s>,
    fault: ReadFault,
) -> Result<Finding<'s>, AllocError>
    ensures fault { IfOk result (λ f. f.fault ≡ ToolFault.Read fault) }
    ensures place { IfOk result (λ f. offset_in f.place ≡ offset_of fault) }
    ensures line { IfOk result (λ f. IfSome f.place (λ l. l.position ≡ None)) }
{
    match another_kind(sources.input.bytes) {
        Some(what) => {
            let mut note = Note::new(alloc);
            note.push_str(what);
            let refusal = ToolFault::Read(fault);
            Finding::in_file(refusal, sources.input.path, fault.offset(), note)
        }
        None => finding_in(alloc, layout, sources, fault),
    }
}
