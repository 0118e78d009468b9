//! A buffer's size prefix: what is wrong with it, and whether there is one.
use fb_findings::{Note, Sources};
use fb_layout::Layout;
use fb_read::{Entries, split_prefixed, verify_framed};
use fb_value::ReadFault;
use std::alloc::{AllocError, Global};

/// Adds what is wrong with a count; returns whether that is the fault.
pub(crate) fn push_count(note: &mut Note, bytes: &[u8], fault: ReadFault) -> bool {
    let [a, b, c, d, rest @ ..] = bytes else {
        return false;
    };
    let count = u64::from(u32::from_le_bytes([*a, *b, *c, *d]));
    let left = rest.len() as u64;
    match fault {
        ReadFault::OutOfBounds(0) => {}
        ReadFault::OutOfBounds(at) if at == count + 4 && count < left => {}
        _ => return false,
    }
    note.push_str("bytes 0 to 3 say that ");
    note.push_number(count);
    note.push_str(" bytes follow, and ");
    note.push_number(left);
    note.push_str(" do");
    true
}

// A header, a vtable without slots, and a table, after a count.
const SHORTEST_MESSAGE: usize = 16;

/// How many size-prefixed buffers the bytes are, one after the other; none where one is cut, or shorter than a
/// buffer can be.
fn count_messages(bytes: &[u8]) -> Option<u64> {
    let mut left = bytes;
    let mut count = 0u64;
    for _turn in 0..bytes.len() {
        match split_prefixed(left) {
            Ok(Some((message, rest))) if message.len() >= SHORTEST_MESSAGE => {
                count = count.saturating_add(1);
                left = rest;
            }
            Ok(None) => return Some(count),
            Ok(Some(_)) | Err(_) => return None,
        }
    }
    left.is_empty().then_some(count)
}

/// Whether the schema's file identifier is where a buffer without a prefix has it.
fn has_identifier(layout: &Layout, bytes: &[u8]) -> bool {
    match (layout.schema().identifier(), bytes) {
        (Some(identifier), [_, _, _, _, a, b, c, d, ..]) => identifier == [*a, *b, *c, *d],
        _ => false,
    }
}

/// Adds a hint that the bytes are framed differently than they were read, if there is one.
fn push_other_framing(note: &mut Note, layout: &Layout, sources: &Sources<'_>) {
    let bytes = sources.input.bytes;
    let is_bare = sources.size_prefixed
        && verify_framed(
            layout,
            bytes,
            sources.limits,
            sources.raw_binary,
            false,
            &mut Entries::new(),
        )
        .is_ok();
    if is_bare {
        note.push_str("without a size prefix it is sound: leave out --size-prefixed");
        return;
    }
    if has_identifier(layout, bytes) {
        return;
    }
    match count_messages(bytes) {
        Some(1) if !sources.size_prefixed => note.push_str(
            "the first four bytes are the length of what follows: a size-prefixed buffer? add \
             --size-prefixed",
        ),
        Some(count) if count > 1 => {
            note.push_str("these may be ");
            note.push_number(count);
            note.push_str(
                " size-prefixed buffers, one after the other: --lines reads a stream of them",
            );
        }
        _ => {}
    }
}

/// A hint that the bytes are framed differently than they were read; empty if there is none.
pub(crate) fn other_framing(
    alloc: Global,
    layout: &Layout,
    sources: &Sources<'_>,
) -> Result<String, AllocError> {
    let mut note = Note::new(alloc);
    push_other_framing(&mut note, layout, sources);
    note.into_text()
}
