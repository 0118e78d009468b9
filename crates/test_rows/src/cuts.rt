//! Schema texts that are cut off.
use flatc_tool::schema_of;
use std::alloc::Global;

/// The numbers of the layers' faults for memory that ran out.
const MEMORY: [u8; 3] = [7, 23, 32];

/// Whether a text without its end gives a layout or a fault of its own.
fn is_settled(alloc: Global, text: &[u8]) -> bool {
    match schema_of(alloc, text) {
        Ok(_) => true,
        Err(fault) => !MEMORY.contains(&fault.number()),
    }
}

/// Whether each cut of a schema text, between any two of its bytes, gives a layout or a fault of
/// its own.
pub(crate) fn are_cuts_settled(alloc: Global, text: &str) -> bool {
    let bytes = text.as_bytes();
    (0..bytes.len()).all(|end| is_settled(alloc, &bytes[..end]))
}
