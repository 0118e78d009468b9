//! Buffers that are longer than any may be.
use super::usual_limits;
use flatc_tool::{Entries, Layout, schema_of, verify};
use std::test::Fail;

const NUMBER: &[u8] = b"table T { a:int; } root_type T;";

/// One byte more than a buffer may have.
const TOO_LONG: usize = 2_147_483_648;

/// The number and the offset of what bytes are refused with.
fn refusal(layout: &Layout, bytes: &[u8]) -> Option<(u8, Option<u64>)> {
    match verify(layout, bytes, usual_limits(), false, &mut Entries::new()) {
        Ok(_) => None,
        Err(fault) => Some((fault.number(), fault.offset())),
    }
}

#[test]
fn a_buffer_of_a_byte_too_much(rt: HostRuntime) -> Result<(), Fail> {
    let layout = schema_of(rt.alloc(), NUMBER)?;
    let bytes = vec![in rt.alloc(); 0u8; TOO_LONG]?;
    assert!(rt; refusal(&layout, bytes.as_slice()) == Some((51, Some(2_147_483_647))));
    Ok(())
}
