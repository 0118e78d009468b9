//! What the calls make of worked examples.
use flatc_tool::{EncodeOptions, Limits};
use std::alloc::AllocError;

mod check;
mod describe;
mod examples;
mod faults;
mod integers;
mod job_of;
mod messages;
mod options;
mod pieces;
mod print_to;
mod report;
mod take_all;
mod values;
mod views;
mod writers;

fn usual_limits() -> Limits {
    EncodeOptions::new().limits
}

/// Adds a piece so many times.
fn push_times(text: &mut String, piece: &str, times: u32) -> Result<(), AllocError> {
    for _ in 0..times {
        text.push_str(piece)?;
    }
    Ok(())
}
