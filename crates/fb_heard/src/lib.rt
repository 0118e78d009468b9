//! All the bytes of a reader, and whether its last read failed.
#![tactic(auto)]

mod heard;

pub use heard::{Heard, TakeFault, take_all};
