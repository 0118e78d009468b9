//! The converter for C: schemas that are kept, and JSON to buffers and back under them.
#![tactic(auto)]

mod contents;
mod fault_calls;
mod fault_lists;
mod faults;
mod handles;
mod held;
mod kept;
mod loose;
mod messages;
mod options;
mod schemas;
mod status;

pub use faults::{Fault, FaultName};
pub use handles::{Bytes, SchemaHandle};
pub use options::Options;
