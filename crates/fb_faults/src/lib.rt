//! Why the tool refuses, whichever layer does.
#![tactic(auto)]

mod faults;

pub use faults::ToolFault;
