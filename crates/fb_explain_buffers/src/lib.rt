//! Why a buffer is refused under a schema, as findings.
#![tactic(auto)]

mod faults;
mod other_kinds;
mod paths;
mod prefixes;
mod references;
mod union_codes;
mod union_paths;

pub use faults::buffer_finding;
pub use union_codes::unnamed_finding;
