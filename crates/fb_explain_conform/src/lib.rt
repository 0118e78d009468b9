//! What two schemas differ in, as findings.
#![tactic(auto)]

mod breach_fields;
mod breach_types;
mod comparisons;
mod moved_names;
mod places;
mod shifts;
mod sides;
mod type_details;

pub use comparisons::{breach_findings, moved_findings};
