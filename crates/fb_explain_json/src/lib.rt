//! Why a JSON text is refused under a schema, as findings.
#![tactic(auto)]

mod bad_json;
mod faults;
mod names;
mod numbers;
mod places;
mod rules;
mod syntax;
mod tokens;

pub use bad_json::bad_json_finding;
pub use faults::json_finding;
