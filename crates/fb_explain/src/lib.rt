//! What is wrong with a job, as findings and in lines for people.
#![tactic(auto)]

mod explanations;
mod memory;
mod refusals;

pub use explanations::explain;
pub use fb_explain_pages::{COLUMNS, fault_page, page_of};
pub use fb_findings::{
    Excerpt, FileFailure, Finding, Location, Position, Severity, Source, Sources,
};
pub use refusals::{findings, warnings};
