//! Findings as lines and as JSON objects, for editors, logs and programs.
#![tactic(auto)]

mod context;
mod end_columns;
mod escapes;
mod messages;
mod objects;
mod short;

pub use context::{Context, StreamMessage};
pub use escapes::push_escaped;
pub use objects::json_lines;
pub use short::short_lines;
