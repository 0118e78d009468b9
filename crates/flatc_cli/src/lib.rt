//! The command line of `flatc`: its words, and what they ask for.
#![tactic(auto)]

mod commands;
mod flags;
mod inspections;
mod job;
mod line;
mod matches;
mod misuse;
mod request;
mod requests;
mod tasks;

pub use commands::VERSION;
pub use job::{Job, job_of};
pub use line::request_of;
pub use misuse::usage_error;
pub use request::{
    Chain, Comparison, ErrorFormat, Form, Inputs, Inspection, Output, Request, Task, Verb,
};
