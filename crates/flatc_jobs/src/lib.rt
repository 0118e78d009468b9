//! What the command does with bytes: the flags of a line as options, what a job finds, what is written of messages.
#![tactic(auto)]

mod flags;
mod messages;
mod verdicts;

pub use flags::{Flags, limits};
pub use messages::{Outcome, next_output};
pub use verdicts::{chain_end, compared, conforms_line, encoded, end_of, verdict_of, verified};
