//! The files of the command: what it reads, and what it writes without losing what was there.
#![tactic(auto)]

mod inputs;
mod opened;
mod outputs;
mod progress;
mod reasons;
mod run_status;
mod standard_paths;
mod target_paths;
mod targets;
mod texts;
mod unchanged;
mod window;

pub use fb_heard::TakeFault;
pub use inputs::Input;
pub use outputs::{Content, write_file, write_out};
pub use progress::Progress;
pub use reasons::Reasoned;
pub use run_status::RunStatus;
pub use standard_paths::{are_read_once, is_standard_input, is_standard_output};
pub use target_paths::{target_in, targets_in};
pub use targets::{Target, TargetMisuse, targets_of};
pub use texts::{Failure, Texts};
pub use window::Window;
