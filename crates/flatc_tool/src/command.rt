//! What the command does with files and streams: reads a file, and writes a text or the line of a fault.
mod heard;
mod line_buffer;
mod lines;
mod reports;

pub use fb_heard::Heard;
pub use heard::{read_fault, take_all};
pub use lines::fault_line;
pub use reports::{report, report_noted};
