//! From a JSON text straight to a buffer.
#![tactic(auto)]

mod elements;
mod entries;
mod excerpts;
mod faults;
mod numbers;
mod objects;
mod outlines;
mod parts;
mod paths;
mod reader;
mod runs;
mod slot_texts;
mod stand_ins;
mod steps;
mod tables;
mod texts;
mod trees;
mod unnoted;
mod vectors;

pub use faults::{EncodeFault, JsonTextFault};
pub use paths::text_fault_path;
pub use texts::{PIECE, encode_text, plan_text};
