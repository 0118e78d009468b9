//! JSON texts of values, written piece by piece.
#![tactic(auto)]

mod faults;
mod flags;
mod indents;
mod laws;
mod lines;
mod members;
mod names;
mod nested;
mod noted;
mod numbers;
mod plain;
mod quotes;
mod shown;
mod stored;
mod text;
mod unnamed;
mod values;
mod vectors;
mod write_buffer;

pub use faults::{TextFault, WriteFault};
pub use indents::Spacing;
pub use laws::{names_are_utf8, spaced_texts_are_utf8, texts_are_utf8};
pub use noted::Noted;
pub use shown::{Shown, ValueHead};
pub use text::{write_shown, write_spaced, write_text};
pub use unnamed::first_unnamed;
pub use values::Style;
