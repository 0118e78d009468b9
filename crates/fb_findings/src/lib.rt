//! What is wrong with a text, a buffer or a pair of schemas, as values without layout.
#![tactic(auto)]

mod finding;
mod line_starts;
mod near_names;
mod note;
mod positions;
mod shapes;
mod sources;
mod words;

pub use finding::{Excerpt, Finding, Severity};
pub use line_starts::LineStarts;
pub use near_names::{names_in, nearest, push_few, push_meant, push_names, push_nearest};
pub use note::Note;
pub use positions::{Position, line_start};
pub use shapes::{push_shape, range_of_base};
pub use sources::{FileFailure, Location, Source, Sources};
pub use words::{WORD_BYTES, front_len, is_one_of, last_word, value_of};
