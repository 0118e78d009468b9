//! JSON texts in pieces: where one may be cut, and what `serde_json` reads of the whole.
#![tactic(auto)]

mod blanks;
mod cut;
mod cuts;
mod cutter;
mod json_texts;
mod laws;
mod strings;
mod walk;

pub use blanks::leading_blanks;
pub use cut::{Member, Piece, Run, cut_array, cut_object};
pub use cuts::Cuts;
pub use json_texts::{MOST_BRACKETS, count_elements, is_json_at};
pub use laws::{
    array_is_that_of_its_elements, blanks_change_nothing, cut_array_is_read, cut_array_is_utf8,
    cut_members_are_the_text, cut_object_is_read, cut_object_is_utf8, cut_runs_are_the_text,
    element_is_read_without_brackets, elements_make_the_array, lexemes_split,
    members_make_the_object, read_run_ends_outside, read_text_ends_outside, runs_make_the_array,
    runs_make_the_object, text_is_read_without_brackets, tokens_split,
};
pub use strings::string_of;
