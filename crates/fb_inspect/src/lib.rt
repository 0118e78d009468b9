//! What the bytes of a buffer are, in lines for people.
#![tactic(auto)]

mod cover;
mod details;
mod headers;
mod known_visits;
mod lister;
mod listing;
mod nodes;
mod notes;
mod page_lines;
mod parts_shown;
mod paths;
mod pieces;
mod values_shown;

pub use headers::header_lines;
pub use listing::Listing;
