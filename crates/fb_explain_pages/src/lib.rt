//! How findings are shown to people: plain lines, with excerpts; and the page of each fault's number.
#![tactic(auto)]

mod dumps;
mod excerpts;
mod fault_pages;
mod finding_lines;
mod lines;
mod wrapping;

pub use fault_pages::fault_page;
pub use finding_lines::page_of;
pub use lines::COLUMNS;
pub use wrapping::Page;
