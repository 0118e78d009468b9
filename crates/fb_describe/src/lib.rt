//! What the numbers of a schema mean, in lines for people.
#![tactic(auto)]

mod bodies;
mod description;
mod fields;
mod stored_types;

pub use description::description_of;
