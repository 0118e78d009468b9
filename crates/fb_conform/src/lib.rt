//! How a schema may grow, and values under the schemas of one line.
#![tactic(auto)]

mod bodies;
mod breaches;
mod comparison;
mod difference;
mod hearers;
mod kept_fields;
mod laws;
mod members;
mod names;
mod shapes;
mod structs;
mod twins;
mod walk;

pub use breaches::Breach;
pub use comparison::{all_breaches, conform, differences};
pub use difference::Difference;
pub use laws::{
    back_holds, carried_fits, carried_holds, carries_on, conforms_on, kept_unless_moved,
    means_carried, names_carry,
};
pub use names::{MovedName, moved_names};
pub use twins::twin_of;
