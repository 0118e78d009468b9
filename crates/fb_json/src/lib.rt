//! What JSON means.
#![tactic(auto)]

mod absent;
mod codes;
mod context;
mod elements;
mod entries;
mod faults;
mod flags;
mod laws;
mod leaves;
mod members;
mod numbered_members;
mod paths;
mod room;
mod root;
mod scalars;
mod slot_members;
mod step;
mod structs;
mod tables;
mod trail;
mod tree;

pub use absent::{entry_without_member, is_absent, is_null};
pub use codes::code_of_slot;
pub use context::JsonContext;
pub use elements::{number_of, struct_parts};
pub use entries::TableSlot;
pub use faults::{JsonFault, Place};
pub use flags::has_flags;
pub use laws::{
    all_that_is_meant, faults_are_broken, first_fault_refuses, limits_are_reached, meant_fits,
    meant_is_whole, only_what_is_meant,
};
pub use leaves::text_of;
pub use paths::{fault_path, trace, trace_slot};
pub use room::Room;
pub use root::value_of;
pub use slot_members::{SlotMembers, members_by_slot};
pub use step::JsonStep;
pub use trail::JsonTrail;
