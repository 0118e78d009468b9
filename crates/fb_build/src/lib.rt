//! Lays the bytes of a value.
#![tactic(auto)]

mod blocks;
mod buffers;
mod defaults;
mod faults;
mod laws;
mod laying;
mod noting;
mod padding;
mod plans;
mod references;
mod roots;
mod tail;
mod taped_data;
mod taped_fields;
mod taped_lengths;
mod taped_ops;
mod taped_references;
mod taped_vtables;

pub use buffers::plan_root;
pub use defaults::is_default;
pub use faults::BuildFault;
pub use laws::{
    chunks_join, covered_by_its_value, covered_whole, examples_are_covered, examples_have_slack,
    few_outside, inline_kept_in_front, made_in_front, made_whole, once_where_distinct,
    reached_is_listed, reached_kept_in_front, runs_kept_by_more, tight_kept_in_front,
    zero_is_computed, zero_outside,
};
pub use noting::{Noting, is_reference};
pub use plans::TapePlan;
