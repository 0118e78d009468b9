//! Typed values, their counts, and what bytes hold.
#![tactic(auto)]

mod faults;
mod framing;
mod laws;
mod limits;
mod values;

pub use faults::ReadFault;
pub use framing::front_of;
pub use laws::{
    cells_of_place, cells_of_value, each_table_reached, element_lies, entry_lies,
    fault_of_least_path, fault_of_place, first_missing, fits_where_held, held_is_message,
    kept_by_multiple, kept_in_front, lies_in_whole, message_is_whole, nesting_of_depth,
    old_kept_in_front, one_least_fault, one_message_in_front, one_value, only_old_by_tables,
    part_lies, value_of_place, value_or_fault, value_where_all_keep, value_where_lies,
};
pub use limits::{Limits, MOST_BYTES, USUAL_CELLS, USUAL_DEPTH};
pub use values::Value;
