//! A schema with the sizes that its types take.
#![tactic(auto)]

mod bodies;
mod extents;
mod faults;
mod greatest;
mod laws;
mod layouts;
mod required;
mod structs;
mod tables;

pub use extents::kind_in;
pub use faults::LayoutFault;
pub use laws::{
    greatest_aligned, kinds_aligned, layout_is_well_made, least_multiple_of_four,
    no_layout_where_refused, none_aligned_to_zero, one_layout, sizes_are_multiples, sizes_fit,
    structs_have_few_parts, tables_aligned,
};
pub use layouts::{Layout, lay};
