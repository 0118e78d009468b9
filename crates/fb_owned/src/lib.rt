//! Values that a program owns.
#![tactic(auto)]

mod buffers;
mod carried_values;
mod copies;
mod counts;
mod equality;
mod fit;
mod noting;
mod plans;
mod reader;
mod rooms;
mod shapes;
mod shown_values;
mod texts;
mod values;
mod versions;

pub use buffers::{build, plan};
pub use carried_values::carry;
pub use copies::{copy, copy_part};
pub use counts::{cells, depth, whole};
pub use equality::same;
pub use fit::fits;
pub use plans::Plan;
pub use reader::{read, read_framed};
pub use rooms::room;
pub use texts::{spaced_text_of, text_of};
pub use values::value_of_view;
