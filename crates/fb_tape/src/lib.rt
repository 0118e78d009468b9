//! What is to be laid of a value, operation by operation, in the order of laying.
#![tactic(auto)]

mod inline_bytes;
mod known_vtables;
mod laying_order;
mod open_fields;
mod ops;
mod rooms;
mod stored_tables;
mod tape;

pub use open_fields::OpenFields;
pub use ops::{Alignment, NotedField, Op};
pub use rooms::{buffer_room, table_room, text_room, vector_room};
pub use tape::Tape;
