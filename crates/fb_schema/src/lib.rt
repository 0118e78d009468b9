//! The data types of a FlatBuffers schema.
#![tactic(auto)]

mod few_names;
mod finding;
mod insides;
mod keys;
mod kinds;
mod name_index;
mod named;
mod number_index;
mod paths;
mod schema;
mod types;
mod written_names;

pub use few_names::{FEW_NAMES, field_among};
pub use insides::{field_at, fields_of, members_of, values_of};
pub use kinds::{Base, Kind, Shape, TypeId};
pub use schema::Schema;
pub use types::{Body, FieldInfo, TypeInfo};
pub use written_names::{base_name, kind_name, type_name};
