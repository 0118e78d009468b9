//! What the declarations of a FlatBuffers schema text give, and where they are at fault; the text's layout.
#![tactic(auto)]

mod attribute_faults;
mod enum_faults;
mod faults;
mod field_faults;
mod laws;
mod name_set;
mod root;
mod schema;
mod schema_layouts;
mod tables;
mod types;
mod unions;

pub use faults::SchemaFault;
pub use laws::{refused_text_has_no_layout, text_has_one_layout};
pub use schema::{declare, one_schema};
pub use schema_layouts::{SchemaTextFault, schema_of};
