//! Why a schema text is refused, as findings.
#![tactic(auto)]

mod bad_defaults;
mod bad_ids;
mod bad_values;
mod broken_rules;
mod declared;
mod file_kinds;
mod first_names;
mod layouts;
mod missing_signs;
mod refusals;
mod schema_faults;
mod schema_tokens;
mod statements;
mod struct_fields;
mod syntax_faults;
mod type_names;
mod unexpected_tokens;
mod unknown_types;
mod unsupported;

pub use declared::{declarations_of, fields_of, name_of, type_in};
pub use file_kinds::{FileKind, kind_of_file};
pub use layouts::layout_of;
pub use refusals::Which;
pub use schema_faults::schema_findings;
