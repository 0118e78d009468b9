//! What the names, types, numbers and slots that a schema text declares mean.
#![tactic(auto)]

mod attributes;
mod basic_types;
mod defaults;
mod enum_values;
mod ids;
mod meanings;
mod members;
mod namespaces;
mod outline;
mod resolve;
mod resolved;
mod slots;
mod structs;
mod type_uses;
mod value_names;
mod walk;

pub use attributes::{FieldAttributes, is_alignment, is_left_out};
pub use basic_types::{BASIC_TYPES, base_named, is_float, is_reserved};
pub use defaults::Given;
pub use enum_values::{EnumValues, bits_of, integer_type, may_be_written, values_over};
pub use ids::{WrongIds, table_slots, wrong_ids};
pub use meanings::{Meaning, type_name};
pub use members::{is_table, member_read, table_of};
pub use outline::{Outline, RootRead, TypeRead, name_of_type, word_of};
pub use resolve::Resolved;
pub use resolved::{
    ResolvedDecl, ResolvedEnum, ResolvedField, ResolvedMember, ResolvedStruct, ResolvedTable,
    ResolvedType, ResolvedUnion, ResolvedValue, UnionCodeSlot,
};
pub use slots::union_in;
pub use structs::{align_of_type, forced_align, natural_of_type, parts_read};
