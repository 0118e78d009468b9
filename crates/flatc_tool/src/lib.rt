//! The tool's jobs over texts and bytes.
#![tactic(auto)]

mod buffers;
mod checks;
pub mod command;
mod evolution;
mod headline;
mod jobs;
mod json_texts;
mod laws;
mod options;
mod prints;

pub use buffers::{encode, encode_plan};
pub use checks::check;
pub use evolution::{conform_names, conform_texts};
pub use fb_build::{BuildFault, TapePlan};
pub use fb_conform::{Breach, MovedName, conform, moved_names};
pub use fb_declare::{SchemaFault, SchemaTextFault, schema_of};
pub use fb_faults::ToolFault;
pub use fb_json::{JsonFault, Place};
pub use fb_layout::{Layout, LayoutFault};
pub use fb_read::{Entries, Entry, FixedView, Items, View, split_prefixed, verify, verify_framed};
pub use fb_schema::TypeId;
pub use fb_syntax::SyntaxFault;
pub use fb_text::{Noted, TextFault, WriteFault};
pub use fb_value::{Limits, ReadFault, Value, nesting_of_depth};
pub use headline::{
    chains_carry, chains_conform, json_is_carried, old_programs_read, old_texts_are_carried,
    old_texts_are_read, other_json_is_refused, others_are_refused, streams_are_split,
};
pub use jobs::to_binary;
pub use json_texts::{decode, decode_to};
pub use options::{DecodeOptions, EncodeOptions};
pub use prints::{print_to, to_json};
