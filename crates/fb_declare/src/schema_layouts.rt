//! Schema texts and their layouts.
ghost use Rattle.std.specs.Prelude.{◌≡◌, ◌↔◌, ℕ, IfOk, IfErr, Err, IsUtf8};
ghost use Rattle.std.specs.Str.Lossy.{utf8_valid_len};
ghost use Rattle.fb_syntax.specs.declared.faults.SyntaxFault.TheVariants.{NotUtf8};
ghost use Rattle.fb_layout.specs.Laid.{LaidSchema};
ghost use Rattle.fb_declare.specs.declared.schema_layouts.SchemaTextFault.TheVariants.{Syntax};
ghost use Rattle.fb_declare.specs.SchemaTexts.{IsAccepted, IsRefused, IsWant};

use crate::faults::SchemaFault;
use crate::laws::refused_text_has_no_layout;
use crate::schema::declare;
use fb_layout::{Layout, LayoutFault, lay};
use fb_schema::TypeId;
use fb_syntax::{SyntaxFault, parse};
use std::alloc::Global;
use thiserror::Error;

/// The refusal of the first layer that refuses a schema text: its tokens and grammar, its
/// declarations, or the sizes of its types.
#[derive(Clone, Copy, Debug, PartialEq, Eq, Drop, Error)]
pub enum SchemaTextFault {
    #[error(transparent)]
    Syntax(SyntaxFault),
    #[error(transparent)]
    Schema(SchemaFault),
    #[error(transparent)]
    Layout(LayoutFault),
}

impl SchemaTextFault {
    ghost use Rattle.std.specs.Prelude.{◌≡◌, option_map};
    ghost use Rattle.fb_declare.specs.TextFaultTable.{number_of, name_of, offset_of, owner_of};

    /// The fault's number; no other fault has it.
    pub fn number(self) -> u8
        ensures { result ≡ number_of self }
    {
        match self {
            SchemaTextFault::Syntax(fault) => fault.number(),
            SchemaTextFault::Schema(fault) => fault.number(),
            SchemaTextFault::Layout(fault) => fault.number(),
        }
    }

    /// The fault's name: that of its variant in the layer that refuses.
    pub fn name(self) -> &'static str
        ensures { result.now ≡ name_of self }
    {
        match self {
            SchemaTextFault::Syntax(fault) => fault.name(),
            SchemaTextFault::Schema(fault) => fault.name(),
            SchemaTextFault::Layout(fault) => fault.name(),
        }
    }

    /// Its offset, in bytes from the text's start, if it has one.
    pub fn offset(self) -> Option<u64>
        ensures { result ≡ offset_of self }
    {
        match self {
            SchemaTextFault::Syntax(fault) => fault.offset(),
            SchemaTextFault::Schema(fault) => fault.offset(),
            SchemaTextFault::Layout(fault) => fault.offset(),
        }
    }

    /// The declared type that it is in, if it has such a place.
    pub fn owner(self) -> Option<TypeId>
        ensures { option_map (λ owner. owner.0) result ≡ owner_of self }
    {
        match self {
            SchemaTextFault::Layout(fault) => fault.type_id(),
            _ => None,
        }
    }
}

/// The layout of the schema that a text declares.
///
/// The error is that of the first layer that refuses, and of the faults of declarations the least.
/// Unless memory ran out, it means that the text has no layout.
pub fn schema_of(alloc: Global, text: &[u8]) -> Result<Layout, SchemaTextFault>
    ensures accepted { IfOk result (IsAccepted text.now) }
    ensures refused { IfErr result (IsRefused text.now) }
    ensures not_utf8 { (at : ℕ) → ((result ≡ Err (Syntax (NotUtf8 at)))
        ↔ (¬ (IsUtf8 text.now) × (at ≡ utf8_valid_len text.now))) }
    ensures exact { IfErr result (λ f. ¬ (IsWant f) → (L : LaidSchema) → ¬ (IsAccepted text.now L)) }
{
    refused_text_has_no_layout();
    let decls = parse(alloc, text).map_err(SchemaTextFault::Syntax)?;
    let schema = declare(alloc, &decls).map_err(SchemaTextFault::Schema)?;
    lay(alloc, schema).map_err(|(fault, _schema)| SchemaTextFault::Layout(fault))
}
