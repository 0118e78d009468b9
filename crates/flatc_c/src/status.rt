//! How a call ended.
ghost use Rattle.std.specs.Prelude.{◌≡◌, ◌⊎◌};
ghost use Rattle.fb_declare.specs.SchemaTexts.{IsWant};
ghost use Rattle.flatc_tool.specs.Jobs.{IsNotMemory};

use flatc_tool::{
    BuildFault, JsonFault, LayoutFault, SchemaFault, SchemaTextFault, SyntaxFault, TextFault,
    ToolFault,
};

/// The call did what was asked.
pub(crate) const OK: u32 = 0;
/// The input is refused; the fault says why.
pub(crate) const REFUSED: u32 = 1;
/// Memory ran out.
pub(crate) const NO_MEMORY: u32 = 2;
/// A handle has no schema.
pub(crate) const NO_SCHEMA: u32 = 3;
/// The size of the options is none that their struct may have, or the depth is not 1 to 127.
pub(crate) const BAD_OPTIONS: u32 = 4;
/// The fault is none that a call wrote.
pub(crate) const NO_FAULT: u32 = 5;

/// The status of a schema text's refusal: that memory ran out says nothing of the text.
pub(crate) fn schema_status(fault: SchemaTextFault) -> u32
    ensures refused { (result ≡ 1) → ¬ IsWant fault }
    ensures status { (result ≡ 1) ⊎ (result ≡ 2) }
{
    match fault {
        SchemaTextFault::Syntax(SyntaxFault::Memory)
        | SchemaTextFault::Schema(SchemaFault::Memory)
        | SchemaTextFault::Layout(LayoutFault::Memory) => NO_MEMORY,
        _ => REFUSED,
    }
}

/// The status of a refusal: that memory ran out says nothing of the input.
pub(crate) fn status_of(fault: ToolFault) -> u32
    ensures refused { (result ≡ 1) → IsNotMemory fault }
    ensures status { (result ≡ 1) ⊎ (result ≡ 2) }
{
    match fault {
        ToolFault::Memory
        | ToolFault::Json(JsonFault::Memory)
        | ToolFault::Build(BuildFault::Memory)
        | ToolFault::Text(TextFault::Memory) => NO_MEMORY,
        ToolFault::Schema(fault) | ToolFault::Older(fault) | ToolFault::Newer(fault) => {
            schema_status(fault)
        }
        _ => REFUSED,
    }
}
