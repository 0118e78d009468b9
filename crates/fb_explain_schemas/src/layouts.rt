//! Layouts of schema texts that are read again.
ghost use Rattle.std.specs.Prelude.{◌≡◌, ◌↔◌, None, IfOk, IfSome, IsSome};
ghost use Rattle.fb_layout.specs.Laid.{LaidSchema};
ghost use Rattle.fb_declare.specs.SchemaTexts.{IsAccepted, IsWant};

use fb_declare::{SchemaFault, SchemaTextFault, schema_of};
use fb_layout::{Layout, LayoutFault};
use fb_syntax::SyntaxFault;
use std::alloc::{AllocError, Global};

/// What a schema text's memory was for, where it ran out.
pub(crate) fn memory_use_of_schema(fault: SchemaTextFault) -> Option<&'static str>
    ensures want { IsSome result ↔ IsWant fault }
{
    match fault {
        SchemaTextFault::Syntax(SyntaxFault::Memory) => Some("the schema was read"),
        SchemaTextFault::Schema(SchemaFault::Memory) => Some("the declarations were checked"),
        SchemaTextFault::Layout(LayoutFault::Memory) => Some("sizes were worked out"),
        _ => None,
    }
}

/// The layout of a schema text; `None` where it is refused.
pub fn layout_of(alloc: Global, text: &[u8]) -> Result<Option<Layout>, AllocError>
    ensures accepted { IfOk result (λ found. IfSome found (IsAccepted text.now)) }
    ensures refused { IfOk result (λ found. found ≡ None → (L : LaidSchema) → ¬ (IsAccepted text.now L)) }
{
    match schema_of(alloc, text) {
        Ok(layout) => Ok(Some(layout)),
        Err(fault) => match memory_use_of_schema(fault) {
            Some(_) => Err(AllocError),
            None => Ok(None),
        },
    }
}
