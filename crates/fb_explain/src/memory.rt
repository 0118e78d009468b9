//! Where memory ran out.
ghost use Rattle.std.specs.Prelude.{◌≡◌, None, IsSome};
ghost use Rattle.fb_findings.specs.Findings.{own_offset};

use fb_build::BuildFault;
use fb_faults::ToolFault;
use fb_json::JsonFault;
use fb_text::TextFault;
use fb_value::ReadFault;

/// What the memory was for, where it ran out; `None` of any other fault, and of those of schema texts.
pub(crate) fn memory_use(fault: ToolFault) -> Option<&'static str>
    ensures nowhere { IsSome result → own_offset fault ≡ None }
{
    match fault {
        ToolFault::Json(JsonFault::Memory) => Some("the JSON text was converted"),
        ToolFault::Build(BuildFault::Memory) => Some("the buffer was built"),
        ToolFault::Read(ReadFault::Memory) => Some("the buffer was read"),
        ToolFault::Text(TextFault::Memory) => Some("the text was printed"),
        ToolFault::Memory => Some("a file or a JSON text was read, or names were compared"),
        _ => None,
    }
}
