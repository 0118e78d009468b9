//! A refusal in lines.
ghost use Rattle.std.specs.Prelude.{IfOk, chars};
ghost use Rattle.std.specs.String.{string_bytes};
ghost use Rattle.fb_explain_pages.specs.Lines.{IsPage};

use crate::refusals::findings;
use fb_explain_pages::page_of;
use fb_faults::ToolFault;
use fb_findings::Sources;
use std::alloc::{AllocError, Global};

/// What is wrong and where, in lines of at most `columns` columns, 48 to 120, that each end with a line feed.
///
/// What isn't printable is escaped. The sources are those of the job that was refused.
pub fn explain(
    alloc: Global,
    fault: ToolFault,
    sources: &Sources<'_>,
    columns: usize,
) -> Result<String, AllocError>
    ensures plain { IfOk result (λ text. IsPage (chars (string_bytes text))) }
{
    let findings = findings(alloc, fault, sources)?;
    page_of(alloc, findings.as_slice(), columns)
}
