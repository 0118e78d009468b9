//! What is wrong, in one sentence.
ghost use Rattle.std.specs.Prelude.{◌≡◌};
ghost use Rattle.fb_explain_records.specs.Places.{severity_word};

use fb_findings::{Finding, Severity};
use std::alloc::{AllocError, Global};

/// The word for how bad a finding is.
pub(crate) fn word_of(severity: Severity) -> &'static str
    ensures { result.now ≡ severity_word severity }
{
    match severity {
        Severity::Error => "error",
        Severity::Warning => "warning",
    }
}

/// The sentence of a finding with its details; the fault's own sentence where the finding has none.
pub(crate) fn message_of(alloc: Global, finding: &Finding<'_>) -> Result<String, AllocError> {
    let fault = finding.fault;
    let mut message = if finding.sentence.is_empty() {
        format!(in alloc; "{fault}")?
    } else {
        String::from_str(alloc, finding.sentence.as_str())?
    };
    for detail in &finding.details {
        message.push_str("; ")?;
        message.push_str(detail.as_str())?;
    }
    Ok(message)
}
