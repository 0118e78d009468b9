//! Findings as lines.
ghost use Rattle.std.specs.Prelude.{IfOk, chars};
ghost use Rattle.std.specs.String.{string_bytes};
ghost use Rattle.fb_explain_pages.specs.Lines.{IsPage};

use crate::dumps::push_dump;
use crate::excerpts::push_excerpt;
use crate::wrapping::Page;
use fb_faults::ToolFault;
use fb_findings::{Excerpt, Finding, Location, Note, Severity};
use std::alloc::{AllocError, Global};

/// Adds a file's path, and the line and column where there are any.
fn push_location(line: &mut Note, place: &Location<'_>) {
    line.push_str(place.path);
    if let Some(position) = place.position {
        line.push_str(":");
        line.push_number(position.line as u64);
        line.push_str(":");
        line.push_number(position.column as u64);
    }
    line.push_str(": ");
}

/// Whether a finding's own sentence names its places, so that no line begins with one.
fn names_its_places(fault: ToolFault) -> bool {
    matches!(fault, ToolFault::Breach(_) | ToolFault::NameMoved(_))
}

/// Adds the number and name of a breach, of which there may be several.
fn push_number(line: &mut Note, fault: ToolFault) {
    if let ToolFault::Breach(breach) = fault {
        line.push_str(" [");
        line.push_number(u64::from(breach.number()));
        line.push_str(" ");
        line.push_str(breach.name());
        line.push_str("]");
    }
}

/// Adds a sentence after its place and the path to the value.
fn push_sentence(page: &mut Page, finding: &Finding<'_>) {
    let line = &mut page.line;
    if matches!(finding.severity, Severity::Warning) {
        line.push_str("warning: ");
    }
    if let Some(place) = &finding.place
        && !names_its_places(finding.fault)
    {
        push_location(line, place);
    }
    if !finding.path.is_empty() {
        line.push_str(finding.path.as_str());
        line.push_str(": ");
    }
    line.push_str(finding.sentence.as_str());
    push_number(line, finding.fault);
    page.end_line();
}

fn push_shown(page: &mut Page, excerpt: Excerpt<'_>) {
    match excerpt {
        Excerpt::Nothing => {}
        Excerpt::Line(text, offset) => push_excerpt(page, text, offset),
        Excerpt::Bytes(bytes, offset) => push_dump(page, bytes, offset),
    }
}

/// Adds a finding; nothing of one that has no words.
fn push_finding(page: &mut Page, finding: &Finding<'_>) {
    if finding.sentence.is_empty() || finding.is_covered {
        return;
    }
    push_sentence(page, finding);
    for detail in &finding.details {
        page.line.push_str("  ");
        page.push_line(detail.as_str());
    }
    push_shown(page, finding.excerpt);
    if !finding.advice.is_empty() {
        page.push_line(finding.advice.as_str());
    }
}

/// Findings in lines of at most `columns` columns, 48 to 120, that each end with a line feed.
///
/// What isn't printable is escaped.
pub fn page_of(
    alloc: Global,
    findings: &[Finding<'_>],
    columns: usize,
) -> Result<String, AllocError>
    ensures plain { IfOk result (λ text. IsPage (chars (string_bytes text))) }
{
    let mut page = Page::new(alloc, columns);
    for finding in findings {
        push_finding(&mut page, finding);
    }
    page.into_text()
}
