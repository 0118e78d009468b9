//! What is wrong with a job and what it was done with.
ghost use Rattle.std.specs.Prelude.{ℕ, ◌≡◌, List, false, map, All, IfOk, IfSome};
ghost use Rattle.fb_layout.specs.Laid.{LaidSchema};
ghost use Rattle.fb_declare.specs.SchemaTexts.{IsAccepted};
ghost use Rattle.fb_build.specs.declared.faults.BuildFault.TheVariants.{TooBig};
ghost use Rattle.fb_text.specs.declared.faults.WriteFault.TheVariants.{WriteFailed};
ghost use Rattle.fb_faults.specs.declared.faults.ToolFault.TheVariants.{Write, Build};
ghost use Rattle.fb_findings.specs.Findings.{BeginsWith, IsLineOf, IsPlacedIn};
ghost use Rattle.fb_explain_conform.specs.Listed.{AreMoved};
ghost use Rattle.fb_explain.specs.Refusals.{text_of, is_comparison, AreCompared};

use crate::memory::memory_use;
use fb_build::BuildFault;
use fb_explain_buffers::{buffer_finding, unnamed_finding};
use fb_explain_conform::{breach_findings, moved_findings};
use fb_explain_json::{bad_json_finding, json_finding};
use fb_explain_schemas::{Which, layout_of, schema_findings};
use fb_faults::ToolFault;
use fb_findings::{FileFailure, Finding, Note, Severity, Source, Sources};
use fb_text::{TextFault, WriteFault};
use std::alloc::{AllocError, Global};

/// A finding without words, at the fault's own offset.
fn bare_finding<'s>(
    alloc: Global,
    fault: ToolFault,
    sources: &Sources<'s>,
) -> Result<Finding<'s>, AllocError>
    ensures fault { IfOk result (λ f. f.fault ≡ fault) }
    ensures place { IfOk result (IsPlacedIn (text_of fault sources.now)) }
{
    Finding::in_file(fault, sources.input.path, fault.offset(), Note::new(alloc))
}

/// A file that can't be read or written.
fn file_finding<'s>(
    alloc: Global,
    fault: ToolFault,
    failure: Option<FileFailure<'s>>,
) -> Result<Finding<'s>, AllocError>
    ensures fault { IfOk result (λ f. f.fault ≡ fault) }
    ensures line { (text : List ℕ) → IfOk result (λ f. IfSome f.place (IsLineOf text)) }
{
    let Some(failure) = failure else {
        return Ok(Finding::of(alloc, fault));
    };
    let mut note = Note::new(alloc);
    note.push_str(failure.reason);
    Finding::in_file(fault, failure.path, None, note)
}

/// Standard output that took only a part of a text.
fn write_finding<'s>(
    alloc: Global,
    written: u64,
    sources: &Sources<'s>,
) -> Result<Finding<'s>, AllocError>
    ensures fault { IfOk result (λ f. f.fault ≡ Write (WriteFailed written)) }
    ensures place { (text : List ℕ) → IfOk result (IsPlacedIn text) }
{
    let mut note = Note::new(alloc);
    note.push_str("standard output took no more after ");
    note.push_number(written);
    note.push_str(" bytes");
    if let Some(failure) = sources.failure {
        note.push_str(": ");
        note.push_str(failure.reason);
    }
    let fault = ToolFault::Write(WriteFault::WriteFailed(written));
    let mut finding = Finding::of(alloc, fault);
    finding.sentence = note.into_text()?;
    Ok(finding)
}

/// A buffer that would be too large.
fn size_finding<'s>(alloc: Global) -> Result<Finding<'s>, AllocError>
    ensures fault { IfOk result (λ f. f.fault ≡ Build TooBig) }
    ensures place { (text : List ℕ) → IfOk result (IsPlacedIn text) }
{
    let mut finding = Finding::of(alloc, ToolFault::Build(BuildFault::TooBig));
    finding.sentence = String::from_str(
        alloc,
        "the buffer may take more than 2147483647 bytes, the most that offsets reach",
    )?;
    Ok(finding)
}

/// What is wrong with a JSON text or a buffer under its schema.
fn finding_under_layout<'s>(
    alloc: Global,
    fault: ToolFault,
    sources: &Sources<'s>,
) -> Result<Finding<'s>, AllocError>
    ensures fault { IfOk result (λ f. f.fault ≡ fault) }
    ensures place { IfOk result (IsPlacedIn (text_of fault sources.now)) }
{
    let Some(layout) = layout_of(alloc, sources.schema.bytes)? else {
        return bare_finding(alloc, fault, sources);
    };
    match fault {
        ToolFault::Json(fault) => json_finding(alloc, &layout, sources, fault),
        ToolFault::Read(fault) => buffer_finding(alloc, &layout, sources, fault),
        ToolFault::Text(TextFault::NoMemberName(place)) => {
            unnamed_finding(alloc, &layout, sources, fault, place)
        }
        ToolFault::Write(WriteFault::NoMemberName(place)) => {
            unnamed_finding(alloc, &layout, sources, fault, place)
        }
        _ => bare_finding(alloc, fault, sources),
    }
}

/// The only finding of a fault that isn't a schema text's or a comparison's.
fn one_finding<'s>(
    alloc: Global,
    fault: ToolFault,
    sources: &Sources<'s>,
) -> Result<Finding<'s>, AllocError>
    ensures fault { IfOk result (λ f. f.fault ≡ fault) }
    ensures place { IfOk result (IsPlacedIn (text_of fault sources.now)) }
{
    if let Some(what) = memory_use(fault) {
        return Finding::of_memory(alloc, fault, what);
    }
    match fault {
        ToolFault::BadJson => bad_json_finding(alloc, sources.input),
        ToolFault::Write(WriteFault::WriteFailed(written)) => {
            write_finding(alloc, written, sources)
        }
        ToolFault::Build(BuildFault::TooBig) => size_finding(alloc),
        ToolFault::FileRead => file_finding(alloc, ToolFault::FileRead, sources.failure),
        ToolFault::FileWrite => file_finding(alloc, ToolFault::FileWrite, sources.failure),
        ToolFault::FileTooLong => file_finding(alloc, ToolFault::FileTooLong, sources.failure),
        _ => finding_under_layout(alloc, fault, sources),
    }
}

/// What is wrong with a job, or with what it was done with.
///
/// It is the fault itself; of a schema text that has what isn't supported, each place that has; of schemas that were
/// compared, each breach, or each name that moved. The sources are those of the job that was refused.
pub fn findings<'s>(
    alloc: Global,
    fault: ToolFault,
    sources: &Sources<'s>,
) -> Result<Vec<Finding<'s>>, AllocError>
    ensures first { IfOk result (λ list. is_comparison fault ≡ false → BeginsWith fault list.items) }
    ensures places { IfOk result (λ list. is_comparison fault ≡ false
        → All (IsPlacedIn (text_of fault sources.now)) list.items) }
    ensures compared { (L L' : LaidSchema)
        → IsAccepted sources.now.schema.bytes.now L → IsAccepted sources.now.input.bytes.now L'
        → IfOk result (λ list. AreCompared fault L L' (map (λ f. f.fault) list.items)) }
{
    match fault {
        ToolFault::Schema(fault) => schema_findings(alloc, sources.schema, Which::Only, fault),
        ToolFault::Older(fault) => schema_findings(alloc, sources.schema, Which::Older, fault),
        ToolFault::Newer(fault) => schema_findings(alloc, sources.input, Which::Newer, fault),
        ToolFault::Breach(_) => breach_findings(alloc, sources.schema, sources.input),
        ToolFault::NameMoved(_) => {
            moved_findings(alloc, sources.schema, sources.input, Severity::Error)
        }
        _ => {
            let mut findings = Vec::new(alloc);
            findings.push(one_finding(alloc, fault, sources)?)?;
            Ok(findings)
        }
    }
}

/// What may be meant otherwise under a new schema that conforms: each name that stands for another field or member,
/// since programs and JSON texts go by names.
pub fn warnings<'s>(
    alloc: Global,
    old: Source<'s>,
    new: Source<'s>,
) -> Result<Vec<Finding<'s>>, AllocError>
    ensures all { (L L' : LaidSchema) → IsAccepted old.entry.bytes.now L → IsAccepted new.entry.bytes.now L'
        → IfOk result (λ list. AreMoved L L' (map (λ f. f.fault) list.items)) }
{
    moved_findings(alloc, old, new, Severity::Warning)
}
