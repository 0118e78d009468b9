//! What is wrong with a text that isn't JSON.
ghost use Rattle.std.specs.Prelude.{◌≡◌, IfOk, IfSome};
ghost use Rattle.fb_findings.specs.Findings.{IsLineOf};
ghost use Rattle.fb_faults.specs.declared.faults.ToolFault.TheVariants.{BadJson};

use crate::syntax::flaw_of;
use crate::tokens::Flaw;
use fb_explain_schemas::{FileKind, kind_of_file};
use fb_faults::ToolFault;
use fb_findings::{Finding, Note, Source};
use std::alloc::{AllocError, Global};
use std::str;

/// Where bytes stop being JSON.
fn flaw_in(bytes: &[u8]) -> Option<Flaw> {
    match str::from_utf8(bytes) {
        Ok(text) => flaw_of(text),
        Err(error) => Some(Flaw::at(error.valid_up_to(), "the text isn't UTF-8 from here on")),
    }
}

/// What a file is that isn't JSON at all.
fn another_kind(bytes: &[u8]) -> Option<&'static str> {
    match kind_of_file(bytes)? {
        FileKind::Buffer => Some("this looks like a buffer: 'flatc json' makes JSON of it"),
        FileKind::Schema => Some("this looks like a schema: SCHEMA comes first, then JSON"),
        FileKind::Json => None,
    }
}

/// Where a text isn't JSON, and why.
pub fn bad_json_finding<'s>(alloc: Global, source: Source<'s>) -> Result<Finding<'s>, AllocError>
    ensures fault { IfOk result (λ f. f.fault ≡ BadJson) }
    ensures line { IfOk result (λ f. IfSome f.place (IsLineOf source.entry.bytes.now)) }
{
    let mut note = Note::new(alloc);
    if let Some(what) = another_kind(source.bytes) {
        note.push_str(what);
        return Finding::in_file(ToolFault::BadJson, source.path, None, note);
    }
    match flaw_in(source.bytes) {
        Some(flaw) => {
            note.push_str(flaw.sentence);
            Finding::in_text(ToolFault::BadJson, source, flaw.offset as u64, note)
        }
        None => Ok(Finding::of(alloc, ToolFault::BadJson)),
    }
}
