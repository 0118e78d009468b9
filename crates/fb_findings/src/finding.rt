//! What is wrong at one place.
ghost use Rattle.std.specs.Prelude.{◌≡◌, None, Some, IfOk, IfSome, OnOk};
ghost use Rattle.fb_findings.specs.Findings.{offset_in, IsLineOf};

use crate::note::Note;
use crate::sources::{Location, Source};
use fb_faults::ToolFault;
use fb_schema::{Schema, field_at, type_name};
use std::alloc::{AllocError, Global};

/// How bad a finding is.
#[derive(Clone, Copy, Debug, PartialEq, Eq)]
pub enum Severity {
    /// The job is refused by it.
    Error,
    /// The job succeeds, but its result may not mean what was intended.
    Warning,
}

/// The part of an input that is shown with a finding.
#[derive(Clone, Copy, Debug, PartialEq, Eq)]
pub enum Excerpt<'a> {
    Nothing,
    /// The line of an offset in a text.
    Line(&'a [u8], usize),
    /// The bytes round an offset in a buffer.
    Bytes(&'a [u8], usize),
}

/// One thing that is wrong, without layout.
///
/// Its number, its name, and its type and slot by number are its fault's.
#[derive(Drop)]
pub struct Finding<'a> {
    pub fault: ToolFault,
    pub severity: Severity,
    /// Where it is; of a comparison in the new schema's text.
    pub place: Option<Location<'a>>,
    /// Of a comparison the place in the old schema's text.
    pub old_place: Option<Location<'a>>,
    /// The way from the root to the value, as `weapons[2].name`; empty where there is none.
    pub path: String,
    /// The names of the fault's type and field, in the old schema where two are compared; empty where there is none.
    pub type_name: String,
    pub field_name: String,
    /// What is wrong.
    pub sentence: String,
    /// What is wrong in particular, each a sentence.
    pub details: Vec<String>,
    /// What to do about it, where the sentence doesn't say it.
    pub advice: String,
    pub excerpt: Excerpt<'a>,
    /// Whether the sentence of a finding before it says it too.
    pub is_covered: bool,
}

impl<'a> Finding<'a> {
    /// A finding of a fault, without a place and without words.
    pub fn of(alloc: Global, fault: ToolFault) -> Finding<'a>
        ensures fault { result.fault ≡ fault }
        ensures nowhere { result.place ≡ None }
    {
        Finding {
            fault,
            severity: Severity::Error,
            place: None,
            old_place: None,
            path: String::new(alloc),
            type_name: String::new(alloc),
            field_name: String::new(alloc),
            sentence: String::new(alloc),
            details: Vec::new(alloc),
            advice: String::new(alloc),
            excerpt: Excerpt::Nothing,
            is_covered: false,
        }
    }

    /// What is wrong at an offset in a text, with the line there.
    pub fn in_text(
        fault: ToolFault,
        source: Source<'a>,
        offset: u64,
        note: Note,
    ) -> Result<Finding<'a>, AllocError>
        ensures fault { IfOk result (λ f. f.fault ≡ fault) }
        ensures place { IfOk result (λ f. offset_in f.place ≡ Some offset) }
        ensures line { IfOk result (λ f. IfSome f.place (IsLineOf source.entry.bytes.now)) }
    {
        let mut finding = Finding::of(note.alloc(), fault);
        finding.place = Some(Location::in_text(source, offset));
        finding.excerpt = Excerpt::Line(source.bytes, offset as usize);
        finding.sentence = note.into_text()?;
        Ok(finding)
    }

    /// What is wrong with a file, or at an offset in it that has no line.
    pub fn in_file(
        fault: ToolFault,
        path: &'a str,
        offset: Option<u64>,
        note: Note,
    ) -> Result<Finding<'a>, AllocError>
        ensures fault { IfOk result (λ f. f.fault ≡ fault) }
        ensures place { IfOk result (λ f. offset_in f.place ≡ offset) }
        ensures no_line { IfOk result (λ f. IfSome f.place (λ l. l.position ≡ None)) }
    {
        let mut finding = Finding::of(note.alloc(), fault);
        finding.place = Some(Location::in_file(path, offset));
        finding.sentence = note.into_text()?;
        Ok(finding)
    }

    /// What memory was for, where it ran out.
    pub fn of_memory(alloc: Global, fault: ToolFault, what: &str) -> Result<Finding<'a>, AllocError>
        ensures fault { IfOk result (λ f. f.fault ≡ fault) }
        ensures nowhere { IfOk result (λ f. f.place ≡ None) }
    {
        let mut note = Note::new(alloc);
        note.push_str("memory ran out while ");
        note.push_str(what);
        let mut finding = Finding::of(alloc, fault);
        finding.sentence = note.into_text()?;
        Ok(finding)
    }

    /// Sets the names of the fault's type and field, from the schema.
    pub fn name_place(&mut self, alloc: Global, schema: &Schema) -> Result<(), AllocError>
        ensures fault { OnOk result (self.new.fault ≡ self.old.fault) }
        ensures place { OnOk result (self.new.place ≡ self.old.place) }
    {
        let Some(owner) = self.fault.owner() else {
            return Ok(());
        };
        self.type_name = String::from_str(alloc, type_name(schema, owner))?;
        let field = self
            .fault
            .slot()
            .and_then(|slot| field_at(schema, owner, slot));
        if let Some(field) = field {
            self.field_name = String::from_str(alloc, field.name.as_str())?;
        }
        Ok(())
    }
}
