//! Two schema texts that were compared.
ghost use Rattle.std.specs.Prelude.{◌≡◌, None, IfOk, IfSome, map};
ghost use Rattle.fb_layout.specs.Laid.{LaidSchema};
ghost use Rattle.fb_declare.specs.SchemaTexts.{IsAccepted};
ghost use Rattle.fb_faults.specs.declared.faults.ToolFault.{ToolFault};
ghost use Rattle.fb_explain_conform.specs.Listed.{AreBreaches, AreMoved};

use crate::places::Places;
use crate::shifts::{PartOfShift, Shifts};
use crate::sides::{Side, Sides};
use fb_conform::{Breach, MovedName, all_breaches, moved_names};
use fb_declare::text_has_one_layout;
use fb_explain_schemas::{declarations_of, layout_of};
use fb_faults::ToolFault;
use fb_findings::{Finding, Note, Severity, Source};
use fb_layout::Layout;
use fb_schema::Schema;
use std::alloc::{AllocError, Global};

/// What to do where a struct has changed.
const IN_PLACE_OF_A_STRUCT: &str =
    "a struct never changes: declare another one, and new fields of it in tables";

/// A schema text's layout, and where it declares what.
#[derive(Drop)]
struct Known<'s> {
    source: Source<'s>,
    layout: Layout,
    places: Places,
}

/// Where a text declares what its schema has.
fn places_in(alloc: Global, text: &[u8], schema: &Schema) -> Result<Places, AllocError> {
    let mut places = Places::none(alloc, text)?;
    if let Some(decls) = declarations_of(alloc, text)? {
        places.add_all(alloc, &decls, schema)?;
    }
    Ok(places)
}

impl<'s> Known<'s> {
    /// What a text declares; nothing where it is refused.
    fn of(alloc: Global, source: Source<'s>) -> Result<Option<Known<'s>>, AllocError>
        ensures accepted { IfOk result (λ found. IfSome found (λ known.
            IsAccepted source.entry.bytes.now known.layout)) }
        ensures refused { IfOk result (λ found. found ≡ None
            → (L : LaidSchema) → ¬ (IsAccepted source.entry.bytes.now L)) }
    {
        match layout_of(alloc, source.bytes)? {
            Some(layout) => {
                let places = places_in(alloc, source.bytes, layout.schema())?;
                Ok(Some(Known {
                    source,
                    layout,
                    places,
                }))
            }
            None => Ok(None),
        }
    }

    fn side(&self) -> Side<'_, 's> {
        Side {
            layout: &self.layout,
            source: self.source,
            places: &self.places,
        }
    }
}

impl<'l, 's> Sides<'l, 's> {
    /// A breach, with what was and what is. Of a shift the first breach stands for all of them.
    fn breach_finding(
        &self,
        alloc: Global,
        breach: Breach,
        part: PartOfShift,
    ) -> Result<Finding<'s>, AllocError>
        ensures { IfOk result (λ f. f.fault ≡ ToolFault.Breach breach) }
    {
        let mut note = Note::new(alloc);
        match part {
            PartOfShift::First(old, shift) => self.push_shift(&mut note, old, shift),
            _ => self.push_breach(&mut note, breach),
        }
        let places = self.breach_places(breach);
        let mut finding = Finding::of(alloc, ToolFault::Breach(breach));
        finding.place = Some(places.new);
        finding.old_place = Some(places.old);
        finding.sentence = note.into_text()?;
        finding.details = self.breach_details(alloc, breach)?;
        if let Breach::StructChanged(_) = breach {
            finding.advice = String::from_str(alloc, IN_PLACE_OF_A_STRUCT)?;
        }
        finding.is_covered = matches!(part, PartOfShift::Further);
        finding.name_place(alloc, self.old.schema())?;
        if let Breach::NewRequired(old, slot) = breach {
            finding.field_name = String::from_str(alloc, self.new_field_name(old, slot))?;
        }
        Ok(finding)
    }

    fn breach_findings(
        &self,
        alloc: Global,
        breaches: &[Breach],
    ) -> Result<Vec<Finding<'s>>, AllocError>
        ensures { IfOk result (λ list. map (λ f. f.fault) list.items ≡ map ToolFault.Breach breaches.now) }
    {
        let mut findings = Vec::new(alloc);
        let mut shifts = Shifts::new();
        for breach in breaches {
            let part = shifts.part_of(self, *breach);
            findings.push(self.breach_finding(alloc, *breach, part)?)?;
        }
        Ok(findings)
    }

    fn moved_finding(
        &self,
        alloc: Global,
        moved: MovedName,
        severity: Severity,
    ) -> Result<Finding<'s>, AllocError>
        ensures { IfOk result (λ f. f.fault ≡ ToolFault.NameMoved moved) }
    {
        let mut note = Note::new(alloc);
        self.push_moved(&mut note, moved);
        let mut finding = Finding::of(alloc, ToolFault::NameMoved(moved));
        finding.severity = severity;
        finding.place = Some(self.new_place_of(moved));
        finding.old_place = Some(self.places_of(moved.type_id, Some(moved.slot)).old);
        finding.sentence = note.into_text()?;
        finding.name_place(alloc, self.old.schema())?;
        Ok(finding)
    }

    fn moved_findings(
        &self,
        alloc: Global,
        names: &[MovedName],
        severity: Severity,
    ) -> Result<Vec<Finding<'s>>, AllocError>
        ensures { IfOk result (λ list. map (λ f. f.fault) list.items ≡ map ToolFault.NameMoved names.now) }
    {
        let mut findings = Vec::new(alloc);
        for moved in names {
            findings.push(self.moved_finding(alloc, *moved, severity)?)?;
        }
        Ok(findings)
    }
}

/// Two schema texts that are compared.
#[derive(Drop)]
struct Compared<'s> {
    old: Known<'s>,
    new: Known<'s>,
}

impl<'s> Compared<'s> {
    /// What two texts declare; nothing where one is refused.
    fn of(
        alloc: Global,
        old: Source<'s>,
        new: Source<'s>,
    ) -> Result<Option<Compared<'s>>, AllocError>
        ensures accepted { IfOk result (λ found. IfSome found (λ both.
            IsAccepted old.entry.bytes.now both.old.layout × IsAccepted new.entry.bytes.now both.new.layout)) }
        ensures refused { IfOk result (λ found. found ≡ None → (L L' : LaidSchema)
            → IsAccepted old.entry.bytes.now L → ¬ (IsAccepted new.entry.bytes.now L')) }
    {
        let Some(old) = Known::of(alloc, old)? else {
            return Ok(None);
        };
        match Known::of(alloc, new)? {
            Some(new) => Ok(Some(Compared { old, new })),
            None => Ok(None),
        }
    }

    fn sides(&self) -> Sides<'_, 's> {
        Sides {
            old: self.old.side(),
            new: self.new.side(),
        }
    }
}

/// Every breach of a new schema with the old one, in the order in which `conform` looks for the first; none where a
/// text is refused.
pub fn breach_findings<'s>(
    alloc: Global,
    old: Source<'s>,
    new: Source<'s>,
) -> Result<Vec<Finding<'s>>, AllocError>
    ensures all { (L L' : LaidSchema) → IsAccepted old.entry.bytes.now L → IsAccepted new.entry.bytes.now L'
        → IfOk result (λ list. AreBreaches L L' (map (λ f. f.fault) list.items)) }
{
    text_has_one_layout();
    match Compared::of(alloc, old, new)? {
        Some(both) => {
            let breaches = all_breaches(alloc, &both.old.layout, &both.new.layout)?;
            both.sides().breach_findings(alloc, breaches.as_slice())
        }
        None => Ok(Vec::new(alloc)),
    }
}

/// Every name that stands for another field or member under a new schema; none where a text is refused.
pub fn moved_findings<'s>(
    alloc: Global,
    old: Source<'s>,
    new: Source<'s>,
    severity: Severity,
) -> Result<Vec<Finding<'s>>, AllocError>
    ensures all { (L L' : LaidSchema) → IsAccepted old.entry.bytes.now L → IsAccepted new.entry.bytes.now L'
        → IfOk result (λ list. AreMoved L L' (map (λ f. f.fault) list.items)) }
{
    text_has_one_layout();
    match Compared::of(alloc, old, new)? {
        Some(both) => {
            let names = moved_names(alloc, &both.old.layout, &both.new.layout)?;
            both.sides()
                .moved_findings(alloc, names.as_slice(), severity)
        }
        None => Ok(Vec::new(alloc)),
    }
}
