//! Lays the fields of the tables of a tape.
ghost use Rattle.std.specs.Prelude.{ℕ, List, Option, ◌≡◌, ◌≤◌, ◌+◌, length, max, drop};
ghost use Rattle.fb_layout.specs.Laid.{LaidSchema, Slot};
ghost use Rattle.fb_value.specs.Datum.{Datum};
ghost use Rattle.fb_tape.specs.OpenList.{own_size};
ghost use Rattle.fb_build.specs.Fields.{fields_size};
ghost use Rattle.fb_build.specs.Lengths.{fields_end};
ghost use Rattle.fb_build.specs.Made.{FieldsFront};
ghost use Rattle.fb_build.specs.NotesLaid.{noted_size, noted_references, notes_size, notes_references, MayLay};
ghost use Rattle.fb_build.specs.NotesLaid.{LaysField};
ghost use Rattle.fb_build.specs.NotesLaid.{AreToBeLaid, SomeToBeLaid, AreLaidNow};
ghost use Rattle.fb_build.specs.TapeLaid.{notes_bytes};
ghost use Rattle.fb_build.specs.Tails.{Grows};

use crate::references::lay_reference;
use crate::tail::Tail;
use fb_tape::NotedField;

/// How many of the tape's bytes a field has.
fn bytes_of(note: NotedField) -> usize
    ensures exact { result ≡ own_size note }
    ensures small { result ≤ 65535 }
{
    match note {
        NotedField::Reference => 0,
        NotedField::Inline(size) => size as usize,
    }
}

/// How many of the parts that wait a field refers to.
fn references_of(note: NotedField) -> usize
    ensures { result ≡ noted_references note }
{
    match note {
        NotedField::Reference => 1,
        NotedField::Inline(_) => 0,
    }
}

/// How many of the tape's bytes, and of the parts that wait, are those of some fields.
#[derive(Clone, Copy)]
pub(crate) struct Taken {
    pub(crate) bytes: usize,
    pub(crate) references: usize,
}

/// Counts what some fields take.
pub(crate) fn count_notes(notes: &[NotedField]) -> Taken
    requires few { length notes.now ≤ 65535 }
    ensures bytes { result.bytes ≡ notes_bytes notes.now }
    ensures references { result.references ≡ notes_references notes.now }
{
    let mut bytes = 0;
    let mut references = 0;
    for i in 0..notes.len() {
        bytes += bytes_of(notes[i]);
        references += references_of(notes[i]);
    }
    Taken { bytes, references }
}

/// Lays a field: a reference to what was laid at the first end-count, or the first bytes. Returns the bytes and the
/// end-counts that are left.
fn lay_note<'t>(
    out: &mut Tail,
    note: NotedField,
    bytes: &'t [u8],
    ends: &'t [u32],
) -> (&'t [u8], &'t [u32])
    requires ready { MayLay note bytes.now ends.now out.old }
    ensures laid { LaysField note bytes.now ends.now out.old out.new }
    ensures bytes { result.0.now ≡ drop (own_size note) bytes.now }
    ensures ends { result.1.now ≡ drop (noted_references note) ends.now }
    ensures free { out.new.free + noted_size note ≡ out.old.free }
    ensures most { out.new.most ≡ out.old.most }
    ensures grows { Grows out.old out.new }
{
    match note {
        NotedField::Reference => {
            lay_reference(out, ends[0]);
            (bytes, &ends[1..])
        }
        NotedField::Inline(size) => {
            let (own, behind) = bytes.split_at(size as usize);
            out.lay_number(own);
            (behind, ends)
        }
    }
}

/// Lays the fields of a table from a multiple on, each reference to the next end-count, and returns how many bytes were
/// laid before the first one.
pub(crate) fn lay_fields(
    out: &mut Tail,
    align: usize,
    notes: &[NotedField],
    bytes: &[u8],
    ends: &[u32],
) -> usize
    requires ready { SomeToBeLaid align notes.now bytes.now ends.now out.old }
    ensures laid { (L : LaidSchema) (fs : List Slot) (xs : List (Option Datum)) (targets : List ℕ)
        → AreToBeLaid L fs xs targets align notes.now bytes.now ends.now out.old
        → AreLaidNow L fs xs targets result out.new }
    ensures front { FieldsFront out.old out.new result align }
    ensures size { (L : LaidSchema) (fs : List Slot) (xs : List (Option Datum)) (targets : List ℕ)
        → AreToBeLaid L fs xs targets align notes.now bytes.now ends.now out.old
        → notes_size notes.now ≡ fields_size L fs xs }
    ensures long { length out.new.bytes ≡ fields_end align (notes_size notes.now) (length out.old.bytes) }
    ensures most { out.new.most ≡ max out.old.most align }
    ensures grows { Grows out.old out.new }
{
    out.fit(align, 0);
    let start = out.count();
    let mut bytes_left = bytes;
    let mut ends_left = ends;
    for i in 0..notes.len() {
        let left = lay_note(out, notes[i], bytes_left, ends_left);
        bytes_left = left.0;
        ends_left = left.1;
    }
    start
}
