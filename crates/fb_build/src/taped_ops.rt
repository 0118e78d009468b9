//! Lays a tape.
ghost use Rattle.std.specs.Prelude.{List, [], ◌≡◌, ◌≤◌, ◌<◌, ◌+◌, length, take, drop};
ghost use Rattle.std.specs.Vec.{vec_capacity};
ghost use Rattle.fb_tape.specs.NamedParts.{NamedPart};
ghost use Rattle.fb_tape.specs.Tapes.{Lay};
ghost use Rattle.fb_tape.specs.KnownVtables.{EachHasOneNumber};
ghost use Rattle.fb_build.specs.Steps.{Steps};
ghost use Rattle.fb_build.specs.TapeLaid.{op_fields, op_bytes, op_vtable, MayLayOp, op_end, op_most};
ghost use Rattle.fb_build.specs.TapeLaid.{tape_most};
ghost use Rattle.fb_build.specs.TapeLaid.{SomeLay, IsFresh, tape_end};
ghost use Rattle.fb_build.specs.Tails.{Grows};
ghost use Rattle.fb_build.specs.Waiting.{AreWaiting};

use crate::laying::{Laying, TableFields, lay_data, lay_references, lay_table};
use crate::taped_fields::count_notes;
use crate::taped_vtables::NumberedVtable;
use fb_layout::{Layout, layout_is_well_made};
use fb_tape::{NotedField, Op, Tape};

/// The fields from an index on.
#[tactic(auto, using(std::proofs::lemmas::List::take_rest))]
fn fields_from(fields: &[NotedField], at: usize) -> &[NotedField]
    requires within { at ≤ length fields.now }
    ensures exact { result.now ≡ drop at fields.now }
{
    &fields[at..]
}

/// The bytes from an index on.
#[tactic(auto, using(std::proofs::lemmas::List::take_rest))]
fn bytes_from(bytes: &[u8], at: usize) -> &[u8]
    requires within { at ≤ length bytes.now }
    ensures exact { result.now ≡ drop at bytes.now }
{
    &bytes[at..]
}

/// How many of a tape's fields and bytes are those of an operation.
#[derive(Clone, Copy)]
struct PassedBy {
    fields: usize,
    bytes: usize,
}

/// Lays an operation, whose fields and bytes come first, and returns how many these are.
fn lay_op(laying: &mut Laying, tape: &Tape, op: Op, fields: &[NotedField], bytes: &[u8]) -> PassedBy
    requires fields { op_fields op ≤ length fields.now }
    requires bytes { op_bytes op (take (op_fields op) fields.now) ≤ length bytes.now }
    requires ready { MayLayOp tape.now.layout tape.now.vtables op (take (op_fields op) fields.now)
        (take (op_bytes op (take (op_fields op) fields.now)) bytes.now) laying.old }
    requires reserved { length laying.old.waiting.items < vec_capacity laying.old.waiting }
    requires places { length tape.now.vtables ≤ vec_capacity laying.old.places }
    ensures fields { result.fields ≡ op_fields op }
    ensures bytes { result.bytes ≡ op_bytes op (take (op_fields op) fields.now) }
    ensures laid { Steps op (op_vtable tape.now.vtables op) (take (op_fields op) fields.now)
        (take (op_bytes op (take (op_fields op) fields.now)) bytes.now) laying.old laying.new }
    ensures long { length laying.new.tail.bytes ≡ op_end tape.now.vtables (length laying.old.places.items) op
        (take (op_fields op) fields.now) (length laying.old.tail.bytes) }
    ensures most { laying.new.tail.most ≡ op_most op laying.old.tail.most }
{
    match op {
        Op::Data { align, size } => {
            let own = &bytes[..size as usize];
            lay_data(laying, align, own);
            PassedBy {
                fields: 0,
                bytes: own.len(),
            }
        }
        Op::References { count } => {
            lay_references(laying, count as usize);
            PassedBy {
                fields: 0,
                bytes: 0,
            }
        }
        Op::Table {
            align,
            fields: count,
            vtable,
        } => {
            let number = vtable as usize;
            let notes = &fields[..count as usize];
            let taken = count_notes(notes);
            let own = &bytes[..taken.bytes];
            let vtable = NumberedVtable::new(tape, number);
            let fields = TableFields {
                notes,
                bytes: own,
                references: taken.references,
            };
            lay_table(laying, align, number, &vtable, fields);
            PassedBy {
                fields: notes.len(),
                bytes: taken.bytes,
            }
        }
    }
}

/// Lays a tape where nothing is laid: the parts wait that it leaves.
pub(crate) fn lay_tape(laying: &mut Laying, layout: &Layout, tape: &Tape)
    requires layout { tape.now.layout ≡ layout.now }
    requires means { SomeLay tape.now }
    requires different { EachHasOneNumber tape.now.vtables }
    requires room { tape_end tape.now ≤ laying.old.tail.free }
    requires reserved { length tape.now.ops ≤ vec_capacity laying.old.waiting }
    requires places { length tape.now.vtables ≤ vec_capacity laying.old.places }
    requires fresh { IsFresh laying.old }
    ensures waits { (ps : List NamedPart)
        → Lay tape.now.layout tape.now.vtables 0 tape.now.room [] tape.now.ops tape.now.notes tape.now.bytes ps
        → AreWaiting tape.now.layout tape.now.vtables ps laying.new.waiting.items laying.new.places.items
        laying.new.tail }
    ensures long { length laying.new.tail.bytes ≡ tape_end tape.now }
    ensures most { laying.new.tail.most ≡ tape_most tape.now }
    ensures grows { Grows laying.old.tail laying.new.tail }
{
    layout_is_well_made(layout);
    let ops = tape.ops();
    let fields = tape.fields();
    let bytes = tape.bytes();
    let mut at_field = 0;
    let mut at_byte = 0;
    for i in 0..ops.len() {
        let fields_left = fields_from(fields, at_field);
        let bytes_left = bytes_from(bytes, at_byte);
        let passed_by = lay_op(laying, tape, ops[i], fields_left, bytes_left);
        at_field += passed_by.fields;
        at_byte += passed_by.bytes;
    }
}
