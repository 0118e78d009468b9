//! How many bytes a tape takes, counted before it is laid.
ghost use Rattle.std.specs.Prelude.{ℕ, List, ◌≡◌, ◌≤◌, ◌<◌, ◌+◌, ◌-◌, length, take, drop};
ghost use Rattle.byteorder.specs.Endian.{little_number};
ghost use Rattle.fb_layout.specs.Sizes.{IsAlignment};
ghost use Rattle.fb_layout.specs.Widths.{greatest};
ghost use Rattle.fb_value.specs.Num.{Bytes};
ghost use Rattle.fb_value.specs.Bounds.{most_bytes};
ghost use Rattle.fb_tape.specs.NamedParts.{NamedPart};
ghost use Rattle.fb_tape.specs.Tapes.{Lays, known_after};
ghost use Rattle.fb_tape.specs.declared.ops.NotedField.{NotedField};
ghost use Rattle.fb_build.specs.Lengths.{data_end, sized_end};
ghost use Rattle.fb_build.specs.TapeLaid.{SomeOp, SomeLay, op_end, op_most, tape_end, tape_most, buffer_end};

use crate::padding::zeros_to;
use byteorder::{ByteOrder, LittleEndian};
use fb_layout::{Layout, layout_is_well_made};
use fb_tape::{Op, Tape};

/// What is counted of the operations so far: how many bytes are laid, what they are padded to at most, and how many
/// vtables have come.
#[derive(Clone, Copy)]
struct TapeLength {
    laid: usize,
    most: usize,
    known: usize,
}

/// How many bytes are laid once some data are.
fn data_end(align: usize, size: usize, laid: usize) -> usize
    requires power { IsAlignment align }
    requires low { align ≤ 65535 }
    requires counted { 4 ≤ size }
    requires short { size ≤ 68719476736 }
    requires small { laid ≤ most_bytes }
    ensures exact { result ≡ data_end align size laid }
{
    laid + (zeros_to(align, laid + (size - 4)) + size)
}

/// How many bytes are laid once a table is: its vtable tells how many it takes up to the end of its fields.
fn table_end(align: usize, vtable: &[u8], is_known: bool, laid: usize) -> usize
    requires power { IsAlignment align }
    requires low { align ≤ 65535 }
    requires long { 4 ≤ length vtable.now }
    requires small { laid ≤ most_bytes }
    ensures exact { result
        ≡ sized_end align (little_number 2 (take 2 (drop 2 vtable.now))) (length vtable.now) is_known laid }
{
    let size = LittleEndian::read_u16(&vtable[2..4]) as usize;
    let table = laid + (zeros_to(align, laid) + size);
    table + if is_known { 0 } else { vtable.len() }
}

/// Counts an operation.
fn count_op(before: TapeLength, tape: &Tape, op: Op) -> TapeLength
    requires some { SomeOp tape.now.layout tape.now.vtables op }
    requires small { before.laid ≤ most_bytes }
    requires power { IsAlignment before.most }
    ensures laid { (room : ℕ) (ps qs : List NamedPart) (notes : List NotedField) (bytes : Bytes)
        → Lays tape.now.layout tape.now.vtables op room ps notes bytes qs
        → result.laid ≡ op_end tape.now.vtables before.known op notes before.laid }
    ensures most { result.most ≡ op_most op before.most }
    ensures power { IsAlignment result.most }
    ensures known { result.known ≡ known_after before.known op }
{
    match op {
        Op::Data { align, size } => TapeLength {
            laid: data_end(align.bytes(), size as usize, before.laid),
            most: before.most.max(align.bytes()),
            known: before.known,
        },
        Op::References { count } => TapeLength {
            laid: data_end(4, 4 + count as usize * 4, before.laid),
            most: before.most.max(4),
            known: before.known,
        },
        Op::Table { align, vtable, .. } => {
            let number = vtable as usize;
            let own = tape.vtable(number);
            TapeLength {
                laid: table_end(align.bytes(), own, number < before.known, before.laid),
                most: before.most.max(align.bytes()),
                known: before.known.max(number + 1),
            }
        }
    }
}

/// Counts a tape.
fn count_tape(layout: &Layout, tape: &Tape) -> TapeLength
    requires layout { tape.now.layout ≡ layout.now }
    requires means { SomeLay tape.now }
    requires short { tape.now.room ≤ most_bytes }
    ensures laid { result.laid ≡ tape_end tape.now }
    ensures bound { result.laid ≤ tape.now.room }
    ensures most { result.most ≡ tape_most tape.now }
    ensures power { IsAlignment result.most }
{
    layout_is_well_made(layout);
    let ops = tape.ops();
    let mut counted = TapeLength {
        laid: 0,
        most: 4,
        known: 0,
    };
    for i in 0..ops.len() {
        counted = count_op(counted, tape, ops[i]);
    }
    counted
}

/// How long the buffer of a tape is, with so many bytes before it.
pub(crate) fn buffer_end(layout: &Layout, tape: &Tape, front: usize) -> usize
    requires low { front ≤ 4 }
    requires layout { tape.now.layout ≡ layout.now }
    requires means { SomeLay tape.now }
    requires short { tape.now.room ≤ most_bytes }
    ensures exact { result ≡ buffer_end front layout.now tape.now }
    ensures bound { result ≤ front + (tape.now.room + (8 + (greatest layout.now - 1))) }
{
    layout_is_well_made(layout);
    let TapeLength { laid, most, .. } = count_tape(layout, tape);
    let header = match layout.schema().identifier() {
        Some(_) => 8 + front,
        None => 4 + front,
    };
    laid + (zeros_to(most, laid + header) + header)
}
