//! Buffers of JSON texts.
ghost use Rattle.std.specs.Prelude.{◌≡◌, [], ℕ, Bool, IfErr, IfOk, IfSome, List, OnOk};
ghost use Rattle.fb_value.specs.Bounds.{Bounds};
ghost use Rattle.fb_value.specs.Datum.{Datum};
ghost use Rattle.fb_tape.specs.Tapes.{Waits};
ghost use Rattle.fb_build.specs.NotedRoots.{NotesRoot};
ghost use Rattle.fb_layout.specs.Laid.{LaidSchema};
ghost use Rattle.fb_encode.specs.Found.{IfFault};
ghost use Rattle.fb_encode.specs.TextsEncoded.{IsOfTheText, IsTextEncoded, IsTextNoted, IsTextPlanned};
ghost use Rattle.fb_encode.specs.TextsEncoded.{IsUnread, TextRefused, first_fault};
ghost use Rattle.fb_encode.specs.TextsRead.{IsRead};

use crate::excerpts::{TextWalk, Wanted, note_excerpt};
use crate::faults::{EncodeFault, JsonTextFault};
use crate::reader::{JsonExcerpt, Reader, Unread};
use crate::trees::{note_root, plan_noted};
use crate::unnoted::Unnoted;
use fb_build::{Noting, TapePlan};
use fb_json::{JsonContext, JsonFault, JsonTrail, Place, first_fault_refuses, only_what_is_meant};
use fb_pieces::{MOST_BRACKETS, is_json_at};
use fb_schema::{Kind, Shape};
use fb_tape::Tape;
use fb_value::Limits;
use json::Scratch;
use serde_json::Value as Json;
use std::alloc::Global;

/// Longer texts are read in pieces of this many bytes. Of a longer piece the tree of `serde_json` doesn't fit into a
/// processor's nearer caches any more, and each piece costs a call.
pub const PIECE: usize = 16_384;

/// The fault of a text whose first fault this is.
fn first_fault(fault: JsonFault) -> JsonTextFault
    ensures { result ≡ first_fault fault }
{
    match fault {
        JsonFault::Memory => JsonTextFault::Memory,
        _ => JsonTextFault::Encode(EncodeFault::Json(fault)),
    }
}

/// Notes the value that a text means, which is read in pieces, on a tape of nothing.
pub(crate) fn note_pieces(
    source: JsonContext,
    walk: &mut TextWalk<'_>,
    json: &[u8],
    limits: Limits,
) -> Result<(), Unnoted>
    requires layout { walk.old.noting.tape.layout ≡ source.layout.now }
    requires whole { walk.old.noting.tape.unfinished ≡ [] }
    requires waits { Waits walk.old.noting.tape [] }
    requires room { walk.old.noting.tape.room ≡ 0 }
    ensures noted { OnOk result
        (IsTextNoted source.entry.layout.now limits source.entry.unknown json.now walk.new.noting.tape) }
    ensures refused { IfErr result (λ e. IfFault e (λ f.
        IsUnread source.entry.layout.now limits source.entry.unknown json.now (first_fault f))) }
{
    only_what_is_meant();
    first_fault_refuses();
    let root = source.layout.schema().root();
    let place = Place {
        owner: root,
        slot: None,
    };
    let excerpt = JsonExcerpt {
        text: json,
        brackets: MOST_BRACKETS,
        at: 0,
    };
    let wanted = Wanted {
        shape: Shape::One(Kind::Table(root)),
        place,
        levels: limits.most_depth(),
        left: limits.most_cells(),
    };
    note_excerpt(source, walk, excerpt, wanted)?;
    Ok(())
}

/// A walk over a text that is read in pieces, which has noted nothing yet.
pub(crate) fn walk_over<'l>(
    source: JsonContext<'l>,
    json: &[u8],
    piece: usize,
    trail: JsonTrail,
) -> Result<TextWalk<'l>, Unread>
    ensures layout { IfOk result (λ walk. walk.noting.tape.layout ≡ source.entry.layout.now) }
    ensures waits { IfOk result (λ walk. Waits walk.noting.tape []) }
    ensures whole { IfOk result (λ walk. walk.noting.tape.unfinished ≡ []) }
    ensures room { IfOk result (λ walk. walk.noting.tape.room ≡ 0) }
{
    Ok(TextWalk {
        reader: Reader::new(source.alloc, json, piece)?,
        noting: Noting::new(source.alloc, source.layout),
        trail,
    })
}

/// A tape on which the value is noted that a text means, which is read in pieces.
fn note_in_pieces<'l>(
    source: JsonContext<'l>,
    json: &[u8],
    limits: Limits,
    piece: usize,
) -> Result<Tape<'l>, Unnoted>
    ensures noted { IfOk result (IsTextNoted source.entry.layout.now limits source.entry.unknown json.now) }
    ensures refused { IfErr result (λ e. IfFault e (λ f.
        IsUnread source.entry.layout.now limits source.entry.unknown json.now (first_fault f))) }
{
    let mut walk = walk_over(source, json, piece, JsonTrail::none())?;
    note_pieces(source, &mut walk, json, limits)?;
    Ok(walk.into_tape())
}

/// The same of a text that is read at once.
fn note_at_once<'l>(
    source: JsonContext<'l>,
    json: &[u8],
    limits: Limits,
) -> Result<Tape<'l>, JsonTextFault>
    ensures noted { IfOk result (IsTextNoted source.entry.layout.now limits source.entry.unknown json.now) }
    ensures refused { IfErr result (IsUnread source.entry.layout.now limits source.entry.unknown json.now) }
{
    first_fault_refuses();
    let tree = match Json::from_slice(source.alloc, json) {
        Ok(tree) => tree,
        Err(error) => {
            return Err(if error.is_memory() {
                JsonTextFault::Memory
            } else {
                JsonTextFault::BadJson
            });
        }
    };
    let Ok(noting) = Noting::with_capacity(source.alloc, source.layout) else {
        return Err(JsonTextFault::Memory);
    };
    match note_root(source, noting, &tree, limits) {
        Ok(tape) => Ok(tape),
        Err(fault) => Err(JsonTextFault::Encode(EncodeFault::Json(fault))),
    }
}

/// Checks that a text is JSON, without a tree.
// Its scratch is large, and no caller is to have it in its own frame.
#[inline(never)]
pub(crate) fn check_json(alloc: Global, json: &[u8]) -> Result<(), JsonTextFault>
    ensures refused { IfErr result (λ f. (L : LaidSchema) (most : Bounds) (unknown : Bool)
        → IsUnread L most unknown json.now f) }
    ensures json { OnOk result (IsRead 127 json.now) }
{
    match is_json_at(json, MOST_BRACKETS, &mut Scratch::new(alloc)) {
        Ok(true) => Ok(()),
        Ok(false) => Err(JsonTextFault::BadJson),
        Err(_) => Err(JsonTextFault::Memory),
    }
}

/// A tape on which the value is noted that a text means.
fn note_text<'l>(
    source: JsonContext<'l>,
    json: &[u8],
    limits: Limits,
    piece: usize,
) -> Result<Tape<'l>, JsonTextFault>
    ensures noted { IfOk result (IsTextNoted source.entry.layout.now limits source.entry.unknown json.now) }
    ensures refused { IfErr result (IsUnread source.entry.layout.now limits source.entry.unknown json.now) }
{
    if json.len() > piece {
        match note_in_pieces(source, json, limits, piece) {
            Ok(tape) => return Ok(tape),
            Err(Unnoted::Fault(fault)) => return Err(first_fault(fault)),
            Err(Unnoted::Unread(Unread::Memory)) => return Err(JsonTextFault::Memory),
            // If the whole is JSON nevertheless, it was cut at a wrong place.
            Err(Unnoted::Unread(Unread::Piece)) => check_json(source.alloc, json)?,
        }
    }
    note_at_once(source, json, limits)
}

/// The plan of the buffer of a text whose value is noted.
fn plan_tape<'l>(
    source: JsonContext<'l>,
    tape: Tape<'l>,
    prefixed: bool,
) -> Result<TapePlan<'l>, JsonTextFault>
    requires { (d : Datum) × NotesRoot source.layout.now tape d }
    ensures planned { let L = source.entry.layout.now in (most : Bounds) (unknown : Bool) (json : List ℕ)
        → IsTextNoted L most unknown json tape.entry → IfOk result (IsTextPlanned prefixed L most unknown json) }
    ensures refused { let L = source.entry.layout.now in (most : Bounds) (unknown : Bool) (json : List ℕ)
        → IsTextNoted L most unknown json tape.entry → IfErr result (TextRefused prefixed L most unknown json) }
    ensures buffer { IfErr result (λ fault. ¬ IsOfTheText fault) }
{
    match plan_noted(source, tape, prefixed) {
        Ok(plan) => Ok(plan),
        Err(fault) => Err(JsonTextFault::Encode(EncodeFault::Build(fault))),
    }
}

/// The bytes that encode the value that a JSON text means under a layout, as the root table's.
///
/// A text of more than `piece` bytes is read in pieces of some `piece` bytes, and each is dropped before the next is
/// read. Which they are changes nothing of the result. The error is that of the text, then that of its first fault, and
/// then that of the value's size. A `prefixed` buffer has a size prefix.
pub fn encode_text(
    source: JsonContext,
    json: &[u8],
    limits: Limits,
    piece: usize,
    prefixed: bool,
) -> Result<Vec<u8>, JsonTextFault>
    ensures encoded { IfOk result (λ b. IsTextEncoded prefixed source.entry.layout.now limits source.entry.unknown
        json.now b.items) }
    ensures refused { IfErr result (TextRefused prefixed source.entry.layout.now limits source.entry.unknown json.now) }
{
    let tape = match note_text(source, json, limits, piece) {
        Ok(tape) => tape,
        Err(fault) => return Err(fault),
    };
    match plan_tape(source, tape, prefixed) {
        Ok(plan) => Ok(plan.finish()),
        Err(fault) => Err(fault),
    }
}

/// The plan by which the bytes are laid that `encode_text` returns, with all the memory that this takes.
///
/// The JSON text is freed once its value is noted, before memory for the buffer is taken. A text that is refused stays
/// as it is: one that isn't JSON, or whose meaning breaks a rule.
pub fn plan_text<'l>(
    source: JsonContext<'l>,
    json: &mut Vec<u8>,
    limits: Limits,
    piece: usize,
    prefixed: bool,
) -> Result<TapePlan<'l>, JsonTextFault>
    ensures planned { IfOk result (IsTextPlanned prefixed source.entry.layout.now limits source.entry.unknown
        json.old.items) }
    ensures refused { IfErr result (TextRefused prefixed source.entry.layout.now limits source.entry.unknown
        json.old.items) }
    ensures kept { IfErr result (λ f. IsOfTheText f → json.new.items ≡ json.old.items) }
{
    let tape = match note_text(source, json.as_slice(), limits, piece) {
        Ok(tape) => tape,
        Err(fault) => return Err(fault),
    };
    // Its memory is free before that of the buffer is allocated.
    *json = Vec::new(source.alloc);
    plan_tape(source, tape, prefixed)
}
