//! The path of a text's first fault.
ghost use Rattle.std.specs.Prelude.{◌≤◌, IfOk, IfSome, length};
ghost use Rattle.serde_json.specs.Data.{Data};
ghost use Rattle.fb_json.specs.FaultPaths.{LeadsToFirst};
ghost use Rattle.fb_encode.specs.TextsEncoded.{IsJsonOf};

use crate::faults::JsonTextFault;
use crate::reader::Unread;
use crate::texts::{check_json, note_pieces, walk_over};
use crate::unnoted::Unnoted;
use fb_json::{JsonContext, JsonStep, JsonTrail, fault_path};
use fb_value::Limits;
use serde_json::Value as Json;
use std::alloc::AllocError;

/// The steps to the first fault of a text that is read in pieces, if what it means has one.
fn path_in_pieces(
    source: JsonContext,
    json: &[u8],
    limits: Limits,
    piece: usize,
) -> Result<Option<Vec<JsonStep>>, Unread> {
    let mut walk = walk_over(source, json, piece, JsonTrail::new(source.alloc))?;
    match note_pieces(source, &mut walk, json, limits) {
        Ok(()) => Ok(None),
        Err(Unnoted::Fault(_)) => Ok(walk.into_steps()),
        Err(Unnoted::Unread(unread)) => Err(unread),
    }
}

/// The same of a text that is read at once.
fn path_at_once(
    source: JsonContext,
    json: &[u8],
    limits: Limits,
) -> Result<Option<Vec<JsonStep>>, AllocError>
    ensures { IfOk result (λ found. IfSome found (λ steps. (t : Data) × IsJsonOf json.now t
        × LeadsToFirst source.entry.layout.now limits source.entry.unknown t steps.items)) }
{
    let JsonContext {
        alloc,
        layout,
        unknown,
    } = source;
    match Json::from_slice(alloc, json) {
        Ok(tree) => fault_path(alloc, layout, &tree, unknown, limits),
        Err(error) if error.is_memory() => Err(AllocError),
        Err(_) => Ok(None),
    }
}

/// The steps from the root to the first fault of what a JSON text means. None where it means a value, and where it
/// isn't JSON. A text of more than `piece` bytes is read in pieces, as `encode_text` reads it.
pub fn text_fault_path(
    source: JsonContext,
    json: &[u8],
    limits: Limits,
    piece: usize,
) -> Result<Option<Vec<JsonStep>>, AllocError>
    ensures short { length json.now ≤ piece → IfOk result (λ found. IfSome found (λ steps. (t : Data)
        × IsJsonOf json.now t
        × LeadsToFirst source.entry.layout.now limits source.entry.unknown t steps.items)) }
{
    if json.len() > piece {
        match path_in_pieces(source, json, limits, piece) {
            Ok(steps) => return Ok(steps),
            Err(Unread::Memory) => return Err(AllocError),
            // If the whole is JSON nevertheless, it was cut at a wrong place.
            Err(Unread::Piece) => match check_json(source.alloc, json) {
                Ok(()) => {}
                Err(JsonTextFault::Memory) => return Err(AllocError),
                Err(_) => return Ok(None),
            },
        }
    }
    path_at_once(source, json, limits)
}
