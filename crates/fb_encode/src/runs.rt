//! Runs of the elements of a long vector.
ghost use Rattle.std.specs.Prelude.{◌≡◌, ◌≤◌, ◌<◌, ◌+◌, IfErr, IfOk, OnOk, Some, length};
ghost use Rattle.std.specs.List.{All};
ghost use Rattle.serde_json.specs.Data.{array};
ghost use Rattle.serde_json.specs.View.{items_view, view as tree_view};
ghost use Rattle.fb_json.specs.Outcome.{spent};
ghost use Rattle.fb_pieces.specs.InBrackets.{in_arrays};
ghost use Rattle.fb_encode.specs.Found.{IfFound, found_of};
ghost use Rattle.fb_encode.specs.SlotTexts.{IsPieceOf};
ghost use Rattle.fb_encode.specs.TextsRead.{AreRunsRead, elements_in};

use crate::reader::{JsonExcerpt, Reader, Unread, innermost_elements};
use crate::slot_texts::piece_of;
use crate::unnoted::Unnoted;
use fb_json::{JsonFault, Place};
use fb_pieces::Run;
use serde_json::Value as Json;

/// What is left after some elements of a vector: how many they are, and the cells.
#[derive(Clone, Copy)]
pub(crate) struct AfterElements {
    pub(crate) count: usize,
    pub(crate) left: u32,
}

/// How many elements runs have, as their cut counted them.
pub(crate) fn elements_of(runs: &[Run]) -> Result<usize, Unread>
    ensures all { IfOk result (λ count. count ≡ elements_in runs.now) }
    ensures some { OnOk result (0 < elements_in runs.now) }
{
    let mut count: usize = 0;
    for run in runs {
        count = count.checked_add(run.count).ok_or(Unread::Piece)?;
    }
    if count == 0 {
        return Err(Unread::Piece);
    }
    Ok(count)
}

/// The cells that are left for the elements of a vector.
pub(crate) fn left_for(count: usize, place: Place, left: u32) -> Result<u32, Unnoted>
    ensures { IfFound result (λ found. found ≡ spent (1 + count) place left) }
{
    if count >= left as usize {
        return Err(Unnoted::Fault(JsonFault::TooManyCells(place)));
    }
    Ok(left - 1 - count as u32)
}

/// The elements of the array in this many arrays, if they are as many as their run's cut counted.
pub(crate) fn elements_read(tree: &Json, arrays: u8, run: Run) -> Result<&[Json], Unread>
    ensures are { IfOk result (λ elements.
        tree_view tree.now ≡ in_arrays arrays (array (items_view elements.now))) }
    ensures counted { IfOk result (λ elements. length elements.now ≡ run.count) }
    ensures some { IfOk result (λ elements. 0 < length elements.now) }
{
    match innermost_elements(tree, arrays) {
        Some(elements) if elements.len() == run.count => Ok(elements),
        _ => Err(Unread::Piece),
    }
}

/// Checks runs, of whose elements no trees are made.
fn check_runs(reader: &mut Reader, array: JsonExcerpt<'_>, runs: &[Run]) -> Result<(), Unread>
    requires within { All (λ run. IsPieceOf array.text.now run.elements) runs.now }
    requires some { 0 < array.brackets }
    requires brackets { array.brackets ≤ 127 }
    ensures { OnOk result (AreRunsRead array.entry.brackets array.entry.text.now runs.now) }
{
    for run in runs {
        let elements = piece_of(array, run.elements);
        if reader.count_run(elements.text, array.brackets)? != run.count {
            return Err(Unread::Piece);
        }
    }
    Ok(())
}

/// What was found before these runs. After a fault they are checked, since it is a fault only of a text that is JSON.
pub(crate) fn once_runs_read(
    reader: &mut Reader,
    array: JsonExcerpt<'_>,
    runs: &[Run],
    found: Result<u32, Unnoted>,
) -> Result<u32, Unnoted>
    requires within { All (λ run. IsPieceOf array.text.now run.elements) runs.now }
    requires some { 0 < array.brackets }
    requires brackets { array.brackets ≤ 127 }
    ensures same { IfFound result (λ now. found_of found ≡ Some now) }
    ensures read { IfFound result (λ now.
        IfErr now (λ f. AreRunsRead array.entry.brackets array.entry.text.now runs.now)) }
{
    if let Err(Unnoted::Fault(_)) = found {
        check_runs(reader, array, runs)?;
    }
    found
}
