//! Cuts a JSON text: the members of an object's text, and runs of the elements of an array's.
//!
//! Strings, escapes, brackets, commas and colons are all that it reads. Whether a text may be cut there is decided
//! by reading the pieces.
ghost use Rattle.std.specs.Prelude.{◌<◌, ◌≤◌, IfOk, IfSome, length};
ghost use Rattle.fb_pieces.specs.Cuts.{IsMemberOf, IsRunOf};
ghost use Rattle.fb_pieces.specs.ReadByPieces.{IsCutIntoMembers, IsCutIntoRuns, OpensAt};

use crate::blanks::{are_blanks, leading_blanks};
use crate::cuts::Cuts;
use crate::walk::{BLOCK, BlockWalk, block_at};
use std::alloc::{AllocError, Global};

/// A range of a text's bytes.
#[derive(Clone, Copy, Debug, PartialEq, Eq)]
pub struct Piece {
    pub start: usize,
    pub end: usize,
}

/// Elements of an array's text, with the commas between them.
#[derive(Clone, Copy, Debug, PartialEq, Eq)]
pub struct Run {
    pub elements: Piece,
    /// How many elements it seems to have.
    pub count: usize,
    pub is_last: bool,
}

/// A member of an object's text. Its name is all before the colon, and its value all after it, blanks too.
#[derive(Clone, Copy, Debug, PartialEq, Eq)]
pub struct Member {
    pub name: Piece,
    pub value: Piece,
    pub is_last: bool,
}

/// The runs of an array's text that has cuts. None where the text isn't an array's, or it has no cuts or no elements.
pub fn cut_array(
    alloc: Global,
    text: &[u8],
    at: usize,
    cuts: &Cuts,
) -> Result<Option<Vec<Run>>, AllocError>
    ensures { IfOk result (λ cut. IfSome cut (λ runs. IsCutIntoRuns text.now runs.items)) }
{
    let Some(opening) = opening(text, b'[') else {
        return Ok(None);
    };
    let Some(ends) = cuts.runs_of(at.saturating_add(opening)) else {
        return Ok(None);
    };
    let mut from = opening + 1;
    if is_closed(&text[from..]) {
        return Ok(None);
    }
    let mut runs = Vec::with_capacity(alloc, ends.len())?;
    for end in ends {
        let Some(run) = run_before(text, from, end.at.saturating_sub(at), end.count) else {
            return Ok(None);
        };
        runs.push(run)?;
        from = run.elements.end + 1;
        if run.is_last {
            return Ok(if are_blanks(&text[from..]) {
                Some(runs)
            } else {
                None
            });
        }
    }
    Ok(None)
}

/// The members of an object's text. None where the text isn't an object's, or that of one without members.
pub fn cut_object(
    alloc: Global,
    text: &[u8],
    at: usize,
    cuts: &Cuts,
) -> Result<Option<Vec<Member>>, AllocError>
    ensures { IfOk result (λ cut. IfSome cut (λ members. IsCutIntoMembers text.now members.items)) }
{
    let Some(opening) = opening(text, b'{') else {
        return Ok(None);
    };
    let mut members = Vec::new(alloc);
    let mut from = opening + 1;
    for _ in from..text.len() {
        let Some(member) = next_member(text, from, at, cuts) else {
            return Ok(None);
        };
        members.push(member)?;
        from = member.value.end + 1;
        if member.is_last {
            return Ok(if are_blanks(&text[from..]) {
                Some(members)
            } else {
                None
            });
        }
    }
    Ok(None)
}

/// Whether an array whose bracket opens before a text closes there, without elements.
fn is_closed(text: &[u8]) -> bool {
    text.get(leading_blanks(text)) == Some(&b']')
}

/// Where this bracket is, if a text begins with it after blanks.
fn opening(text: &[u8], bracket: u8) -> Option<usize>
    ensures opens { IfSome result (λ at. OpensAt text.now bracket at) }
    ensures within { IfSome result (λ at. at < length text.now) }
{
    let at = leading_blanks(text);
    if *text.get(at)? == bracket {
        Some(at)
    } else {
        None
    }
}

/// The run of `count` elements that ends before a comma or the array's bracket.
fn run_before(text: &[u8], from: usize, end: usize, count: usize) -> Option<Run>
    ensures run { IfSome result (λ run. IsRunOf text.now from run) }
    ensures within { IfSome result (λ run. run.elements.end < length text.now) }
{
    let is_last = match *text.get(end)? {
        b',' => false,
        b']' => true,
        _ => return None,
    };
    if end < from {
        return None;
    }
    Some(Run {
        elements: Piece { start: from, end },
        count,
        is_last,
    })
}

/// The member of an object that begins at `from`. None where no colon comes, or neither a comma nor the object's brace.
fn next_member(text: &[u8], from: usize, at: usize, cuts: &Cuts) -> Option<Member>
    ensures member { IfSome result (λ member. IsMemberOf text.now from member) }
    ensures within { IfSome result (λ member. member.value.end < length text.now) }
{
    let colon = separator(text, from, b':')?;
    let end = value_end(text, colon + 1, at, cuts)?;
    let name = Piece {
        start: from,
        end: colon,
    };
    let value = Piece {
        start: colon + 1,
        end,
    };
    match (text[colon], text[end]) {
        (b':', b',') => Some(Member {
            name,
            value,
            is_last: false,
        }),
        (b':', b'}') => Some(Member {
            name,
            value,
            is_last: true,
        }),
        _ => None,
    }
}

/// What ends the value of a member: a comma, or the object's brace.
fn value_end(text: &[u8], from: usize, at: usize, cuts: &Cuts) -> Option<usize>
    ensures { IfSome result (λ end. (from ≤ end) × (end < length text.now)) }
{
    let start = from.checked_add(leading_blanks(text.get(from..)?))?;
    let Some(closing) = cuts.closing_of(at.saturating_add(start)) else {
        return separator(text, from, b',');
    };
    let after = closing.saturating_sub(at).checked_add(1)?;
    let end = after.checked_add(leading_blanks(text.get(after..)?))?;
    if end >= from && end < text.len() {
        Some(end)
    } else {
        None
    }
}

/// The first comma or colon, whichever is wanted, or the closing bracket that comes before it: outside strings, and
/// outside brackets that are opened from here on.
fn separator(text: &[u8], from: usize, wanted: u8) -> Option<usize>
    ensures { IfSome result (λ at. (from ≤ at) × (at < length text.now)) }
{
    let mut walk = BlockWalk::START;
    for at in (from..text.len()).step_by(BLOCK) {
        let outside = walk.outside(block_at(text, at), wanted);
        if let Some(bit) = outside.first() {
            let end = at.saturating_add(bit);
            return if end < text.len() { Some(end) } else { None };
        }
    }
    None
}
