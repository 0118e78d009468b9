//! A buffer's pieces with the bytes between them.
ghost use Rattle.std.specs.Prelude.{◌≡◌, ◌++◌, [], ◌∷◌, IfOk, OnOk, max};
ghost use Rattle.fb_inspect.specs.Covers.{CoversBelow};
ghost use Rattle.fb_inspect.specs.Listings.{BeginBy, IsInOrder, IsListedTo, head_of, noted_in};

use crate::pieces::{BufferPiece, What};
use std::alloc::{AllocError, Global};

/// Adds a piece for the bytes from one position up to another, if there are any.
fn push_gap(pieces: &mut Vec<BufferPiece>, start: u32, end: u32) -> Result<(), AllocError>
    requires before { IsListedTo pieces.old.items start }
    ensures listed { OnOk result (IsListedTo pieces.new.items (max start end)) }
    ensures kept { OnOk result (noted_in pieces.new.items ≡ noted_in pieces.old.items) }
    ensures begun { OnOk result (BeginBy end pieces.old.items → BeginBy end pieces.new.items) }
{
    if start < end {
        let gap = BufferPiece {
            start,
            end,
            node: 0,
            what: What::Gap,
        };
        pieces.push(gap)?;
    }
    Ok(())
}

/// Adds a piece after others that have each byte before it; returns up to where they have each byte then.
fn push_piece(
    pieces: &mut Vec<BufferPiece>,
    covered: u32,
    piece: BufferPiece,
) -> Result<u32, AllocError>
    requires before { IsListedTo pieces.old.items covered }
    requires begun { BeginBy piece.start pieces.old.items }
    ensures listed { IfOk result (IsListedTo pieces.new.items) }
    ensures kept { OnOk result (noted_in pieces.new.items
        ≡ noted_in pieces.old.items ++ noted_in (piece ∷ [])) }
    ensures begun { OnOk result (BeginBy piece.start pieces.new.items) }
{
    push_gap(pieces, covered, piece.start)?;
    pieces.push(piece)?;
    Ok(covered.max(piece.start).max(piece.end))
}

/// A piece before the next one. An unknown field ends where that begins, since how long it is isn't known.
fn before_next(piece: BufferPiece, next: Option<&BufferPiece>) -> BufferPiece
    ensures { head_of result ≡ head_of piece }
{
    match (piece.what, next) {
        (What::UnknownField(_), Some(next)) if piece.start < next.start => BufferPiece {
            end: piece.end.min(next.start),
            ..piece
        },
        _ => piece,
    }
}

/// The pieces with one more for each range of bytes between them, so that each byte is in one at least.
///
/// They are in the order of their begins, as those that are given. It takes memory for all of them.
pub(crate) fn without_gaps(
    alloc: Global,
    pieces: &[BufferPiece],
    len: u32,
) -> Result<Vec<BufferPiece>, AllocError>
    requires ordered { IsInOrder pieces.now }
    ensures covers { IfOk result (λ all. CoversBelow all.items len) }
    ensures ordered { IfOk result (λ all. IsInOrder all.items) }
    ensures kept { IfOk result (λ all. noted_in all.items ≡ noted_in pieces.now) }
{
    let mut all = Vec::with_capacity(alloc, pieces.len())?;
    let mut covered = 0u32;
    for (i, piece) in pieces.iter().enumerate() {
        let piece = before_next(*piece, pieces.get(i + 1));
        covered = push_piece(&mut all, covered, piece)?;
    }
    push_gap(&mut all, covered, len)?;
    Ok(all)
}
