//! A listing of a buffer's bytes, some lines at a time.
ghost use Rattle.std.specs.Prelude.{◌≡◌, IfOk, IfSome, OnOk, chars, length, min};
ghost use Rattle.std.specs.String.{string_bytes};
ghost use Rattle.fb_explain_pages.specs.Lines.{IsPage};
ghost use Rattle.fb_value.specs.Holds.{framed_fault};
ghost use Rattle.fb_inspect.specs.Covers.{CoversBelow};
ghost use Rattle.fb_inspect.specs.Listings.{IsInOrder, IsKeptIn, fault_piece, with_fault};

use crate::cover::without_gaps;
use crate::details::{details_of, push_detail};
use crate::lister::Lister;
use crate::nodes::Nodes;
use crate::notes::Notes;
use crate::page_lines::begin_piece;
use crate::parts_shown::push_head;
use crate::paths::{Scene, path_back, push_cut_path};
use crate::pieces::{BufferPiece, What};
use fb_explain_pages::Page;
use fb_layout::Layout;
use fb_read::{Buffer, Entries, ReadFault, Step, visit_buffer};
use fb_value::{Limits, front_of};
use std::alloc::{AllocError, Global};

// How many columns a line has at most, and how many details are shown at a time.
const COLUMNS: usize = 120;

const AT_A_TIME: u32 = 64;

/// What the bytes of a buffer are, in their order.
///
/// Each part is listed once for each type that it is reached as, however many references lead to it.
#[derive(Drop)]
pub struct Listing<'a> {
    alloc: Global,
    layout: &'a Layout,
    bytes: &'a [u8],
    nodes: Nodes,
    pieces: Vec<BufferPiece>,
    fault: Option<ReadFault>,
    /// The steps back from the fault, the last one first, and whether it has a path, since it isn't of the front.
    way_back: Vec<Step>,
    has_path: bool,
    /// The next piece, and the next of its details.
    next: usize,
    detail: u32,
    /// Up to where bytes were listed, and where the last vtable begins.
    covered: u32,
    vtable: Option<u32>,
    // each byte is in a piece
    ghost whole: { ∥ CoversBelow pieces.items (min (length bytes.now) 4294967295) ∥₁ },
}

/// What a call of `next_lines` lists of a piece: some of its details, after its first line if they are the first.
#[derive(Clone, Copy, Drop)]
struct Turn {
    piece: BufferPiece,
    /// The details that are listed, from this one up to the other.
    start: u32,
    end: u32,
    /// Whether no more are left.
    is_last: bool,
}

/// Notes the pieces of a buffer's front: a count, the reference to the root, and the identifier.
fn note_front(notes: &mut Notes<'_>, front: usize) {
    notes.note(0, 0, front, What::SizePrefix);
    notes.note(0, front, 4, What::Root);
    if notes.layout.schema().identifier().is_some() {
        notes.note(0, front.saturating_add(4), 4, What::Identifier);
    }
}

/// Notes what is in a buffer along a walk over it, and returns its fault, if it has one.
fn collect<'a>(
    alloc: Global,
    layout: &'a Layout,
    bytes: &'a [u8],
    limits: Limits,
    raw: bool,
    prefixed: bool,
) -> (Notes<'a>, Option<ReadFault>)
    ensures fault { result.1 ≡ framed_fault prefixed layout.now limits raw bytes.now }
{
    let mut notes = Notes::new(alloc, layout, bytes);
    note_front(&mut notes, front_of(prefixed));
    let buffer = match Buffer::checked(layout, bytes, limits, raw, prefixed) {
        Ok(buffer) => buffer,
        Err(fault) => return (notes, Some(fault)),
    };
    let lister = Lister::new(alloc, buffer, notes);
    let (lister, visited, _whole) = visit_buffer(&buffer, lister, prefixed, &mut Entries::new());
    let mut notes = lister.into_notes();
    notes.is_walked = true;
    match visited {
        Ok(()) => (notes, None),
        Err(fault) => (notes, Some(fault)),
    }
}

/// Where a fault is listed: at its offset if it has one, and at most where the bytes end.
fn fault_piece(fault: ReadFault, bytes: &[u8]) -> BufferPiece
    ensures { result ≡ fault_piece (length bytes.now) fault }
{
    let len = bytes.len().min(u32::MAX as usize) as u64;
    let at = fault.offset().unwrap_or(0).min(len) as u32;
    BufferPiece {
        start: at,
        end: at,
        node: 0,
        what: What::Fault,
    }
}

/// Adds the piece of a fault, if there is one.
fn push_fault(
    pieces: &mut Vec<BufferPiece>,
    fault: Option<ReadFault>,
    bytes: &[u8],
) -> Result<(), AllocError>
    ensures { OnOk result (pieces.new.items ≡ with_fault (length bytes.now) fault pieces.old.items) }
{
    if let Some(fault) = fault {
        pieces.push(fault_piece(fault, bytes))?;
    }
    Ok(())
}

/// The pieces of a buffer and of its fault in their order, with the gaps between them.
fn in_order(
    alloc: Global,
    pieces: Vec<BufferPiece>,
    fault: Option<ReadFault>,
    bytes: &[u8],
) -> Result<Vec<BufferPiece>, AllocError>
    ensures covers { IfOk result (λ all. CoversBelow all.items (min (length bytes.now) 4294967295)) }
    ensures ordered { IfOk result (λ all. IsInOrder all.items) }
    ensures kept { IfOk result (λ all. IsKeptIn (with_fault (length bytes.now) fault pieces.items) all.items) }
{
    let mut pieces = pieces;
    push_fault(&mut pieces, fault, bytes)?;
    pieces.sort_by_key(|piece| piece.start)?;
    let len = bytes.len().min(u32::MAX as usize) as u32;
    without_gaps(alloc, pieces.as_slice(), len)
}

impl<'a> Listing<'a> {
    ghost use Rattle.std.specs.Prelude.{◌↔◌, ◌<◌, [], Contains, IfNone, IsNone, OnErr, Some, false, slice_get};
    ghost use Rattle.fb_inspect.specs.Listings.{head_of, noted_in};
    ghost use Rattle.fb_inspect.specs.Progress.{ListsNext, details_listed, left_of, pieces_of};

    /// The listing of a buffer, up to its fault if it has one.
    ///
    /// `raw` skips the file identifier check, and a `prefixed` buffer has a size prefix. It
    /// allocates a list of the parts, each with its fields, and fails where memory runs out.
    pub fn of(
        alloc: Global,
        layout: &'a Layout,
        bytes: &'a [u8],
        limits: Limits,
        raw: bool,
        prefixed: bool,
    ) -> Result<Listing<'a>, AllocError>
        ensures fault { IfOk result (λ listing. listing.fault ≡ framed_fault prefixed layout.now limits raw
            bytes.now) }
        ensures covers { IfOk result (λ listing. CoversBelow (pieces_of listing)
            (min (length bytes.now) 4294967295)) }
        ensures ordered { IfOk result (λ listing. IsInOrder (pieces_of listing)) }
        ensures faulty { IfOk result (λ listing. IfSome listing.fault (λ fault.
            Contains (noted_in (pieces_of listing)) (head_of (fault_piece (length bytes.now) fault)))) }
        ensures fresh { IfOk result (λ listing. left_of listing ≡ pieces_of listing) }
        ensures unlisted { IfOk result (λ listing. details_listed listing ≡ 0) }
    {
        let (notes, fault) = collect(alloc, layout, bytes, limits, raw, prefixed);
        let Notes {
            reached,
            pieces,
            way_back,
            is_walked,
            is_cut,
            ..
        } = notes;
        if is_cut {
            return Err(AllocError);
        }
        let nodes = reached.into_nodes();
        let pieces = in_order(alloc, pieces, fault, bytes)?;
        Ok(Listing {
            alloc,
            layout,
            bytes,
            nodes,
            pieces,
            fault,
            way_back,
            has_path: is_walked,
            next: 0,
            detail: 0,
            covered: 0,
            vtable: None,
        })
    }

    /// The fault of the buffer, if it has one.
    pub fn fault(&self) -> Option<ReadFault>
        ensures { result ≡ self.now.fault }
    {
        self.fault
    }

    fn scene(&self) -> Scene<'_> {
        Scene {
            alloc: self.alloc,
            layout: self.layout,
            bytes: self.bytes,
            nodes: &self.nodes,
        }
    }

    /// What is listed next; None after the last piece.
    fn next_turn(&self) -> Option<Turn>
        ensures end { IsNone result ↔ (left_of self.now ≡ []) }
        ensures piece { IfSome result (λ turn. slice_get self.now.pieces.items self.now.next ≡ Some turn.piece) }
        ensures start { IfSome result (λ turn. turn.start ≡ details_listed self.now) }
        ensures more { IfSome result (λ turn. turn.is_last ≡ false → turn.start < turn.end) }
    {
        let piece = self.pieces.get(self.next).copied()?;
        let count = details_of(self.scene(), &piece);
        let start = self.detail;
        let end = start.saturating_add(AT_A_TIME).min(count);
        Some(Turn {
            piece,
            start,
            end,
            is_last: end == count,
        })
    }

    /// The next lines; None after the last ones. Where memory runs out the same lines are still next.
    pub fn next_lines(&mut self) -> Result<Option<String>, AllocError>
        ensures plain { IfOk result (λ lines. IfSome lines (λ text. IsPage (chars (string_bytes text)))) }
        ensures end { IfOk result (λ lines. IsNone lines ↔ (left_of self.old ≡ [])) }
        ensures next { IfOk result (λ lines. IfSome lines (λ text. ListsNext self.old self.new)) }
        ensures ended { IfOk result (λ lines. IfNone lines (self.new ≡ self.old)) }
        ensures failed { OnErr result (self.new ≡ self.old) }
    {
        let Some(turn) = self.next_turn() else {
            return Ok(None);
        };
        let lines = self.lines_of(&turn)?;
        self.note_listed(&turn);
        Ok(Some(lines))
    }

    /// The lines of a turn.
    fn lines_of(&self, turn: &Turn) -> Result<String, AllocError>
        ensures plain { IfOk result (λ text. IsPage (chars (string_bytes text))) }
    {
        let mut page = Page::new(self.alloc, COLUMNS);
        if turn.start == 0 {
            self.push_first(&mut page, &turn.piece);
        }
        for detail in turn.start..turn.end {
            push_detail(&mut page, self.scene(), &turn.piece, detail);
        }
        page.into_text()
    }

    /// Adds a piece's first line.
    fn push_first(&self, page: &mut Page, piece: &BufferPiece) {
        match piece.what {
            What::Fault => self.push_fault_line(page, piece),
            _ => self.push_piece(page, piece),
        }
    }

    /// Whether a piece begins before one above it ends. Tables of several types may have one vtable.
    fn overlaps(&self, piece: &BufferPiece) -> bool {
        let is_again = matches!(piece.what, What::Vtable) && self.vtable == Some(piece.start);
        piece.start < self.covered && !is_again
    }

    /// Adds the line of a piece that isn't the fault.
    fn push_piece(&self, page: &mut Page, piece: &BufferPiece) {
        let is_whole = self.fault.is_none();
        let overlaps = self.overlaps(piece);
        push_head(page, self.scene(), piece, is_whole, overlaps);
    }

    /// Notes that a turn was listed, and goes on to the next piece after the last of its details.
    fn note_listed(&mut self, turn: &Turn)
        requires piece { slice_get self.old.pieces.items self.old.next ≡ Some turn.now.piece }
        requires start { turn.now.start ≡ details_listed self.old }
        requires more { turn.now.is_last ≡ false → turn.now.start < turn.now.end }
        ensures { ListsNext self.old self.new }
    {
        self.covered = self.covered.max(turn.piece.end);
        if let What::Vtable = turn.piece.what {
            self.vtable = Some(turn.piece.start);
        }
        if turn.is_last {
            self.next += 1;
            self.detail = 0;
        } else {
            self.detail = turn.end;
        }
    }

    /// Adds the line of the fault.
    fn push_fault_line(&self, page: &mut Page, piece: &BufferPiece) {
        begin_piece(page, self.bytes, piece);
        let Some(fault) = self.fault else {
            page.end_line();
            return;
        };
        page.line.push_str("FAULT ");
        page.line.push_number(u64::from(fault.number()));
        page.line.push_str(" ");
        page.line.push_str(fault.name());
        if let Some(at) = fault.offset() {
            page.line.push_str(" at ");
            page.line.push_number(at);
        }
        if let ReadFault::MissingRequired(_, slot) = fault {
            page.line.push_str(" slot ");
            page.line.push_number(u64::from(slot));
        }
        if self.has_path {
            page.line.push_str(" of ");
            let path = path_back(self.alloc, self.layout, self.way_back.as_slice());
            if let Some(path) = page.line.keep(path) {
                push_cut_path(page, path.as_str());
            }
        }
        page.end_line();
    }
}
