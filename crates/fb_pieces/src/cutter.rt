//! What notes the cuts of a text, block by block.
use crate::cuts::{Cuts, RunEnd};
use crate::json_texts::MOST_BRACKETS;
use crate::walk::{BLOCK, brackets, commas, lowest, opening};
use std::alloc::{AllocError, Global};
use std::simd::prelude::*;

// As a length.
const MOST_OPEN: usize = MOST_BRACKETS as usize;

/// How many times as long a run may be whose elements have no brackets.
const WITHOUT_BRACKETS: usize = 2;

/// Elements without brackets that have this part of a run's bytes, or more, are runs of their own: long strings are
/// read best where they are.
const LONG_STRING: usize = 16;

/// How a walk goes on after a block.
#[derive(Clone, Copy)]
pub(crate) enum AfterBlock {
    /// With the next block.
    Block,
    /// From here: the byte after the bracket of an array that turned out to be long. Its commas weren't looked at.
    Back(usize),
    /// Not at all, since `serde_json` would refuse the text.
    Nothing,
}

/// A long array or object that isn't closed yet.
#[derive(Clone, Copy)]
struct OpenPart {
    is_array: bool,
    /// The most bytes of a run: more where no element has brackets, since the tree of such elements is small.
    most: usize,
    start: usize,
    /// Where its last run begins.
    from: usize,
    /// The last comma at which that run may end.
    comma: Option<usize>,
    /// How many elements it has up to that comma.
    count: usize,
    /// How many runs of the arrays around it are waiting.
    waiting: usize,
}

/// What is open, the runs of open arrays, and what has been noted.
#[derive(Drop)]
pub(crate) struct Cutter {
    most: usize,
    /// How many bytes are enough to be noted.
    noted: usize,
    /// How many brackets are open, and where they are.
    depth: usize,
    starts: [usize; MOST_OPEN],
    /// Those of them that are known to be long, which are the outermost.
    open: Vec<OpenPart>,
    waiting: Vec<RunEnd>,
    cuts: Cuts,
}

impl Cutter {
    pub(crate) fn new(alloc: Global, most: usize) -> Cutter {
        Cutter {
            most,
            noted: most / 4,
            depth: 0,
            starts: [0; MOST_OPEN],
            open: Vec::new(alloc),
            waiting: Vec::new(alloc),
            cuts: Cuts::none(alloc),
        }
    }

    pub(crate) fn into_cuts(self) -> Cuts {
        let Cutter { cuts, .. } = self;
        cuts
    }

    /// Goes over the block at this place, of which these bytes are outside strings.
    #[inline(always)]
    pub(crate) fn pass(
        &mut self,
        text: &[u8],
        at: usize,
        block: u8x64,
        outside: u64,
    ) -> Result<AfterBlock, AllocError> {
        let own = self.open.len();
        if self.depth > own && self.is_long(own, at) {
            if let Some(back) = self.open_long(text, at)? {
                return Ok(AfterBlock::Back(back));
            }
        }
        let brackets = brackets(block) & outside;
        if brackets != 0 {
            return self.pass_brackets(text, at, block, outside, brackets);
        }
        if self.depth == own {
            let commas = commas(block) & outside;
            if let Some(open) = self.open.last_mut() {
                if commas != 0 && !open.pass_all(at, commas) {
                    self.cut_runs(at, commas)?;
                }
            }
        }
        Ok(AfterBlock::Block)
    }

    /// Goes over a block that has brackets.
    #[inline(always)]
    fn pass_brackets(
        &mut self,
        text: &[u8],
        at: usize,
        block: u8x64,
        outside: u64,
        brackets: u64,
    ) -> Result<AfterBlock, AllocError> {
        let opening = opening(block);
        let mut rest = brackets;
        let mut depth = self.depth;
        let mut own = self.open.len();
        // Bytes of this block directly inside the innermost long container: up to the last bracket, and after it.
        let mut direct = 0;
        let mut after = if depth == own { outside } else { 0 };
        let mut nests = 0;
        for _ in 0..BLOCK {
            let bracket = rest & rest.wrapping_neg();
            let place = at.wrapping_add(rest.trailing_zeros() as usize);
            if opening & bracket != 0 {
                let Some(start) = self.starts.get_mut(depth) else {
                    return Ok(AfterBlock::Nothing);
                };
                *start = place;
                depth = depth.wrapping_add(1);
                direct |= after & bracket.wrapping_sub(1);
                nests |= after;
                after = 0;
            } else {
                let Some(start) = self.starts.get(depth.wrapping_sub(1)).copied() else {
                    return Ok(AfterBlock::Nothing);
                };
                if place.wrapping_sub(start) >= self.noted {
                    direct |= after & bracket.wrapping_sub(1);
                    self.pass_direct(at, block, direct, nests != 0)?;
                    direct = 0;
                    nests = 0;
                    self.depth = depth;
                    if let Some(back) = self.leave(text, start, place)? {
                        return Ok(AfterBlock::Back(back));
                    }
                    own = self.open.len();
                }
                depth = depth.wrapping_sub(1);
                if depth == own {
                    after = outside & bracket.wrapping_neg();
                }
            }
            rest ^= bracket;
            if rest == 0 {
                break;
            }
        }
        self.depth = depth;
        direct |= after;
        if direct | nests != 0 {
            self.pass_direct(at, block, direct, nests != 0)?;
        }
        Ok(AfterBlock::Block)
    }

    /// Goes over the commas of a block that are among these bytes. `nests` says that an element has brackets.
    #[inline(never)]
    fn pass_direct(
        &mut self,
        at: usize,
        block: u8x64,
        direct: u64,
        nests: bool,
    ) -> Result<(), AllocError> {
        let commas = commas(block) & direct;
        if let Some(open) = self.open.last_mut() {
            if nests {
                open.most = self.most;
            }
            if commas != 0 && !open.pass_all(at, commas) {
                return self.cut_runs(at, commas);
            }
        }
        Ok(())
    }

    /// Notes the container that a bracket at this place closes, which isn't short. Returns the place after the opening
    /// bracket of an array that turned out to be long.
    #[inline(never)]
    fn leave(
        &mut self,
        text: &[u8],
        start: usize,
        place: usize,
    ) -> Result<Option<usize>, AllocError> {
        if place.wrapping_sub(start) < self.most {
            self.cuts.push(start, place, &[])?;
            return Ok(None);
        }
        if let Some(back) = self.open_long(text, place)? {
            return Ok(Some(back));
        }
        self.close(place)?;
        Ok(None)
    }

    /// Whether what is open at this level is long at this place.
    #[inline(always)]
    fn is_long(&self, level: usize, place: usize) -> bool {
        self.starts
            .get(level)
            .is_some_and(|start| place.wrapping_sub(*start) >= self.most)
    }

    /// Notes the open containers that turned out to be long at this place, from the outermost to an array. Returns the
    /// place after that array's bracket.
    #[inline(never)]
    fn open_long(&mut self, text: &[u8], place: usize) -> Result<Option<usize>, AllocError> {
        for level in self.open.len()..self.depth {
            let start = self.starts.get(level).copied().unwrap_or(0);
            if place.wrapping_sub(start) < self.most {
                return Ok(None);
            }
            let from = start.saturating_add(1);
            let is_array = text.get(start) == Some(&b'[');
            self.open.push(OpenPart {
                is_array,
                most: self.most.saturating_mul(WITHOUT_BRACKETS),
                start,
                from,
                comma: None,
                count: 0,
                waiting: self.waiting.len(),
            })?;
            if is_array {
                self.depth = self.open.len();
                return Ok(Some(from));
            }
        }
        Ok(None)
    }

    /// Notes the innermost long array or object, which ends here.
    fn close(&mut self, closing: usize) -> Result<(), AllocError> {
        let Some(open) = self.open.pop() else {
            return Ok(());
        };
        let mut count = open.count;
        if let Some(comma) = open.comma {
            if closing.saturating_sub(open.from) > open.most {
                self.waiting.push(RunEnd { at: comma, count })?;
                count = 0;
            }
        }
        self.waiting.push(RunEnd {
            at: closing,
            count: count.saturating_add(1),
        })?;
        let runs = self.waiting.get(open.waiting..).unwrap_or(&[]);
        self.cuts.push(open.start, closing, runs)?;
        self.waiting.truncate(open.waiting);
        Ok(())
    }

    /// Goes over commas of the innermost long array, at some of which its runs have to end.
    #[inline(never)]
    fn cut_runs(&mut self, at: usize, commas: u64) -> Result<(), AllocError> {
        let Some(open) = self.open.last_mut() else {
            return Ok(());
        };
        let mut rest = commas;
        for _ in 0..2 * BLOCK {
            rest = open.pass_near(at, rest);
            if rest == 0 {
                break;
            }
            let from = open.from;
            let (run, after) = open.cut(at, rest);
            if open.most != self.most {
                open.most = most_without_brackets(self.most, from, run);
            }
            self.waiting.push(run)?;
            rest = after;
        }
        Ok(())
    }
}

/// The most bytes of the next run of an array whose elements have no brackets. Where those of the last run are long, it
/// is one element; after one that isn't, few may follow.
fn most_without_brackets(most: usize, from: usize, run: RunEnd) -> usize {
    if run.at.saturating_sub(from) >= run.count.saturating_mul(most / LONG_STRING) {
        return 0;
    }
    if run.count == 1 {
        return most / LONG_STRING;
    }
    most.saturating_mul(WITHOUT_BRACKETS)
}

impl OpenPart {
    /// Passes all commas of a block, if the run may end at each.
    #[inline(always)]
    fn pass_all(&mut self, at: usize, commas: u64) -> bool {
        if !self.is_array {
            return true;
        }
        let last = at.wrapping_add(BLOCK - 1 - commas.leading_zeros().min(63) as usize);
        if last.wrapping_sub(self.from) > self.most {
            return false;
        }
        self.comma = Some(last);
        self.count = self.count.wrapping_add(commas.count_ones() as usize);
        true
    }

    /// Passes the commas at which the run may end, and gives the others.
    #[inline(always)]
    fn pass_near(&mut self, at: usize, commas: u64) -> u64 {
        let last = self.from.saturating_add(self.most);
        let Some(room) = last.checked_sub(at) else {
            return commas;
        };
        let near = commas & lowest(room.saturating_add(1));
        if near == 0 {
            return commas;
        }
        let bit = BLOCK - 1 - near.leading_zeros() as usize;
        self.comma = Some(at.saturating_add(bit));
        self.count = self.count.saturating_add(near.count_ones() as usize);
        commas & !near
    }

    /// Ends the run at the last comma at which it may end, or at the first of these. Returns the commas after it.
    fn cut(&mut self, at: usize, commas: u64) -> (RunEnd, u64) {
        let (run, rest) = match self.comma {
            Some(comma) => (
                RunEnd {
                    at: comma,
                    count: self.count,
                },
                commas,
            ),
            None => (
                RunEnd {
                    at: at.saturating_add(commas.trailing_zeros() as usize),
                    count: 1,
                },
                commas & commas.wrapping_sub(1),
            ),
        };
        self.from = run.at.saturating_add(1);
        self.comma = None;
        self.count = 0;
        (run, rest)
    }
}
