//! Where a long JSON text may be cut.
use crate::cutter::{AfterBlock, Cutter};
use crate::walk::{BLOCK, BlockWalk, last_block};
use std::alloc::{AllocError, Global};
use std::collections::BTreeMap;
use std::simd::prelude::*;

/// Where a run of an array's elements ends, and how many it seems to have.
#[derive(Clone, Copy)]
pub(crate) struct RunEnd {
    pub(crate) at: usize,
    pub(crate) count: usize,
}

/// An array or object: its closing bracket, and the range of the noted runs that are its own.
#[derive(Clone, Copy)]
struct PartCuts {
    closing: usize,
    first: usize,
    end: usize,
}

/// Where a text may be cut: its long arrays, with runs of their elements, and its long objects. What has a quarter of
/// that length is noted without runs, so that it can be passed over.
#[derive(Drop)]
pub struct Cuts {
    parts: BTreeMap<usize, PartCuts>,
    runs: Vec<RunEnd>,
}

impl Cuts {
    /// The cuts of a text, by one walk over it. Long is what has more than `most` bytes. A run is as many elements as
    /// have at most `most` bytes together, or one that has more; twice as many where none has brackets, or one where
    /// these are strings that aren't short. None where brackets nest too deep for JSON, or close nothing.
    pub fn of(alloc: Global, text: &[u8], most: usize) -> Result<Option<Cuts>, AllocError> {
        let mut cutter = Cutter::new(alloc, most);
        let mut walk = BlockWalk::START;
        let mut at = 0;
        // Within a long array the walk goes over some `most` bytes again, once for each that is open.
        for _ in 0..text.len().saturating_mul(4) {
            if at >= text.len() {
                break;
            }
            let block = if text.len() - at >= BLOCK {
                u8x64::from_slice(&text[at..])
            } else {
                last_block(text, at)
            };
            let outside = walk.outside_strings(block);
            if outside == 0 {
                at = at.wrapping_add(BLOCK);
                continue;
            }
            match cutter.pass(text, at, block, outside)? {
                AfterBlock::Block => at = at.wrapping_add(BLOCK),
                AfterBlock::Back(start) => {
                    at = start;
                    walk = BlockWalk::START;
                }
                AfterBlock::Nothing => return Ok(None),
            }
        }
        Ok(Some(cutter.into_cuts()))
    }

    /// No cuts.
    pub(crate) fn none(alloc: Global) -> Cuts {
        Cuts {
            parts: BTreeMap::new(alloc),
            runs: Vec::new(alloc),
        }
    }

    /// Notes an array or object with these runs.
    pub(crate) fn push(
        &mut self,
        start: usize,
        closing: usize,
        runs: &[RunEnd],
    ) -> Result<(), AllocError> {
        let first = self.runs.len();
        self.runs.extend_from_slice(runs)?;
        let noted = PartCuts {
            closing,
            first,
            end: self.runs.len(),
        };
        match self.parts.insert(start, noted) {
            Ok(_before) => Ok(()),
            Err(_pair) => Err(AllocError),
        }
    }

    /// The runs of the array that begins there, if it is noted: none at all where it is short.
    pub(crate) fn runs_of(&self, start: usize) -> Option<&[RunEnd]> {
        let noted = self.parts.get(&start)?;
        self.runs.get(noted.first..noted.end)
    }

    /// The closing bracket of the array or object that begins there, if that is noted.
    pub(crate) fn closing_of(&self, start: usize) -> Option<usize> {
        Some(self.parts.get(&start)?.closing)
    }
}
