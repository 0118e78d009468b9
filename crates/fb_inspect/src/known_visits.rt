//! What visits of a buffer's parts take, as far as a walk has found out.
ghost use Rattle.std.specs.Prelude.{◌≡◌, IfSome};
ghost use Rattle.fb_read.specs.Visited.{part_at, Takes, IsVisited};

use fb_read::{Buffer, Part, Visited};
use std::alloc::{AllocError, Global};
use std::marker::Model;

/// A part that was visited without a fault, and what its visit takes.
#[derive(Drop)]
pub(crate) struct KnownVisit {
    part: Part,
    at: usize,
    visited: Visited,
}

/// What visits of a buffer's parts take, by number.
#[derive(Drop)]
pub(crate) struct KnownVisits<'a> {
    buffer: Buffer<'a>,
    visits: Vec<KnownVisit>,
}

impl<'a> Model for KnownVisits<'a> {
    ghost use Rattle.fb_read.specs.declared.buffer.Buffer.{Buffer as ReadBuffer};

    ghost Value = { ReadBuffer };

    ghost use Rattle.std.specs.List.{All};
    ghost use Rattle.fb_inspect.specs.Known.{IsKnown};

    ghost view = { λ known. known.buffer };

    ghost invariant = { λ known. All (IsKnown known.buffer) known.visits.items };
}

impl<'a> KnownVisits<'a> {
    /// None is known yet of a buffer.
    pub(crate) fn new(alloc: Global, buffer: Buffer<'a>) -> KnownVisits<'a>
        ensures { result ≡ buffer.entry }
    {
        KnownVisits {
            buffer,
            visits: Vec::new(alloc),
        }
    }

    /// What a visit of a part takes with so many tables above it and cells spent before it, by the number of a visit
    /// that was noted, if it has so much room.
    pub(crate) fn find(
        &self,
        number: usize,
        part: Part,
        at: usize,
        tables: u8,
        spent: u64,
    ) -> Option<Visited>
        ensures { IfSome result (Takes self.now (part_at self.now part at) tables spent) }
    {
        let known = self.visits.get(number)?;
        let most = u64::from(self.buffer.most_cells);
        let left = most.checked_sub(spent)?;
        let has_room = tables <= known.visited.tables && known.visited.cells <= left;
        if has_room && known.part == part && known.at == at {
            Some(known.visited.copied())
        } else {
            None
        }
    }

    /// Notes what a visit of a part takes, and returns its number: that of an earlier visit, if there was one.
    pub(crate) fn note(
        &mut self,
        earlier: Option<usize>,
        part: Part,
        at: usize,
        visited: Visited,
    ) -> Result<usize, AllocError>
        requires { IsVisited self.old (part_at self.old part at) visited }
        ensures { self.new ≡ self.old }
    {
        if let Some(number) = earlier
            && number < self.visits.len()
        {
            self.visits[number] = KnownVisit { part, at, visited };
            return Ok(number);
        }
        let number = self.visits.len();
        self.visits.push(KnownVisit { part, at, visited })?;
        Ok(number)
    }
}
