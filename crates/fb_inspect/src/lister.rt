//! Who lists the parts that a walk comes to.
ghost use Rattle.std.specs.Prelude.{◌≡◌};

use crate::known_visits::KnownVisits;
use crate::notes::Notes;
use fb_read::{Buffer, Hearer, PartAt, Step, Visited};
use std::alloc::Global;
use std::marker::Model;

/// Notes what a walk comes to, each part once: the walk passes over a part that is known.
#[derive(Drop)]
pub(crate) struct Lister<'a> {
    known: KnownVisits<'a>,
    notes: Notes<'a>,
}

// No contract depends on what is noted.
impl<'a> Model for Lister<'a> {
    ghost use Rattle.fb_read.specs.declared.buffer.Buffer.{Buffer as ReadBuffer};

    ghost Value = { ReadBuffer };

    ghost view = { λ lister. lister.known };

    ghost invariant = { λ _. Unit {0} };
}

impl<'a> Lister<'a> {
    /// Nothing is known of a buffer yet, but what was noted before.
    pub(crate) fn new(alloc: Global, buffer: Buffer<'a>, notes: Notes<'a>) -> Lister<'a>
        ensures { result ≡ buffer.entry }
    {
        Lister {
            known: KnownVisits::new(alloc, buffer),
            notes,
        }
    }

    /// What it has noted.
    pub(crate) fn into_notes(self) -> Notes<'a> {
        self.notes
    }
}

impl<'a> Hearer for Lister<'a> {
    ghost use Rattle.std.specs.Prelude.{◌≡◌};

    ghost told = { λ _ _ _. Unit {0} };

    ghost knows = { λ lister buffer. lister ≡ buffer };

    fn come_to(
        &mut self,
        _buffer: &Buffer,
        target: PartAt,
        reference_at: usize,
        tables: u8,
        spent: u64,
    ) -> Option<Visited> {
        let PartAt { part, at } = target;
        let visit = self.notes.come_to(part, reference_at, at)?;
        let visited = self.known.find(visit, part, at, tables, spent)?;
        self.notes.pass_over();
        Some(visited)
    }

    fn leave(&mut self, _buffer: &Buffer, target: PartAt, visited: Visited) {
        let PartAt { part, at } = target;
        let earlier = self.notes.visit();
        match self.known.note(earlier, part, at, visited) {
            Ok(visit) => self.notes.leave(visit),
            Err(_) => self.notes.is_cut = true,
        }
    }

    fn hear(&mut self, step: Step) {
        self.notes.hear(step);
    }

    ghost silent = { λ _. tt };
}
