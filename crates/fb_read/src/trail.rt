//! A hearer that keeps the way back from a fault.
ghost use Rattle.std.specs.Prelude.{◌≡◌, [], false, reverse, IfOk};

use crate::buffer::Buffer;
use crate::hearer::Hearer;
use crate::part::PartAt;
use crate::step::Step;
use crate::visited::Visited;
use std::alloc::{AllocError, Global};

/// The steps back from a fault, the last one first, as far as memory lasts.
#[derive(Drop)]
pub struct Trail {
    steps: Vec<Step>,
    /// Whether a step is missing since memory ran out.
    cut: bool,
}

impl Trail {
    /// Without a step.
    pub fn new(alloc: Global) -> Trail
        ensures { result.steps.items ≡ [] }
    {
        Trail {
            steps: Vec::new(alloc),
            cut: false,
        }
    }

    /// The steps from the first one on.
    pub fn into_steps(self) -> Result<Vec<Step>, AllocError>
        ensures { IfOk result (λ steps. (self.cut ≡ false) × (steps.items ≡ reverse self.steps.items)) }
    {
        if self.cut {
            return Err(AllocError);
        }
        let mut steps = self.steps;
        steps.reverse();
        Ok(steps)
    }
}

impl Hearer for Trail {
    ghost use Rattle.std.specs.Prelude.{◌≡◌, false, ◌++◌, reverse};
    ghost use Rattle.std.proofs.Common.{sym, append-nil};

    ghost told = { λ first steps last. last.cut ≡ false
        → (first.cut ≡ false) × (last.steps.items ≡ first.steps.items ++ reverse steps) };

    ghost knows = { λ _ _. Unit {0} };

    #[inline(always)]
    fn come_to(
        &mut self,
        _buffer: &Buffer,
        _target: PartAt,
        _reference_at: usize,
        _tables: u8,
        _spent: u64,
    ) -> Option<Visited> {
        None
    }

    #[inline(always)]
    fn leave(&mut self, _buffer: &Buffer, _target: PartAt, _visited: Visited) {}

    fn hear(&mut self, step: Step) {
        if self.steps.push(step).is_err() {
            self.cut = true;
        }
    }

    ghost silent = { λ trail cut. (cut, sym (append-nil trail.steps.items)) };
}
