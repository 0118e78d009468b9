//! Who hears of a walk.
ghost use Rattle.std.specs.Prelude.{◌≡◌, ◌<◌, ◌^◌, List, [], ◌∷◌, IfSome};
ghost use Rattle.fb_read.specs.declared.step.Step.{Step};
ghost use Rattle.fb_read.specs.declared.buffer.Buffer.{Buffer};
ghost use Rattle.fb_read.specs.Visited.{part_at, Takes, IsVisited};

use crate::buffer::Buffer;
use crate::part::PartAt;
use crate::step::Step;
use crate::visited::Visited;

/// Who hears of the parts that a walk comes to, and of the way back from a refusal, the last step first.
pub trait Hearer {
    // Between one state and another it was told these steps.
    ghost told: { Self → List Step → Self → Type 0 };

    // What it knows of parts is of this buffer.
    ghost knows: { Self → Buffer → Type 0 };

    /// Called when the walk comes to the target of the reference at `reference_at`, with `tables` tables above it and
    /// `spent` cells spent before it. Returns what a visit of it takes, if that is known: then the walk passes over the
    /// part.
    ///
    /// A part that isn't passed over is left once: by `leave`, or by `hear` of `Step::Reference` after a fault in it.
    fn come_to(
        &mut self,
        buffer: &Buffer,
        target: PartAt,
        reference_at: usize,
        tables: u8,
        spent: u64,
    ) -> Option<Visited>
        requires knows { knows self.old buffer.now }
        requires low { target.at < 2 ^ 33 }
        ensures same { self.new ≡ self.old }
        ensures visit { IfSome result (Takes buffer.now (part_at buffer.now target.part target.at) tables spent) };

    /// Called when the visit of a part has found no fault, with what it took.
    fn leave(&mut self, buffer: &Buffer, target: PartAt, visited: Visited)
        requires knows { knows self.old buffer.now }
        requires visited { IsVisited buffer.now (part_at buffer.now target.part target.at) visited }
        ensures same { self.new ≡ self.old };

    /// Hears of the step before those that it was told so far.
    fn hear(&mut self, step: Step)
        ensures { (first : Self) (steps : List Step) → told first steps self.old → told first (step ∷ steps) self.new };

    ghost silent: { (hearer : Self) → told hearer [] hearer };
}

/// Hears of nothing.
#[derive(Clone, Copy, Debug, PartialEq, Eq)]
pub struct Nobody;

impl Hearer for Nobody {
    ghost knows = { λ _ _. Unit {0} };

    ghost told = { λ _ _ _. Unit {0} };

    #[inline(always)]
    fn come_to(
        &mut self,
        _buffer: &Buffer,
        _target: PartAt,
        _reference_at: usize,
        _tables: u8,
        _spent: u64,
    ) -> Option<Visited> {
        None
    }

    #[inline(always)]
    fn leave(&mut self, _buffer: &Buffer, _target: PartAt, _visited: Visited) {}

    #[inline(always)]
    fn hear(&mut self, _step: Step) {}

    ghost silent = { λ _. tt };
}
