//! What a walk carries along.
ghost use Rattle.std.specs.Prelude.{◌≡◌, ◌<◌, ◌^◌, List, ◌∷◌, false, IsTrue, OnOk, MatchResult};
ghost use Rattle.fb_read.specs.declared.step.Step.{Step};
ghost use Rattle.fb_read.specs.Visited.{part_at, HasVisited};
ghost use Rattle.fb_read.specs.Ends.{PassesAt};

use crate::buffer::Buffer;
use crate::hearer::Hearer;
use crate::part::PartAt;
use crate::reader::ticks::{Counted, Ticks};
use crate::step::Step;
use crate::visited::Visited;
use fb_schema::FieldInfo;
use fb_value::ReadFault;

/// What a walk notes, and its hearer: the cells spent so far, the parts entered, and whether it was whole so far.
pub struct Walk<H> {
    pub spent: u64,
    pub ticks: Ticks,
    /// Whether each union that it has met is of a code that its schema knows. What it has passed over it doesn't know.
    pub whole: bool,
    pub hearer: H,
}

/// Tells a walk's hearer the step to what was visited, where that was refused.
#[inline(always)]
pub fn tell<H: Hearer>(walk: &mut Walk<H>, step: Step, visited: &Result<(), ReadFault>)
    ensures spent { walk.new.spent ≡ walk.old.spent }
    ensures ticks { walk.new.ticks ≡ walk.old.ticks }
    ensures whole { walk.new.whole ≡ walk.old.whole }
    ensures told { MatchResult visited.now (λ _. walk.new.hearer ≡ walk.old.hearer)
        (λ _. (first : H) (steps : List Step) → H.told first steps walk.old.hearer
        → H.told first (step ∷ steps) walk.new.hearer) }
{
    if visited.is_err() {
        walk.hearer.hear(step);
    }
}

/// What a walk had spent and entered when it came to a part.
#[derive(Drop)]
pub struct Mark {
    pub spent: u64,
    pub parts: Counted,
}

impl<H> Walk<H> {
    /// What it has spent and entered so far.
    #[inline(always)]
    pub fn mark(&self) -> Mark
        ensures spent { result.spent ≡ self.now.spent }
        ensures parts { result.parts ≡ self.now.ticks }
    {
        Mark {
            spent: self.spent,
            parts: self.ticks.counted(),
        }
    }
}

/// Comes to the target of the reference at a position, and passes over it where the hearer knows what its visit takes.
/// Returns whether it did.
#[inline(always)]
pub fn pass_over<H: Hearer>(
    buffer: &Buffer,
    walk: &mut Walk<H>,
    target: PartAt,
    reference_at: usize,
    tables: u8,
) -> bool
    requires knows { H.knows walk.old.hearer buffer.now }
    requires low { target.at < 2 ^ 33 }
    ensures before { result ≡ false → walk.new ≡ walk.old }
    ensures known { IsTrue result → PassesAt buffer.now (part_at buffer.now target.part target.at) tables
        walk.old walk.new }
{
    let known = walk
        .hearer
        .come_to(buffer, target, reference_at, tables, walk.spent);
    let Some(visited) = known else {
        return false;
    };
    walk.spent += visited.cells;
    walk.ticks.count_again(&visited.parts);
    walk.whole = false;
    true
}

/// Leaves a part: tells the hearer what its visit has taken, or the way back from its fault.
#[inline(always)]
pub fn leave<H: Hearer>(
    buffer: &Buffer,
    walk: &mut Walk<H>,
    target: PartAt,
    tables: u8,
    mark: Mark,
    visited: &Result<(), ReadFault>,
)
    requires { OnOk visited.now (HasVisited H.knows buffer.now (part_at buffer.now target.part target.at) tables mark
        walk.old) }
    ensures spent { walk.new.spent ≡ walk.old.spent }
    ensures ticks { walk.new.ticks ≡ walk.old.ticks }
    ensures whole { walk.new.whole ≡ walk.old.whole }
    ensures told { MatchResult visited.now (λ _. walk.new.hearer ≡ walk.old.hearer)
        (λ _. (first : H) (steps : List Step) → H.told first steps walk.old.hearer
        → H.told first (Step.Reference ∷ steps) walk.new.hearer) }
{
    match visited {
        Ok(_) => {
            let taken = Visited {
                tables,
                cells: walk.spent - mark.spent,
                parts: walk.ticks.counted_since(&mark.parts),
            };
            walk.hearer.leave(buffer, target, taken);
        }
        Err(_) => walk.hearer.hear(Step::Reference),
    }
}

/// A table that a walk has entered, and its vtable.
#[derive(Clone, Copy, Debug, PartialEq, Eq)]
pub struct TableAt {
    pub at: usize,
    pub vtable_at: usize,
}

/// A slot of a table's type: its number, its field, and the fields of the slots after it.
#[derive(Clone, Copy)]
pub struct NumberedSlot<'s> {
    pub number: usize,
    pub field: &'s FieldInfo,
    pub later: &'s [FieldInfo],
}
