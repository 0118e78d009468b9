//! Laws of buffers that are covered.
//!
//! A law names the lemma that proves it; one that names none has it in `proofs/laws/NAME`.
ghost use Rattle.fb_build.specs.CoveredLaws.{CoveredByItsValue, ZeroOutside, FewOutside, ReachedIsListed};
ghost use Rattle.fb_build.specs.CoveredTails.{TightKeptInFront, ReachedKeptInFront, InlineKeptInFront};
ghost use Rattle.fb_build.specs.CoveredSteps.{RunsKeptByMore, ChunksJoin, MadeInFront, OnceWhereDistinct};
ghost use Rattle.fb_build.specs.CoveredSteps.{MadeWhole, CoveredWhole};
ghost use Rattle.fb_build.specs.ExampleBuffersAreCovered.{ExamplesAreCovered};
ghost use Rattle.fb_build.specs.ExampleBuffersHaveSlack.{ExamplesHaveSlack};
ghost use Rattle.fb_tape.specs.Taken.{ZeroIsComputed};

/// A buffer is covered by the value that it encodes.
pub fn covered_by_its_value()
    ensures { CoveredByItsValue }
{}

/// A byte in no piece of a covered buffer is 0.
pub fn zero_outside()
    ensures { ZeroOutside }
{}

/// Bytes in no piece are fewer in a row than the greatest alignment.
pub fn few_outside()
    ensures { FewOutside }
{}

/// Worked buffers are covered, and end at a multiple of their greatest alignment.
pub fn examples_are_covered()
    ensures { ExamplesAreCovered }
{}

/// A buffer that holds its value isn't covered where it has slack: an example for each kind.
#[tactic(auto, using(crate::proofs::covered::SlackIsNotCovered::examples_shown))]
pub fn examples_have_slack()
    ensures { ExamplesHaveSlack }
{}

/// Whether bytes that nothing takes are 0 can be computed.
#[tactic(auto, using(crate::proofs::covered::ZeroOutsideIsComputed::zero_is_computed_shown))]
pub fn zero_is_computed()
    ensures { ZeroIsComputed }
{}

/// Bytes laid in front keep that tables have no slack.
#[tactic(auto, using(crate::proofs::covered::TightTableStaysTightFurtherOn::tight_front_shown))]
pub fn tight_kept_in_front()
    ensures { TightKeptInFront }
{}

/// What is reached in a tail is reached in the same places once bytes are laid in front.
#[tactic(auto, using(crate::proofs::covered::ReachedVtablesAreInside::reached_front_shown))]
pub fn reached_kept_in_front()
    ensures { ReachedKeptInFront }
{}

/// Bytes laid in front keep that numbers and structs have no slack.
#[tactic(auto, using(crate::proofs::covered::TightStructStaysTightFurtherOn::inline_front_shown))]
pub fn inline_kept_in_front()
    ensures { InlineKeptInFront }
{}

/// A greater number bounds runs of zeros too.
#[tactic(auto, using(crate::proofs::covered::ChunksJoin::more_shown))]
pub fn runs_kept_by_more()
    ensures { RunsKeptByMore }
{}

/// Chunks in front of chunks are chunks.
pub fn chunks_join()
    ensures { ChunksJoin }
{}

/// A tail that is made of parts and vtables is so once others are laid in front.
#[tactic(auto, using(crate::proofs::covered::ChunksJoin::made_shown))]
pub fn made_in_front()
    ensures { MadeInFront }
{}

/// Numbers that occur once each are a list's numbers, each once.
#[tactic(auto, using(crate::proofs::covered::DistinctNumbersAreListedOnce::once_shown))]
pub fn once_where_distinct()
    ensures { OnceWhereDistinct }
{}

/// A buffer is made of a value's pieces once its header is laid.
pub fn made_whole()
    ensures { MadeWhole }
{}

/// What a path leads to is among a value's parts.
#[tactic(auto, using(crate::proofs::covered::ReachedPartsAreListed::listed_shown))]
pub fn reached_is_listed()
    ensures { ReachedIsListed }
{}

/// A buffer is covered once its header is laid in front of a tail that has no slack.
pub fn covered_whole()
    ensures { CoveredWhole }
{}
