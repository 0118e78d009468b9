//! Laws of the bytes that hold a value.
//!
//! A law names the lemma that proves it; one that names none has it in `proofs/laws/NAME`.
ghost use Rattle.fb_value.specs.Laws.{OneValue, ValueWhereAllKeep, CellsOfPlace, CellsOfValue, FaultOfLeastPath};
ghost use Rattle.fb_value.specs.Laws.{ValueOrFault, OneLeastFault, NestingOfDepth, FaultOfPlace, FitsWhereHeld};
ghost use Rattle.fb_value.specs.Laws.{ValueOfPlace, ValueWhereLies};
ghost use Rattle.fb_value.specs.Nth.{EntryLies, ElementLies, PartLies};
ghost use Rattle.fb_value.specs.TailLaws.{KeptInFront, KeptByMultiple, LiesInWhole, OldKeptInFront};
ghost use Rattle.fb_value.specs.EachTable.{EachTableReached, OnlyOldByTables};
ghost use Rattle.fb_value.specs.Messages.{OneMessageInFront, MessageIsWhole, HeldIsMessage};
ghost use Rattle.fb_value.specs.Missing.{FirstMissing};

/// Bytes hold one value at most.
pub fn one_value()
    ensures { OneValue }
{}

/// There is a value at the root exactly where each reachable place keeps its rules.
pub fn value_where_all_keep()
    ensures { ValueWhereAllKeep }
{}

/// The cells of a place are its own and those of what it names.
#[tactic(auto, using(crate::proofs::reached::CellsAreThoseReached::cells_of_place_shown))]
pub fn cells_of_place()
    ensures { CellsOfPlace }
{}

/// The cells of a value are those of the places that are reached.
#[tactic(auto, using(crate::proofs::reached::CellsAreThoseReached::cells_of_value_shown))]
pub fn cells_of_value()
    ensures { CellsOfValue }
{}

/// What is computed is the fault at the least path, or there is none.
#[tactic(auto, using(crate::proofs::rules::ComputedFaultIsTheLeast::fault_of_least_path_shown))]
pub fn fault_of_least_path()
    ensures { FaultOfLeastPath }
{}

/// Bytes hold a value exactly where there is no fault, and else have a least one.
#[tactic(auto, using(crate::proofs::held::BytesHoldAValueOrAFault::value_or_fault_shown))]
pub fn value_or_fault()
    ensures { ValueOrFault }
{}

/// Bytes have one least fault at most.
pub fn one_least_fault()
    ensures { OneLeastFault }
{}

/// What fits the root, with a nesting depth of at most 127 tables, is nested at most 300 deep.
#[tactic(auto, using(crate::proofs::types::NestingIsBoundedByDepth::nesting_of_depth_shown))]
pub fn nesting_of_depth()
    ensures { NestingOfDepth }
{}

/// What a table has in a slot is stored where the slot's offset points.
pub fn entry_lies()
    ensures { EntryLies }
{}

/// An element of a vector is stored as far on as its index says.
#[tactic(auto, using(crate::proofs::held::EachPartLiesInItsPlace::element_lies_shown))]
pub fn element_lies()
    ensures { ElementLies }
{}

/// What a struct has in a field is stored at the field's offset.
#[tactic(auto, using(crate::proofs::held::EachPartLiesInItsPlace::part_lies_shown))]
pub fn part_lies()
    ensures { PartLies }
{}

/// The first fault from a place is its own, or the first of those that it names.
#[tactic(auto, using(crate::proofs::rules::FaultOfAPlaceByOneStep::fault_from_is))]
pub fn fault_of_place()
    ensures { FaultOfPlace }
{}

/// The value that bytes hold fits the root.
pub fn fits_where_held()
    ensures { FitsWhereHeld }
{}

/// The value at a place is made of those at the places that it names.
pub fn value_of_place()
    ensures { ValueOfPlace }
{}

/// The value that is computed at a place is the one that is stored there.
#[tactic(auto, using(crate::proofs::laws::ValueOfAPlaceByOneStep::value_where_lies_shown))]
pub fn value_where_lies()
    ensures { ValueWhereLies }
{}

/// Bytes added in front keep what a tail encodes.
pub fn kept_in_front()
    ensures { KeptInFront }
{}

/// What a tail encodes it encodes for a larger multiple too.
#[tactic(auto, using(crate::proofs::tails::TailsAreKeptInFront::multiple_shown))]
pub fn kept_by_multiple()
    ensures { KeptByMultiple }
{}

/// Bytes laid in front keep that the tables of a tail have only slots in use.
#[tactic(auto, using(crate::proofs::tails::TailsAreKeptInFront::old_shown))]
pub fn old_kept_in_front()
    ensures { OldKeptInFront }
{}

/// What a tail encodes a whole buffer encodes whose length is a multiple of all alignments.
#[tactic(auto, using(crate::proofs::tails::TailsAreKeptInFront::whole_shown))]
pub fn lies_in_whole()
    ensures { LiesInWhole }
{}

/// What holds of each table of a value holds of each table that is reached.
#[tactic(auto, using(crate::proofs::reached::EachTableIsReached::reached_shown))]
pub fn each_table_reached()
    ensures { EachTableReached }
{}

/// Where each table of a value has only slots in use, so has each that is reached.
#[tactic(auto, using(crate::proofs::reached::EachTableIsReached::only_old_shown))]
pub fn only_old_by_tables()
    ensures { OnlyOldByTables }
{}

/// The least missing slot is the first missing one among the required slots.
#[tactic(auto, using(crate::proofs::rules::FirstMissingSlotIsRequired::first_shown))]
pub fn first_missing()
    ensures { FirstMissing }
{}

/// A stream of size-prefixed buffers begins with one of them at most.
#[tactic(auto, using(crate::proofs::held::MessagesAreTold::one_in_front_shown))]
pub fn one_message_in_front()
    ensures { OneMessageInFront }
{}

/// Whatever is after a size-prefixed buffer, it can be taken from the front.
pub fn message_is_whole()
    ensures { MessageIsWhole }
{}

/// A size-prefixed buffer that holds a value is as long as its prefix says.
pub fn held_is_message()
    ensures { HeldIsMessage }
{}
