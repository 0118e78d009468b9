//! Laws of the parts that a walk enters.
ghost use Rattle.fb_read.specs.Entered.{PartsOfValue};

/// The parts that are reached from a place are the tables, vectors and texts of the value there.
#[tactic(auto, using(crate::proofs::laws::ReachedPartsAreThoseOfTheValue::parts_of_value_shown))]
pub fn parts_of_value()
    ensures { PartsOfValue }
{}
