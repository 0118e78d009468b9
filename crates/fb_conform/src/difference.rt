//! What differs in a new schema.
use crate::breaches::Breach;
use crate::names::MovedName;

/// What differs in a new schema: what breaks with the old one, or a name that stands for something else.
#[derive(Clone, Copy, Debug, PartialEq, Eq, Drop)]
pub enum Difference {
    /// A condition of conforming that fails.
    Breach(Breach),
    /// A name that stands for another field or member.
    Moved(MovedName),
}
