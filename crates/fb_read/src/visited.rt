//! What a visit of a part has taken.
ghost use Rattle.std.specs.Prelude.{◌≡◌};

use crate::reader::ticks::Counted;

/// What a visit that found no fault has taken: so many cells, and so many parts entered.
#[derive(Drop)]
pub struct Visited {
    /// How many tables were above it.
    pub tables: u8,
    /// How many cells it has spent.
    pub cells: u64,
    /// How many parts it has entered.
    pub parts: Counted,
}

impl Visited {
    /// A copy.
    pub fn copied(&self) -> Visited
        ensures tables { result.tables ≡ self.now.tables }
        ensures cells { result.cells ≡ self.now.cells }
        ensures parts { result.parts ≡ self.now.parts }
    {
        Visited {
            tables: self.tables,
            cells: self.cells,
            parts: self.parts.copied(),
        }
    }
}
