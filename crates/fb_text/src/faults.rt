//! Why a value has no JSON text, or its text was not written whole.
use fb_json::Place;
use thiserror::Error;

/// Why a text was not written whole.
///
/// `NoMemberName` comes before the first byte. `WriteFailed` says how many bytes of the text were
/// written; the count stops at its greatest value.
#[derive(Clone, Copy, Debug, PartialEq, Eq, Drop, Error)]
pub enum WriteFault {
    #[error("a union's member has no name in the schema, in {0}")]
    NoMemberName(Place),
    #[error("a write failed after {0} bytes")]
    WriteFailed(u64),
}

impl WriteFault {
    ghost use Rattle.std.specs.Prelude.{◌≡◌};
    ghost use Rattle.fb_text.specs.FaultTable.{number_of, name_of, place_of, written_of};

    // The number and the name.
    fn row(self) -> (u8, &'static str)
        ensures number { result.0 ≡ number_of self }
        ensures name { result.1.now ≡ name_of self }
    {
        match self {
            WriteFault::NoMemberName(_) => (81, "NoMemberName"),
            WriteFault::WriteFailed(_) => (82, "WriteFailed"),
        }
    }

    /// The fault's number; no other fault has it.
    pub fn number(self) -> u8
        ensures { result ≡ number_of self }
    {
        self.row().0
    }

    /// The fault's name, that of its variant.
    pub fn name(self) -> &'static str
        ensures { result.now ≡ name_of self }
    {
        self.row().1
    }

    /// The slot of the union without a name; a failed write has no place.
    pub fn place(self) -> Option<Place>
        ensures { result ≡ place_of self }
    {
        match self {
            WriteFault::NoMemberName(place) => Some(place),
            WriteFault::WriteFailed(_) => None,
        }
    }

    /// How many bytes were written before a write failed.
    pub fn written(self) -> Option<u64>
        ensures { result ≡ written_of self }
    {
        match self {
            WriteFault::NoMemberName(_) => None,
            WriteFault::WriteFailed(written) => Some(written),
        }
    }
}

/// Why a value has no JSON text. `Memory` is a refused allocation.
#[derive(Clone, Copy, Debug, PartialEq, Eq, Drop, Error)]
pub enum TextFault {
    #[error("a union's member has no name in the schema, in {0}")]
    NoMemberName(Place),
    #[error("out of memory")]
    Memory,
}

impl TextFault {
    ghost use Rattle.std.specs.Prelude.{◌≡◌};
    ghost use Rattle.fb_text.specs.FaultTable.{text_number_of, text_name_of, text_place_of};

    // The number and the name.
    fn row(self) -> (u8, &'static str)
        ensures number { result.0 ≡ text_number_of self }
        ensures name { result.1.now ≡ text_name_of self }
    {
        match self {
            TextFault::NoMemberName(_) => (81, "NoMemberName"),
            TextFault::Memory => (84, "Memory"),
        }
    }

    /// The fault's number; no other fault has it.
    pub fn number(self) -> u8
        ensures { result ≡ text_number_of self }
    {
        self.row().0
    }

    /// The fault's name, that of its variant.
    pub fn name(self) -> &'static str
        ensures { result.now ≡ text_name_of self }
    {
        self.row().1
    }

    /// The slot of the union without a name; running out of memory has no place.
    pub fn place(self) -> Option<Place>
        ensures { result ≡ text_place_of self }
    {
        match self {
            TextFault::NoMemberName(place) => Some(place),
            TextFault::Memory => None,
        }
    }
}
