//! Why a schema text is refused.
use std::alloc::{AllocError, AllocFailed};
use thiserror::Error;

/// What is wrong with a schema text, and the offset in bytes from its start.
///
/// `Memory` is a refused allocation.
#[derive(Clone, Copy, Debug, PartialEq, Eq, Drop, Error)]
pub enum SyntaxFault {
    #[error("the text isn't UTF-8 from {0} on")]
    NotUtf8(u64),
    #[error("no token begins with the byte at {0}, or it may not be in a quoted text")]
    BadByte(u64),
    #[error("the comment or quoted text from {0} on has no end")]
    Unterminated(u64),
    #[error("the integer at {0} is too large")]
    NumberTooBig(u64),
    #[error("the token at {0} is not expected there")]
    Unexpected(u64),
    #[error("the vector at {0} is inside a vector")]
    NestedVector(u64),
    #[error("out of memory")]
    Memory,
}

impl SyntaxFault {
    ghost use Rattle.std.specs.Prelude.{◌≡◌};
    ghost use Rattle.fb_syntax.specs.FaultTable.{number_of, name_of, offset_of};

    // The number and the name.
    fn row(self) -> (u8, &'static str)
        ensures number { result.0 ≡ number_of self }
        ensures name { result.1.now ≡ name_of self }
    {
        match self {
            SyntaxFault::NotUtf8(_) => (1, "NotUtf8"),
            SyntaxFault::BadByte(_) => (2, "BadByte"),
            SyntaxFault::Unterminated(_) => (3, "Unterminated"),
            SyntaxFault::NumberTooBig(_) => (4, "NumberTooBig"),
            SyntaxFault::Unexpected(_) => (5, "Unexpected"),
            SyntaxFault::NestedVector(_) => (6, "NestedVector"),
            SyntaxFault::Memory => (7, "Memory"),
        }
    }

    /// The fault's number; no other fault has it.
    pub fn number(self) -> u8
        ensures { result ≡ number_of self }
    {
        self.row().0
    }

    /// The fault's name, that of its variant.
    pub fn name(self) -> &'static str
        ensures { result.now ≡ name_of self }
    {
        self.row().1
    }

    /// Its offset, in bytes from the text's start; running out of memory has no place.
    pub fn offset(self) -> Option<u64>
        ensures { result ≡ offset_of self }
    {
        match self {
            SyntaxFault::NotUtf8(at)
            | SyntaxFault::BadByte(at)
            | SyntaxFault::Unterminated(at)
            | SyntaxFault::NumberTooBig(at)
            | SyntaxFault::Unexpected(at)
            | SyntaxFault::NestedVector(at) => Some(at),
            SyntaxFault::Memory => None,
        }
    }
}

impl From<AllocError> for SyntaxFault {
    ghost use Rattle.std.specs.Prelude.{◌≡◌};
    ghost use Rattle.fb_syntax.specs.declared.faults.SyntaxFault.TheVariants.{Memory};

    ghost from_gives = { λ _ e. e ≡ Memory };

    fn from(_refused: AllocError) -> SyntaxFault {
        SyntaxFault::Memory
    }
}

impl<T: Drop> From<AllocFailed<T>> for SyntaxFault {
    ghost use Rattle.std.specs.Prelude.{◌≡◌};
    ghost use Rattle.fb_syntax.specs.declared.faults.SyntaxFault.TheVariants.{Memory};

    ghost from_gives = { λ _ e. e ≡ Memory };

    fn from(_refused: AllocFailed<T>) -> SyntaxFault {
        SyntaxFault::Memory
    }
}
