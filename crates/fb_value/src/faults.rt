//! Why bytes are refused.
use std::alloc::{AllocError, AllocFailed};
use thiserror::Error;

/// The rule that fails, and the offset in bytes from the buffer's start.
///
/// `MissingRequired` also names the slot. `Memory` is a refused allocation and no rule.
#[derive(Clone, Copy, Debug, PartialEq, Eq, Drop, Error)]
pub enum ReadFault {
    #[error("the buffer ends at {0}, inside its header")]
    Short(u64),
    #[error("the buffer is longer than {0} bytes")]
    TooLong(u64),
    #[error("the file identifier at {0} is not the schema's")]
    WrongIdentifier(u64),
    #[error("position {0} is not aligned")]
    Misaligned(u64),
    #[error("what is at {0} ends past the buffer")]
    OutOfBounds(u64),
    #[error("the reference at {0} is 0")]
    ZeroOffset(u64),
    #[error("the table at {0} has no valid vtable")]
    BadVtable(u64),
    #[error("the required slot {1} is missing at {0}")]
    MissingRequired(u64, u16),
    #[error("the string that ends at {0} has no zero byte")]
    NoTerminator(u64),
    #[error("the string's byte at {0} is not UTF-8")]
    BadUtf8(u64),
    #[error("the union's code at {0} has no value")]
    UnionMismatch(u64),
    #[error("the table at {0} is too deep")]
    TooDeep(u64),
    #[error("the cells at {0} are too many")]
    TooManyCells(u64),
    #[error("out of memory")]
    Memory,
}

impl ReadFault {
    ghost use Rattle.std.specs.Prelude.{◌≡◌};
    ghost use Rattle.fb_value.specs.FaultTable.{number_of, name_of, offset_of};

    // The number and the name.
    fn row(self) -> (u8, &'static str)
        ensures number { result.0 ≡ number_of self }
        ensures name { result.1.now ≡ name_of self }
    {
        match self {
            ReadFault::Short(_) => (50, "Short"),
            ReadFault::TooLong(_) => (51, "TooLong"),
            ReadFault::WrongIdentifier(_) => (52, "WrongIdentifier"),
            ReadFault::Misaligned(_) => (53, "Misaligned"),
            ReadFault::OutOfBounds(_) => (54, "OutOfBounds"),
            ReadFault::ZeroOffset(_) => (55, "ZeroOffset"),
            ReadFault::BadVtable(_) => (56, "BadVtable"),
            ReadFault::MissingRequired(_, _) => (57, "MissingRequired"),
            ReadFault::NoTerminator(_) => (58, "NoTerminator"),
            ReadFault::BadUtf8(_) => (59, "BadUtf8"),
            ReadFault::UnionMismatch(_) => (60, "UnionMismatch"),
            ReadFault::TooDeep(_) => (62, "TooDeep"),
            ReadFault::TooManyCells(_) => (63, "TooManyCells"),
            ReadFault::Memory => (64, "Memory"),
        }
    }

    /// The fault's number; no other fault has it.
    pub fn number(self) -> u8
        ensures { result ≡ number_of self }
    {
        self.row().0
    }

    /// The fault's name, that of its variant.
    pub fn name(self) -> &'static str
        ensures { result.now ≡ name_of self }
    {
        self.row().1
    }

    /// Its offset, in bytes from the buffer's start; running out of memory has no place.
    pub fn offset(self) -> Option<u64>
        ensures { result ≡ offset_of self }
    {
        match self {
            ReadFault::Short(at)
            | ReadFault::TooLong(at)
            | ReadFault::WrongIdentifier(at)
            | ReadFault::Misaligned(at)
            | ReadFault::OutOfBounds(at)
            | ReadFault::ZeroOffset(at)
            | ReadFault::BadVtable(at)
            | ReadFault::MissingRequired(at, _)
            | ReadFault::NoTerminator(at)
            | ReadFault::BadUtf8(at)
            | ReadFault::UnionMismatch(at)
            | ReadFault::TooDeep(at)
            | ReadFault::TooManyCells(at) => Some(at),
            ReadFault::Memory => None,
        }
    }
}

impl From<AllocError> for ReadFault {
    ghost use Rattle.std.specs.Prelude.{◌≡◌};
    ghost use Rattle.fb_value.specs.declared.faults.ReadFault.TheVariants.{Memory};

    ghost from_gives = { λ _ e. e ≡ Memory };

    fn from(_refused: AllocError) -> ReadFault {
        ReadFault::Memory
    }
}

impl<T: Drop> From<AllocFailed<T>> for ReadFault {
    ghost use Rattle.std.specs.Prelude.{◌≡◌};
    ghost use Rattle.fb_value.specs.declared.faults.ReadFault.TheVariants.{Memory};

    ghost from_gives = { λ _ e. e ≡ Memory };

    fn from(_refused: AllocFailed<T>) -> ReadFault {
        ReadFault::Memory
    }
}
