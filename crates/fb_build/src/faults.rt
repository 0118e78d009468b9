//! Why no buffer is built.
use std::alloc::{AllocError, AllocFailed};
use thiserror::Error;

/// Why no buffer is built.
#[derive(Clone, Copy, Debug, PartialEq, Eq, Drop, Error)]
pub enum BuildFault {
    /// The value's room is over 2,147,483,647 bytes.
    #[error("the buffer may take more than 2147483647 bytes")]
    TooBig,
    /// A refused allocation.
    #[error("out of memory")]
    Memory,
}

impl BuildFault {
    ghost use Rattle.std.specs.Prelude.{◌≡◌, None};
    ghost use Rattle.fb_build.specs.FaultTable.{number_of, name_of};

    // The number and the name.
    fn row(self) -> (u8, &'static str)
        ensures number { result.0 ≡ number_of self }
        ensures name { result.1.now ≡ name_of self }
    {
        match self {
            BuildFault::TooBig => (40, "TooBig"),
            BuildFault::Memory => (41, "Memory"),
        }
    }

    /// The fault's number; no other fault has it.
    pub fn number(self) -> u8
        ensures { result ≡ number_of self }
    {
        self.row().0
    }

    /// The fault's name, that of its variant.
    pub fn name(self) -> &'static str
        ensures { result.now ≡ name_of self }
    {
        self.row().1
    }

    /// None: a value's size has no place.
    pub fn offset(self) -> Option<u64>
        ensures { result ≡ None }
    {
        None
    }
}

impl From<AllocError> for BuildFault {
    ghost use Rattle.std.specs.Prelude.{◌≡◌};
    ghost use Rattle.fb_build.specs.declared.faults.BuildFault.TheVariants.{Memory};

    ghost from_gives = { λ _ e. e ≡ Memory };

    fn from(_refused: AllocError) -> BuildFault {
        BuildFault::Memory
    }
}

impl<T: Drop> From<AllocFailed<T>> for BuildFault {
    ghost use Rattle.std.specs.Prelude.{◌≡◌};
    ghost use Rattle.fb_build.specs.declared.faults.BuildFault.TheVariants.{Memory};

    ghost from_gives = { λ _ e. e ≡ Memory };

    fn from(_refused: AllocFailed<T>) -> BuildFault {
        BuildFault::Memory
    }
}
