//! Why a schema has no layout.
use fb_schema::TypeId;
use std::alloc::{AllocError, AllocFailed};
use thiserror::Error;

/// The rule on sizes that fails, and the type.
///
/// A struct takes 65,535 bytes at most; a table is 65,535 bytes wide at most, all its fields stored
/// that aren't deprecated, and has 32,765 slots at most. `Memory` is a refused allocation and no rule.
#[derive(Clone, Copy, Debug, PartialEq, Eq, Drop, Error)]
pub enum LayoutFault {
    #[error("the struct, type {}, takes more than 65535 bytes", .0.0)]
    StructTooBig(TypeId),
    #[error("the table, type {}, is too wide or has too many slots", .0.0)]
    TableTooWide(TypeId),
    #[error("out of memory")]
    Memory,
}

impl LayoutFault {
    ghost use Rattle.std.specs.Prelude.{◌≡◌, None};
    ghost use Rattle.fb_layout.specs.FaultTable.{number_of, name_of, type_of};

    // The number and the name.
    fn row(self) -> (u8, &'static str)
        ensures number { result.0 ≡ number_of self }
        ensures name { result.1.now ≡ name_of self }
    {
        match self {
            LayoutFault::StructTooBig(_) => (30, "StructTooBig"),
            LayoutFault::TableTooWide(_) => (31, "TableTooWide"),
            LayoutFault::Memory => (32, "Memory"),
        }
    }

    /// The fault's number; no other fault has it.
    pub fn number(self) -> u8
        ensures { result ≡ number_of self }
    {
        self.row().0
    }

    /// The fault's name, that of its variant.
    pub fn name(self) -> &'static str
        ensures { result.now ≡ name_of self }
    {
        self.row().1
    }

    /// The type that is too large; running out of memory has none.
    pub fn type_id(self) -> Option<TypeId>
        ensures { result ≡ type_of self }
    {
        match self {
            LayoutFault::StructTooBig(type_id) | LayoutFault::TableTooWide(type_id) => {
                Some(type_id)
            }
            LayoutFault::Memory => None,
        }
    }

    /// None: a layout's fault names a type and no place in the text.
    pub fn offset(self) -> Option<u64>
        ensures { result ≡ None }
    {
        None
    }
}

impl From<AllocError> for LayoutFault {
    ghost use Rattle.std.specs.Prelude.{◌≡◌};
    ghost use Rattle.fb_layout.specs.declared.faults.LayoutFault.TheVariants.{Memory};

    ghost from_gives = { λ _ e. e ≡ Memory };

    fn from(_refused: AllocError) -> LayoutFault {
        LayoutFault::Memory
    }
}

impl<T: Drop> From<AllocFailed<T>> for LayoutFault {
    ghost use Rattle.std.specs.Prelude.{◌≡◌};
    ghost use Rattle.fb_layout.specs.declared.faults.LayoutFault.TheVariants.{Memory};

    ghost from_gives = { λ _ e. e ≡ Memory };

    fn from(_refused: AllocFailed<T>) -> LayoutFault {
        LayoutFault::Memory
    }
}
