//! Why declarations are refused.
ghost use Rattle.std.specs.Prelude.{◌≡◌};
ghost use Rattle.fb_declare.specs.declared.faults.SchemaFault.TheVariants.{Memory};

use std::alloc::{AllocError, AllocFailed};
use thiserror::Error;

/// The rule on declarations that fails, and the offset in bytes from the text's start.
///
/// `Memory` is a refused allocation and no rule.
#[derive(Clone, Copy, Debug, PartialEq, Eq, Drop, Error)]
pub enum SchemaFault {
    #[error("the name at {0} occurs again, or may not be taken")]
    DuplicateName(u64),
    #[error("the type at {0} isn't found")]
    UnknownType(u64),
    #[error("the default at {0} isn't one of its field")]
    BadDefault(u64),
    #[error("the ids of the table at {0} are not 0, 1 and so on")]
    BadIds(u64),
    #[error("the struct at {0} isn't declared before")]
    IncompleteStruct(u64),
    #[error("the struct at {0} has no field")]
    EmptyStruct(u64),
    #[error("the attribute at {0} may not be there, or has a wrong value")]
    BadAttribute(u64),
    #[error("the attribute at {0} isn't declared")]
    UnknownAttribute(u64),
    #[error("what is at {0} isn't supported")]
    Unsupported(u64),
    #[error("the enum value at {0} is out of range or occurs again")]
    BadEnumValue(u64),
    #[error("the type at {0} may not be a member there")]
    BadMember(u64),
    #[error("the root type at {0} is missing or no table")]
    BadRoot(u64),
    #[error("the file identifier at {0} is not four printable bytes")]
    BadIdentifier(u64),
    #[error("out of memory")]
    Memory,
}

impl From<AllocError> for SchemaFault {
    ghost from_gives = { λ _ e. e ≡ Memory };

    fn from(_refused: AllocError) -> SchemaFault {
        SchemaFault::Memory
    }
}

impl<T: Drop> From<AllocFailed<T>> for SchemaFault {
    ghost from_gives = { λ _ e. e ≡ Memory };

    fn from(_refused: AllocFailed<T>) -> SchemaFault {
        SchemaFault::Memory
    }
}

impl SchemaFault {
    ghost use Rattle.fb_declare.specs.FaultTable.{entry_of, number_of, name_of, offset_of};
    ghost use Rattle.fb_declare.specs.Faults.{comes_before};

    // The number, the name and the offset.
    fn entry(self) -> (u8, &'static str, Option<u64>)
        ensures { (result.0, result.1.now, result.2) ≡ entry_of self }
    {
        match self {
            SchemaFault::DuplicateName(at) => (10, "DuplicateName", Some(at)),
            SchemaFault::UnknownType(at) => (11, "UnknownType", Some(at)),
            SchemaFault::BadDefault(at) => (12, "BadDefault", Some(at)),
            SchemaFault::BadIds(at) => (13, "BadIds", Some(at)),
            SchemaFault::IncompleteStruct(at) => (14, "IncompleteStruct", Some(at)),
            SchemaFault::EmptyStruct(at) => (15, "EmptyStruct", Some(at)),
            SchemaFault::BadAttribute(at) => (16, "BadAttribute", Some(at)),
            SchemaFault::UnknownAttribute(at) => (17, "UnknownAttribute", Some(at)),
            SchemaFault::Unsupported(at) => (18, "Unsupported", Some(at)),
            SchemaFault::BadEnumValue(at) => (19, "BadEnumValue", Some(at)),
            SchemaFault::BadMember(at) => (20, "BadMember", Some(at)),
            SchemaFault::BadRoot(at) => (21, "BadRoot", Some(at)),
            SchemaFault::BadIdentifier(at) => (22, "BadIdentifier", Some(at)),
            SchemaFault::Memory => (23, "Memory", None),
        }
    }

    /// Its offset, in bytes from the text's start; running out of memory has no place.
    pub fn offset(self) -> Option<u64>
        ensures { result ≡ offset_of self }
    {
        self.entry().2
    }

    /// The fault's number; no other fault has it.
    pub fn number(self) -> u8
        ensures { result ≡ number_of self }
    {
        self.entry().0
    }

    /// The fault's name, that of its variant.
    pub fn name(self) -> &'static str
        ensures { result.now ≡ name_of self }
    {
        self.entry().1
    }

    fn comes_before(self, other: SchemaFault) -> bool
        ensures { result ≡ comes_before self other }
    {
        let at = self.offset().unwrap_or(0);
        let other_at = other.offset().unwrap_or(0);
        at < other_at || at == other_at && self.number() < other.number()
    }
}

ghost use Rattle.fb_declare.specs.Faults.{earlier, least_of};
ghost use Rattle.fb_declare.specs.FaultRows.{when};

/// The fault that comes before the other, by offset and then by number.
pub(crate) fn earlier_fault(
    first: Option<SchemaFault>,
    second: Option<SchemaFault>,
) -> Option<SchemaFault>
    ensures { result ≡ earlier first second }
{
    match (first, second) {
        (Some(one), Some(other)) if other.comes_before(one) => second,
        (Some(_), _) => first,
        (None, _) => second,
    }
}

/// The fault, where its rule fails.
pub(crate) fn fault_if(fails: bool, fault: SchemaFault) -> Option<SchemaFault>
    ensures { result ≡ least_of (when fails fault) }
{
    fails.then_some(fault)
}
