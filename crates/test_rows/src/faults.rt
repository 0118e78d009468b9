//! Why a line is no row.
use json::Error;
use std::alloc::{AllocError, AllocFailed};
use std::fmt;

/// Why a line is no row, with the field's name where it is one's fault.
#[derive(Clone, Copy, Drop)]
pub(crate) enum RowFault {
    NotJson(Error),
    NotAnObject,
    Missing(&'static str),
    Invalid(&'static str),
    Unused,
    Memory,
}

impl From<AllocError> for RowFault {
    fn from(_refused: AllocError) -> RowFault {
        RowFault::Memory
    }
}

impl<T: Drop> From<AllocFailed<T>> for RowFault {
    fn from(_refused: AllocFailed<T>) -> RowFault {
        RowFault::Memory
    }
}

impl fmt::Display for RowFault {
    fn fmt<W: fmt::Write>(&self, f: &mut fmt::Formatter<W>) -> fmt::Result {
        match self {
            RowFault::NotJson(error) => write!(f, "{error}"),
            RowFault::NotAnObject => f.write_str("no object"),
            RowFault::Missing(name) => write!(f, "no field {name}"),
            RowFault::Invalid(name) => write!(f, "a wrong field {name}"),
            RowFault::Unused => f.write_str("a field that isn't used"),
            RowFault::Memory => f.write_str("out of memory"),
        }
    }
}
