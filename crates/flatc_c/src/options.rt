//! How C wants a call done.
ghost use Rattle.std.specs.Prelude.{◌≡◌, SomeIff};
ghost use Rattle.flatc_c.specs.Settings.{cells_of, depth_of, unknown_of, raw_of, defaults_of, prefixed_of, compact_of};
ghost use Rattle.flatc_c.specs.Settings.{limits_of, AreSet};

use fb_value::{USUAL_CELLS, USUAL_DEPTH};
use flatc_tool::Limits;

/// The limits, and what is ignored.
///
/// `size` is the struct's size in bytes as the caller knows it; fields that end after it have their defaults.
/// `reserved` is never read: to callers that were compiled with the header of 0.2.0 it is padding with any content.
#[repr(C)]
#[derive(Clone, Copy, Debug, PartialEq, Eq, Drop)]
pub struct Options {
    pub size: u32,
    pub max_cells: u32,
    pub max_depth: u8,
    pub unknown_json: bool,
    pub raw_binary: bool,
    pub defaults_json: bool,
    pub size_prefixed: bool,
    pub compact: bool,
    pub reserved: [u8; 2],
}

impl Options {
    fn cells(&self) -> u32
        ensures { result ≡ cells_of self.now }
    {
        if self.size < 8 {
            USUAL_CELLS
        } else {
            self.max_cells
        }
    }

    fn depth(&self) -> u8
        ensures { result ≡ depth_of self.now }
    {
        if self.size < 9 {
            USUAL_DEPTH
        } else {
            self.max_depth
        }
    }

    /// Whether unknown JSON fields are ignored.
    pub(crate) fn ignores_unknown(&self) -> bool
        ensures { result ≡ unknown_of self.now }
    {
        if self.size < 10 {
            false
        } else {
            self.unknown_json
        }
    }

    /// Whether the file identifier check is skipped.
    pub(crate) fn is_raw(&self) -> bool
        ensures { result ≡ raw_of self.now }
    {
        if self.size < 11 {
            false
        } else {
            self.raw_binary
        }
    }

    /// Whether fields with default values are included.
    pub(crate) fn has_defaults(&self) -> bool
        ensures { result ≡ defaults_of self.now }
    {
        if self.size < 12 {
            false
        } else {
            self.defaults_json
        }
    }

    /// Whether a buffer has a size prefix.
    pub(crate) fn has_prefix(&self) -> bool
        ensures { result ≡ prefixed_of self.now }
    {
        if self.size < 13 {
            false
        } else {
            self.size_prefixed
        }
    }

    /// Whether a text has no blanks and line feeds.
    pub(crate) fn is_compact(&self) -> bool
        ensures { result ≡ compact_of self.now }
    {
        if self.size < 14 { false } else { self.compact }
    }

    /// The limits, if the size is 4 to 16 and the depth 1 to 127.
    pub(crate) fn limits(&self) -> Option<Limits>
        ensures { SomeIff result (AreSet self.now) (limits_of self.now) }
    {
        if self.size < 4 || self.size > 16 {
            return None;
        }
        Limits::new(self.depth(), self.cells())
    }
}
