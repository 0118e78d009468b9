//! How JSON and buffers are read and written.
ghost use Rattle.std.specs.Prelude.{◌≡◌, false};
ghost use Rattle.flatc_tool.specs.Options.{usual_limits};

use fb_value::{Limits, USUAL_CELLS, USUAL_DEPTH};

/// At most 64 tables within each other, and 100,000,000 cells.
fn usual_limits() -> Limits
    ensures { result ≡ usual_limits }
{
    let Some(limits) = Limits::new(USUAL_DEPTH, USUAL_CELLS) else {
        unreachable!()
    };
    limits
}

/// How a JSON text is made a buffer. By default: within the usual limits, an unknown JSON field is
/// refused, and the buffer has no size prefix.
#[derive(Clone, Copy, Debug, PartialEq, Eq)]
pub struct EncodeOptions {
    /// How deep tables may be nested, and how many cells there may be.
    pub limits: Limits,
    /// Ignores unknown JSON fields, as `--unknown-json` does.
    pub unknown_json: bool,
    /// Writes a size prefix, as `--size-prefixed` does.
    pub size_prefixed: bool,
}

impl EncodeOptions {
    /// The usual limits, unknown JSON fields are refused, and a buffer has no size prefix.
    pub fn new() -> EncodeOptions
        ensures limits { result.limits ≡ usual_limits }
        ensures unknown { result.unknown_json ≡ false }
        ensures prefixed { result.size_prefixed ≡ false }
    {
        EncodeOptions {
            limits: usual_limits(),
            unknown_json: false,
            size_prefixed: false,
        }
    }
}

impl Default for EncodeOptions {
    fn default() -> EncodeOptions
        ensures limits { result.limits ≡ usual_limits }
        ensures unknown { result.unknown_json ≡ false }
        ensures prefixed { result.size_prefixed ≡ false }
    {
        EncodeOptions::new()
    }
}

/// How a buffer is made a JSON text. By default: within the usual limits, the file identifier is
/// checked, scalars with their default values are left out, the buffer has no size prefix, and the text
/// is indented.
#[derive(Clone, Copy, Debug, PartialEq, Eq)]
pub struct DecodeOptions {
    /// How deep tables may be nested, and how many cells there may be.
    pub limits: Limits,
    /// Skips the file identifier check, as `--raw-binary` does.
    pub raw_binary: bool,
    /// Includes scalars with their default values, as `--defaults-json` does.
    pub defaults_json: bool,
    /// Reads a size prefix, as `--size-prefixed` does.
    pub size_prefixed: bool,
    /// Leaves out blanks and line feeds outside strings, as `--compact` does.
    pub compact: bool,
}

impl DecodeOptions {
    /// The usual limits, the file identifier is checked, default values are left out, a buffer has no
    /// size prefix, and a text is indented.
    pub fn new() -> DecodeOptions
        ensures limits { result.limits ≡ usual_limits }
        ensures raw { result.raw_binary ≡ false }
        ensures defaults { result.defaults_json ≡ false }
        ensures prefixed { result.size_prefixed ≡ false }
        ensures compact { result.compact ≡ false }
    {
        DecodeOptions {
            limits: usual_limits(),
            raw_binary: false,
            defaults_json: false,
            size_prefixed: false,
            compact: false,
        }
    }
}

impl Default for DecodeOptions {
    fn default() -> DecodeOptions
        ensures limits { result.limits ≡ usual_limits }
        ensures raw { result.raw_binary ≡ false }
        ensures defaults { result.defaults_json ≡ false }
        ensures prefixed { result.size_prefixed ≡ false }
        ensures compact { result.compact ≡ false }
    {
        DecodeOptions::new()
    }
}
