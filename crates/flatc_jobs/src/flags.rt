//! The flags of a line, as options of the calls.
ghost use Rattle.std.specs.Prelude.{◌≡◌, false};
ghost use Rattle.flatc_cli.specs.Requests.{usual_form};
ghost use Rattle.flatc_jobs.specs.Flags.{flags_of, inspected_flags};
ghost use Rattle.flatc_tool.specs.Options.{usual_limits};

use flatc_cli::{Form, Inspection, Verb};
use flatc_tool::{DecodeOptions, EncodeOptions, Limits};

/// How deep tables may be nested and how many cells there may be: the library's own limits.
pub fn limits() -> Limits
    ensures { result ≡ usual_limits }
{
    EncodeOptions::new().limits
}

/// What a line says of how buffers and JSON texts are read and written.
#[derive(Clone, Copy, Debug, PartialEq, Eq)]
pub struct Flags {
    pub unknown_json: bool,
    pub raw_binary: bool,
    pub defaults_json: bool,
    pub form: Form,
}

impl Flags {
    /// No flag, and the usual form.
    pub fn none() -> Flags
        ensures { result ≡ record {
          unknown_json = false;
          raw_binary = false;
          defaults_json = false;
          form = usual_form;
        } }
    {
        Flags {
            unknown_json: false,
            raw_binary: false,
            defaults_json: false,
            form: Form {
                size_prefixed: false,
                compact: false,
            },
        }
    }

    /// The flags of a verb, over buffers and JSON texts of a form.
    pub fn of(verb: Verb, form: Form) -> Flags
        ensures { result ≡ flags_of verb form }
    {
        let flags = Flags {
            form,
            ..Flags::none()
        };
        match verb {
            Verb::Binary { unknown } => Flags {
                unknown_json: unknown,
                ..flags
            },
            Verb::Json { raw, defaults } => Flags {
                raw_binary: raw,
                defaults_json: defaults,
                ..flags
            },
            Verb::Check { raw } => Flags {
                raw_binary: raw,
                ..flags
            },
        }
    }

    /// The flags of an inspection.
    pub fn of_inspection(inspection: &Inspection) -> Flags
        ensures { result ≡ inspected_flags inspection.now }
    {
        match inspection {
            Inspection::Bytes {
                raw,
                size_prefixed,
                ..
            } => Flags {
                raw_binary: *raw,
                form: Form {
                    size_prefixed: *size_prefixed,
                    compact: false,
                },
                ..Flags::none()
            },
            Inspection::Header { .. } => Flags::none(),
        }
    }

    pub fn encode_options(self) -> EncodeOptions
        ensures limits { result.limits ≡ usual_limits }
        ensures unknown { result.unknown_json ≡ self.unknown_json }
        ensures prefixed { result.size_prefixed ≡ self.form.size_prefixed }
    {
        EncodeOptions {
            limits: limits(),
            unknown_json: self.unknown_json,
            size_prefixed: self.form.size_prefixed,
        }
    }

    pub fn decode_options(self) -> DecodeOptions
        ensures limits { result.limits ≡ usual_limits }
        ensures raw { result.raw_binary ≡ self.raw_binary }
        ensures defaults { result.defaults_json ≡ self.defaults_json }
        ensures prefixed { result.size_prefixed ≡ self.form.size_prefixed }
        ensures compact { result.compact ≡ self.form.compact }
    {
        DecodeOptions {
            limits: limits(),
            raw_binary: self.raw_binary,
            defaults_json: self.defaults_json,
            size_prefixed: self.form.size_prefixed,
            compact: self.form.compact,
        }
    }
}
