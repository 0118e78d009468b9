//! What a command line asks for.
ghost use Rattle.std.specs.Prelude.{◌≡◌, ◌≢◌, option_map};
ghost use Rattle.std.specs.Bool.{OnTrue, OnFalse};
ghost use Rattle.flatc_cli.specs.Requests.{directory_of, format_named, usual_form};

/// What is done with each input under a schema, with its flags.
#[derive(Clone, Copy, Debug, PartialEq, Eq, Drop)]
pub enum Verb {
    /// Converts a JSON text to a buffer.
    Binary {
        /// Whether unknown fields are ignored: `--unknown-json`.
        unknown: bool,
    },
    /// Prints a buffer as JSON.
    Json {
        /// Whether the file identifier isn't checked: `--raw-binary`.
        raw: bool,
        /// Whether fields with default values are printed too: `--defaults-json`.
        defaults: bool,
    },
    /// Checks a buffer.
    Check {
        /// Whether the file identifier isn't checked: `--raw-binary`.
        raw: bool,
    },
}

/// What a verb is done with.
#[derive(Debug, PartialEq, Eq, Drop)]
pub enum Inputs {
    /// The schema alone, which is checked.
    Schema,
    /// A file.
    One(String),
    /// Several files, each for itself, in the order of the line.
    Each(Vec<String>),
    /// The messages of a file, one after the other: `--lines`.
    Stream {
        path: String,
        /// Whether messages that are refused are skipped: `--keep-going`.
        keep_going: bool,
    },
}

/// Where what comes of the inputs is written.
#[derive(Debug, PartialEq, Eq, Drop)]
pub enum Output {
    /// Standard output.
    Standard,
    /// OUT of `binary`.
    File(String),
    /// A file for each input, in this directory: `--out-dir`.
    Directory(String),
}

/// How buffers and JSON texts are framed.
#[derive(Clone, Copy, Debug, PartialEq, Eq, Drop)]
pub struct Form {
    /// A buffer has its length before it: `--size-prefixed`, and in a stream.
    pub size_prefixed: bool,
    /// A JSON text has no blanks and no line feeds in it: `--compact`, and in a stream.
    pub compact: bool,
}

impl Form {
    /// Whether buffers have no length before them, and JSON texts are indented.
    pub fn is_usual(self) -> bool
        ensures usual { OnTrue result (self ≡ usual_form) }
        ensures other { OnFalse result (self ≢ usual_form) }
    {
        !self.size_prefixed && !self.compact
    }
}

/// A verb over inputs under a schema.
#[derive(Debug, PartialEq, Eq, Drop)]
pub struct Task {
    pub verb: Verb,
    /// The schema's path.
    pub schema: String,
    pub inputs: Inputs,
    pub output: Output,
    pub form: Form,
}

impl Task {
    /// The directory that outputs are written to, and the extension of their names; none where
    /// no files are named after the inputs.
    pub fn directory(&self) -> Option<(&str, &'static str)>
        ensures { option_map (λ place. (place.0.now, place.1.now)) result ≡ directory_of self.now.verb self.now.output }
    {
        match (self.verb, &self.output) {
            (Verb::Binary { .. }, Output::Directory(dir)) => Some((dir.as_str(), "bin")),
            (Verb::Json { .. }, Output::Directory(dir)) => Some((dir.as_str(), "json")),
            _ => None,
        }
    }
}

/// Two schemas that are compared.
#[derive(Debug, PartialEq, Eq, Drop)]
pub struct Comparison {
    /// The path of the schema that data was written under.
    pub old: String,
    /// The path of the schema that is to read it.
    pub new: String,
    /// Whether each name must mean what it meant: `--names`.
    pub names: bool,
    /// What the old schema is called in refusals: `--old-name`.
    pub old_name: Option<String>,
}

/// Versions of a schema, each of which is compared with the next: `--chain`.
#[derive(Debug, PartialEq, Eq, Drop)]
pub struct Chain {
    /// Their paths, oldest first.
    pub versions: Vec<String>,
    /// Whether each name must mean what it meant: `--names`.
    pub names: bool,
}

/// What of a buffer is shown.
#[derive(Debug, PartialEq, Eq, Drop)]
pub enum Inspection {
    /// What its bytes are under a schema.
    Bytes {
        schema: String,
        bin: String,
        raw: bool,
        size_prefixed: bool,
    },
    /// What its first bytes say without a schema.
    Header {
        bin: String,
    },
}

/// How refusals are shown.
#[derive(Clone, Copy, Debug, PartialEq, Eq, Drop)]
pub enum ErrorFormat {
    /// The number, the name and the place of the refusal, in one line: `--terse`.
    Line,
    /// That line, and further lines that explain it: `--explain`.
    Human,
    /// A line for each finding, as compilers write it.
    Short,
    /// A JSON object a line, for each finding.
    Json,
}

impl ErrorFormat {
    /// The format that `--error-format` calls by this name.
    pub fn named(name: &str) -> Option<ErrorFormat>
        ensures { result ≡ format_named name.now }
    {
        match name {
            "line" => Some(ErrorFormat::Line),
            "human" => Some(ErrorFormat::Human),
            "short" => Some(ErrorFormat::Short),
            "json" => Some(ErrorFormat::Json),
            _ => None,
        }
    }
}

/// What a command line asks for.
#[derive(Debug, PartialEq, Eq, Drop)]
pub enum Request {
    /// A verb over inputs under a schema, and how refusals are shown, where the line says it.
    Do(Task, Option<ErrorFormat>),
    /// Whether a schema reads the data of another, and how refusals are shown, where the line says it.
    Conform(Comparison, Option<ErrorFormat>),
    /// Whether each version of a schema reads the data of the one before it, and how refusals are shown, where the
    /// line says it.
    ConformChain(Chain, Option<ErrorFormat>),
    /// Whether each of these texts is a schema, by their paths, and how refusals are shown, where the line says it.
    CheckSchemas(Vec<String>, Option<ErrorFormat>),
    /// What the bytes of a buffer are, and how refusals are shown, where the line says it.
    Inspect(Inspection, Option<ErrorFormat>),
    /// What the numbers of types and slots mean in a schema, by its path, and how refusals are shown, where the line
    /// says it.
    Describe(String, Option<ErrorFormat>),
    /// What the number of a refusal means, as the line writes it; all numbers where it writes none.
    Explain(Option<String>),
}
