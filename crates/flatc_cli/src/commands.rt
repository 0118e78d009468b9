//! The command `flatc`, as clap builds it.
ghost use Rattle.std.specs.Prelude.{◌≡◌, IfOk, true, false, map};
ghost use Rattle.clap.specs.Words.{App, rule_of};
ghost use Rattle.flatc_cli.specs.Arguments.{rule_in, with_rules, app_in, apps_in, with_apps};
ghost use Rattle.flatc_cli.specs.Commands.{flag_rule, plain_app, flatc_app, HasApp};

use clap::{Arg, ArgAction, Command};
use std::alloc::{AllocError, Global};

/// The program's version.
pub const VERSION: &str = "0.2.0";

const BINARY_USAGE: &str = "flatc binary [OPTIONS] <SCHEMA> <JSON> <OUT>
       flatc binary [OPTIONS] --out-dir <DIR> <SCHEMA> <JSON>...
       flatc binary [OPTIONS] --lines <SCHEMA> <JSON> <OUT>";

const JSON_USAGE: &str = "flatc json [OPTIONS] <SCHEMA> <BIN>
       flatc json [OPTIONS] --out-dir <DIR> <SCHEMA> <BIN>...
       flatc json [OPTIONS] --lines <SCHEMA> <BIN>";

const CHECK_USAGE: &str = "flatc check [OPTIONS] <SCHEMA> [BIN]...
       flatc check [OPTIONS] --lines <SCHEMA> <BIN>
       flatc check [OPTIONS] --schemas <SCHEMA>...";

const CONFORM_USAGE: &str = "flatc conform [OPTIONS] <OLD> <NEW>
       flatc conform [OPTIONS] --chain <OLD> <NEW>...";

const INSPECT_USAGE: &str = "flatc inspect [OPTIONS] <SCHEMA> <BIN>
       flatc inspect [OPTIONS] --header <BIN>";

const DESCRIBE_USAGE: &str = "flatc describe [OPTIONS] <SCHEMA>";

const DASH: &str = "The path - is standard input; ./- is a file of that name.";

const DASHES: &str =
    "The path - is standard input, and as OUT standard output; ./- is a file of that name.";

/// An argument of a job's command: its name, and what help says of it.
#[derive(Clone, Copy, Drop)]
enum Argument {
    Flag(&'static str, &'static str),
    /// `-o DIR`, `--out-dir DIR`.
    Directory(&'static str),
    /// A value that comes after a flag: its name, the flag, and what help says of it.
    Value(&'static str, &'static str, &'static str),
    /// A path, and whether a line without it is refused.
    Path(&'static str, bool, &'static str),
    /// All paths that are left, and whether a line without one is refused.
    Paths(&'static str, bool, &'static str),
}

/// A job's command, as clap gets it.
#[derive(Clone, Copy, Drop)]
pub(crate) struct JobWords {
    name: &'static str,
    about: &'static str,
    /// How the job is used, where clap's own usage doesn't say it.
    usage: Option<&'static str>,
    /// What help ends with.
    notes: Option<&'static str>,
    arguments: &'static [Argument],
}

const SCHEMA: Argument = Argument::Path("SCHEMA", true, "The schema text (.fbs)");

const UNKNOWN: Argument = Argument::Flag("unknown-json", "Ignore unknown JSON fields");

const RAW: Argument = Argument::Flag("raw-binary", "Skip the file identifier check");

const DEFAULTS: Argument = Argument::Flag("defaults-json", "Include fields with default values");

const PREFIXED: Argument = Argument::Flag(
    "size-prefixed",
    "A 32-bit count of the buffer's bytes comes first",
);

const COMPACT: Argument = Argument::Flag("compact", "Print JSON without blanks and line feeds");

const GOING: Argument = Argument::Flag(
    "keep-going",
    "With --lines, skip refused messages; the status is still 1",
);

const HEADER: Argument = Argument::Flag("header", "List only the header, without a schema");

const EXPLAIN: Argument = Argument::Flag(
    "explain",
    "Explain a refusal in more lines, as at a terminal",
);

const TERSE: Argument = Argument::Flag("terse", "Never explain a refusal, at a terminal either");

const FORMAT: Argument = Argument::Value(
    "FORMAT",
    "error-format",
    "How refusals are shown: line, human, short or json",
);

const NAMES: Argument = Argument::Flag(
    "names",
    "Also refuse a name that now belongs to another field or member",
);

pub(crate) const BINARY: &JobWords = &JobWords {
    name: "binary",
    about: "Convert JSON to a FlatBuffer",
    usage: Some(BINARY_USAGE),
    notes: Some(DASHES),
    arguments: &[
        UNKNOWN,
        PREFIXED,
        Argument::Flag(
            "lines",
            "Convert each line of JSON to a size-prefixed buffer",
        ),
        GOING,
        EXPLAIN,
        TERSE,
        FORMAT,
        Argument::Directory("Convert each JSON to NAME.bin in this directory"),
        SCHEMA,
        Argument::Paths(
            "JSON",
            true,
            "The JSON text, then OUT, the file for the buffer; with -o all JSON texts",
        ),
    ],
};

pub(crate) const JSON: &JobWords = &JobWords {
    name: "json",
    about: "Convert a FlatBuffer to JSON",
    usage: Some(JSON_USAGE),
    notes: Some(DASH),
    arguments: &[
        RAW,
        DEFAULTS,
        PREFIXED,
        COMPACT,
        Argument::Flag(
            "lines",
            "Convert each buffer of a size-prefixed stream to a line of JSON",
        ),
        GOING,
        EXPLAIN,
        TERSE,
        FORMAT,
        Argument::Directory("Convert each BIN to NAME.json in this directory"),
        SCHEMA,
        Argument::Paths("BIN", true, "The buffer; with -o all buffers"),
    ],
};

pub(crate) const CHECK: &JobWords = &JobWords {
    name: "check",
    about: "Check a schema, or buffers under it",
    usage: Some(CHECK_USAGE),
    notes: Some(DASH),
    arguments: &[
        RAW,
        PREFIXED,
        Argument::Flag("lines", "Check each buffer of a size-prefixed stream"),
        GOING,
        Argument::Flag("schemas", "Check each path as a schema"),
        EXPLAIN,
        TERSE,
        FORMAT,
        SCHEMA,
        Argument::Paths(
            "BIN",
            false,
            "The buffer, or several; with --schemas further schemas",
        ),
    ],
};

pub(crate) const CONFORM: &JobWords = &JobWords {
    name: "conform",
    about: "Check that a new schema reads data of an old one",
    usage: Some(CONFORM_USAGE),
    notes: Some(DASH),
    arguments: &[
        NAMES,
        Argument::Flag("chain", "Compare each version with the next, oldest first"),
        Argument::Value(
            "NAME",
            "old-name",
            "What the old schema is called in refusals",
        ),
        EXPLAIN,
        TERSE,
        FORMAT,
        Argument::Path("OLD", true, "The old schema text"),
        Argument::Paths(
            "NEW",
            true,
            "The new schema text; with --chain all later versions",
        ),
    ],
};

pub(crate) const INSPECT: &JobWords = &JobWords {
    name: "inspect",
    about: "List what each byte of a buffer is",
    usage: Some(INSPECT_USAGE),
    notes: Some(DASH),
    arguments: &[
        RAW,
        PREFIXED,
        HEADER,
        EXPLAIN,
        TERSE,
        FORMAT,
        Argument::Paths(
            "FILE",
            true,
            "The schema text (.fbs), then BIN, the buffer; with --header BIN alone",
        ),
    ],
};

pub(crate) const DESCRIBE: &JobWords = &JobWords {
    name: "describe",
    about: "List the types and slots of a schema by number",
    usage: Some(DESCRIBE_USAGE),
    notes: Some(DASH),
    arguments: &[EXPLAIN, TERSE, FORMAT, SCHEMA],
};

const NUMBERS: &JobWords = &JobWords {
    name: "explain",
    about: "Explain the number or name of a refusal, or list all of them",
    usage: None,
    notes: None,
    arguments: &[Argument::Path(
        "NUMBER",
        false,
        "The number or name of a refusal; without it all are listed",
    )],
};

fn flag<'a>(alloc: Global, name: &'a str, help: &'a str) -> Arg<'a>
    ensures rule { rule_of result ≡ flag_rule name.entry.now }
    ensures local { result.global ≡ false }
{
    Arg::new(alloc, name)
        .long(name)
        .action(ArgAction::SetTrue)
        .help(help)
}

/// The argument, as clap takes it.
fn arg_of<'a>(alloc: Global, argument: &Argument) -> Arg<'a>
    ensures rule { rule_of result ≡ rule_in argument.now }
    ensures local { result.global ≡ false }
{
    match *argument {
        Argument::Flag(name, help) => flag(alloc, name, help),
        Argument::Directory(help) => Arg::new(alloc, "DIR").long("out-dir").short('o').help(help),
        Argument::Value(id, long, help) => Arg::new(alloc, id).long(long).help(help),
        Argument::Path(id, required, help) => Arg::new(alloc, id).required(required).help(help),
        Argument::Paths(id, required, help) => Arg::new(alloc, id)
            .required(required)
            .action(ArgAction::Append)
            .help(help),
    }
}

/// The command with these arguments after its own.
fn with_arguments<'a>(
    alloc: Global,
    command: Command<'a>,
    arguments: &[Argument],
) -> Result<Command<'a>, AllocError>
    ensures { (above : App) → HasApp above command.entry
        → IfOk result (HasApp (with_rules above (map rule_in arguments.now))) }
{
    let mut command = command;
    for argument in arguments {
        command = command.arg(arg_of(alloc, argument))?;
    }
    Ok(command)
}

/// The command of a job.
pub(crate) fn job_command<'a>(alloc: Global, job: &JobWords) -> Result<Command<'a>, AllocError>
    ensures { IfOk result (HasApp (app_in job.now)) }
{
    let mut command = Command::new(alloc, job.name).about(job.about);
    if let Some(usage) = job.usage {
        command = command.override_usage(usage);
    }
    if let Some(notes) = job.notes {
        command = command.after_help(notes);
    }
    with_arguments(alloc, command, job.arguments)
}

/// The command before its jobs, whose words come without the program's name.
fn plain_command<'a>(alloc: Global) -> Result<Command<'a>, AllocError>
    ensures { IfOk result (HasApp plain_app) }
{
    Command::new(alloc, "flatc")
        .about("Convert, check and compare FlatBuffers")
        .version(VERSION)
        .no_binary_name(true)
        .subcommand_required(true)
        .bin_name("flatc")
}

/// The command with these jobs.
fn with_jobs<'a>(
    alloc: Global,
    command: Command<'a>,
    jobs: &[&JobWords],
) -> Result<Command<'a>, AllocError>
    ensures { (above : App) → HasApp above command.entry
        → IfOk result (HasApp (with_apps above (apps_in jobs.now))) }
{
    let mut command = command;
    for job in jobs {
        command = command.subcommand(job_command(alloc, job)?)?;
    }
    Ok(command)
}

/// The command with its four jobs, what lists a buffer's bytes or a schema's types, and what explains a number.
pub(crate) fn flatc_command<'a>(alloc: Global) -> Result<Command<'a>, AllocError>
    ensures { IfOk result (HasApp flatc_app) }
{
    let command = plain_command(alloc)?;
    with_jobs(
        alloc,
        command,
        &[BINARY, JSON, CHECK, CONFORM, INSPECT, DESCRIBE, NUMBERS],
    )
}
