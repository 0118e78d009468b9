//! Lines that clap takes and that ask for nothing.
ghost use Rattle.std.specs.Prelude.{◌≡◌, ◌⊎◌, IfOk};
ghost use Rattle.clap.specs.Words.{kind_of};
ghost use Rattle.flatc_cli.specs.Misuses.{IsRefusal};

use crate::commands::{
    BINARY, CHECK, CONFORM, DESCRIBE, INSPECT, JSON, JobWords, flatc_command, job_command,
};
use clap::Error;
use clap::error::ErrorKind;
use std::alloc::{AllocError, Global};

/// Why a line that clap takes asks for nothing.
#[derive(Drop)]
pub(crate) enum Misuse<'f> {
    /// Memory ran out.
    Memory,
    /// A path or flag that the line needs isn't there.
    Missing(&'static str),
    /// A path more than the line takes.
    Extra(&'f str),
    /// Two flags of which each rules out the other.
    Conflict(&'static str, &'static str),
    /// A value of `--error-format` that names no format.
    UnknownFormat(&'f str),
    /// Two paths are standard input.
    ReadTwice,
}

impl From<AllocError> for Misuse<'_> {
    ghost use Rattle.flatc_cli.specs.declared.misuse.Misuse.TheVariants.{Memory};

    ghost from_gives = { λ _ m. m ≡ Memory };

    fn from(_error: AllocError) -> Self {
        Misuse::Memory
    }
}

/// The words of a job; those of `conform` for any other name.
fn words_of(job: &str) -> &'static JobWords {
    match job {
        "binary" => BINARY,
        "json" => JSON,
        "check" => CHECK,
        "inspect" => INSPECT,
        "describe" => DESCRIBE,
        _ => CONFORM,
    }
}

fn try_usage_error(
    alloc: Global,
    job: &str,
    kind: ErrorKind,
    message: &str,
) -> Result<Error, AllocError>
    ensures { IfOk result (λ e. kind_of e ≡ kind) }
{
    job_command(alloc, words_of(job))?.error(kind, message)
}

/// An error about a line of a job, in clap's form and with the job's usage.
///
/// Where memory runs out that is the error.
pub fn usage_error(alloc: Global, job: &str, kind: ErrorKind, message: &str) -> Error
    ensures { (kind_of result ≡ kind) ⊎ (kind_of result ≡ ErrorKind.OutOfMemory) }
{
    match try_usage_error(alloc, job, kind, message) {
        Ok(error) => error,
        Err(error) => Error::from(error),
    }
}

fn extra_path(alloc: Global, job: &str, path: &str) -> Result<Error, AllocError>
    ensures { IfOk result (λ e. kind_of e ≡ ErrorKind.UnknownArgument) }
{
    let message = format!(in alloc; "unexpected argument '{path}' found")?;
    try_usage_error(alloc, job, ErrorKind::UnknownArgument, message.as_str())
}

fn missing_word(alloc: Global, job: &str, word: &str) -> Result<Error, AllocError>
    ensures { IfOk result (λ e. kind_of e ≡ ErrorKind.MissingRequiredArgument) }
{
    let message = format!(in alloc;
        "the following required arguments were not provided:\n  {word}"
    )?;
    try_usage_error(
        alloc,
        job,
        ErrorKind::MissingRequiredArgument,
        message.as_str(),
    )
}

fn conflict(alloc: Global, job: &str, flag: &str, other: &str) -> Result<Error, AllocError>
    ensures { IfOk result (λ e. kind_of e ≡ ErrorKind.ArgumentConflict) }
{
    let message = format!(in alloc; "the argument '{flag}' cannot be used with '{other}'")?;
    try_usage_error(alloc, job, ErrorKind::ArgumentConflict, message.as_str())
}

fn unknown_format(alloc: Global, job: &str, name: &str) -> Result<Error, AllocError>
    ensures { IfOk result (λ e. kind_of e ≡ ErrorKind.InvalidValue) }
{
    let message = format!(in alloc;
        "invalid value '{name}' for '--error-format <FORMAT>'\n  [possible values: line, human, short, json]"
    )?;
    try_usage_error(alloc, job, ErrorKind::InvalidValue, message.as_str())
}

fn try_misuse_error(alloc: Global, job: &str, misuse: Misuse<'_>) -> Result<Error, AllocError>
    ensures memory { misuse.entry ≡ Misuse.Memory → IfOk result (λ e. kind_of e ≡ ErrorKind.OutOfMemory) }
    ensures refusal { IfOk result (λ e. IsRefusal (kind_of e)) }
{
    match misuse {
        Misuse::Memory => Ok(Error::from(AllocError)),
        Misuse::Missing(word) => missing_word(alloc, job, word),
        Misuse::Extra(path) => extra_path(alloc, job, path),
        Misuse::Conflict(flag, other) => conflict(alloc, job, flag, other),
        Misuse::UnknownFormat(name) => unknown_format(alloc, job, name),
        Misuse::ReadTwice => try_usage_error(
            alloc,
            job,
            ErrorKind::ArgumentConflict,
            "standard input is read once, and two paths name it",
        ),
    }
}

/// The error about a line that asks for nothing.
pub(crate) fn misuse_error(alloc: Global, job: &str, misuse: Misuse<'_>) -> Error
    ensures memory { misuse.entry ≡ Misuse.Memory → kind_of result ≡ ErrorKind.OutOfMemory }
    ensures refusal { IsRefusal (kind_of result) }
{
    match try_misuse_error(alloc, job, misuse) {
        Ok(error) => error,
        Err(error) => Error::from(error),
    }
}

/// The error about a line that is none of the four over one file each.
pub(crate) fn other_line(alloc: Global) -> Error
    ensures { IsRefusal (kind_of result) }
{
    let error = match flatc_command(alloc) {
        Ok(mut command) => command.error(
            ErrorKind::UnknownArgument,
            "the line is more than one job over one file",
        ),
        Err(error) => Err(error),
    };
    match error {
        Ok(error) => error,
        Err(error) => Error::from(error),
    }
}
