//! The job of a command line that is one of the four over one file each.
ghost use Rattle.std.specs.Prelude.{◌≡◌, IfOk, IfErr, IfSome, IfNone, OnOk, true, false, List, None, Option};
ghost use Rattle.std.specs.Prelude.{map, string_bytes};
ghost use Rattle.clap.specs.Words.{Row, Text, kind_of, subcommand_of, takes};
ghost use Rattle.flatc_cli.specs.Commands.{flatc_app};
ghost use Rattle.flatc_cli.specs.Jobs.{is_job_line, request_of_job};
ghost use Rattle.flatc_cli.specs.Lines.{IsRequestOf, IsTask, IsComparison, is_line};
ghost use Rattle.flatc_cli.specs.Misuses.{IsRefusal};

use crate::line::request_of;
use crate::misuse::other_line;
use crate::request::{Comparison, Inputs, Output, Request, Task, Verb};
use clap::Error;
use clap::error::ErrorKind;
use std::alloc::Global;

/// One of the four jobs over one file each, with its paths and flags.
#[derive(Debug, PartialEq, Eq, Drop)]
pub enum Job {
    /// Makes a buffer of a JSON text.
    Binary {
        schema: String,
        json: String,
        out: String,
        unknown: bool,
    },
    /// Prints a buffer as JSON.
    Json {
        schema: String,
        bin: String,
        raw: bool,
        defaults: bool,
    },
    /// Checks a schema, or a buffer under it.
    Check {
        schema: String,
        bin: Option<String>,
        raw: bool,
    },
    /// Compares two schemas.
    Conform {
        old: String,
        new: String,
        /// Whether each name must mean what it meant.
        names: bool,
    },
}

/// The job that a task is over one file in the usual form.
fn job_in(task: Task) -> Option<Job>
    ensures some { IfSome result (λ job. Request.Do task None ≡ request_of_job job) }
    ensures none { IfNone result ((line : Option (Text × List Row))
        → IsRequestOf line (Request.Do task None) → is_job_line line ≡ false) }
{
    if !task.form.is_usual() {
        return None;
    }
    let schema = task.schema;
    match (task.verb, task.inputs, task.output) {
        (Verb::Binary { unknown }, Inputs::One(json), Output::File(out)) => Some(Job::Binary {
            schema,
            json,
            out,
            unknown,
        }),
        (Verb::Json { raw, defaults }, Inputs::One(bin), Output::Standard) => Some(Job::Json {
            schema,
            bin,
            raw,
            defaults,
        }),
        (Verb::Check { raw }, Inputs::Schema, Output::Standard) => Some(Job::Check {
            schema,
            bin: None,
            raw,
        }),
        (Verb::Check { raw }, Inputs::One(bin), Output::Standard) => Some(Job::Check {
            schema,
            bin: Some(bin),
            raw,
        }),
        _ => None,
    }
}

/// The job that a comparison is, without a name for the old schema.
fn job_of_comparison(comparison: Comparison) -> Option<Job>
    ensures some { IfSome result (λ job. Request.Conform comparison None ≡ request_of_job job) }
    ensures none { IfNone result ((line : Option (Text × List Row))
        → IsRequestOf line (Request.Conform comparison None) → is_job_line line ≡ false) }
{
    let Comparison {
        old,
        new,
        names,
        old_name,
    } = comparison;
    match old_name {
        None => Some(Job::Conform { old, new, names }),
        Some(_) => None,
    }
}

/// The job of a request that is one of the four lines over one file each.
fn job_of_request(request: Request) -> Option<Job>
    ensures some { IfSome result (λ job. request ≡ request_of_job job) }
    ensures none { IfNone result ((line : Option (Text × List Row)) → IsRequestOf line request
        → is_job_line line ≡ false) }
{
    match request {
        Request::Do(task, None) => job_in(task),
        Request::Conform(comparison, None) => job_of_comparison(comparison),
        Request::Do(_, Some(_)) => None,
        Request::Conform(_, Some(_)) => None,
        Request::ConformChain(_, _) => None,
        Request::CheckSchemas(_, _) => None,
        Request::Inspect(_, _) => None,
        Request::Describe(_, _) => None,
        Request::Explain(_) => None,
    }
}

/// The job that the words ask for, the program's name apart: one of the four lines over one file
/// each, without a word on error formats, names, streams and forms.
///
/// What else `request_of` knows is a usage fault here.
pub fn job_of(alloc: Global, words: &[String]) -> Result<Job, Error>
    ensures job { IfOk result (λ job. IsRequestOf (subcommand_of flatc_app (map string_bytes words.now))
        (request_of_job job)) }
    ensures line { OnOk result (is_line (subcommand_of flatc_app (map string_bytes words.now)) ≡ true) }
    ensures memory { IfErr result (λ e. takes flatc_app (map string_bytes words.now) ≡ true
        → is_job_line (subcommand_of flatc_app (map string_bytes words.now)) ≡ true
        → kind_of e ≡ ErrorKind.OutOfMemory) }
    ensures refusal { IfErr result (λ e. takes flatc_app (map string_bytes words.now) ≡ true
        → IsRefusal (kind_of e)) }
{
    job_of_request(request_of(alloc, words)?).ok_or_else(|| other_line(alloc))
}
