//! The command `flatc`: files and streams round the calls over bytes.
#![tactic(auto)]

mod batches;
mod counting_writer;
mod described;
mod explained;
mod faults;
mod hints;
mod inspected;
mod messages;
mod program_name;
mod schemas;
mod terminal;

use crate::batches::do_batch;
use crate::described::describe;
use crate::explained::{Refusal, explain_number, list_numbers, refuse, warn};
use crate::faults::{BufferContent, read_fault, write_fault};
use crate::hints::hint_for;
use crate::inspected::inspect;
use crate::messages::do_stream;
use crate::program_name::{eprint_bad_argument, eprint_hint, print_error};
use crate::schemas::{check_schemas, do_chain};
use crate::terminal::error_format;
use clap::Error;
use clap::error::ErrorKind;
use flatc_cli::{Comparison, ErrorFormat, Inputs, Output, Request, Task, Verb, request_of};
use flatc_files::{Reasoned, Texts, write_out};
use flatc_jobs::{Flags, compared, conforms_line, encoded, limits, verdict_of, verified};
use flatc_tool::command::report_noted;
use flatc_tool::{Layout, Noted, ToolFault, decode_to, schema_of, to_binary, to_json};
use std::alloc::Global;
use std::process::ExitCode;
use std::{env, io};

const SCHEMA: &[u8] = b"table T { a:int; } root_type T;";

const JSON: &[u8] = b"{\"a\":7}";

const USAGE: u8 = 2;

/// Reports an answer on the program's streams, and returns the status.
// Each writer has a page in its frame, which no job is to have in its own.
#[inline(never)]
pub(crate) fn tell(rt: &HostRuntime, answer: Result<&str, ToolFault>) -> u8 {
    let mut out = Noted::over(rt.stdout());
    let mut err = Noted::over(rt.stderr());
    report_noted(rt.alloc(), answer, &mut out, &mut err)
}

/// A JSON text made a buffer, and the buffer's JSON text.
#[inline(never)]
fn example(alloc: Global) -> Result<String, ToolFault> {
    let bytes = to_binary(alloc, SCHEMA, JSON, limits(), false)?;
    to_json(alloc, SCHEMA, bytes.as_slice(), limits(), false, false)
}

/// The layout of the schema text that was read.
pub(crate) fn layout_of(rt: &HostRuntime, texts: &Texts<'_>) -> Result<Layout, ToolFault> {
    schema_of(rt.alloc(), texts.schema.bytes.as_slice()).map_err(ToolFault::Schema)
}

/// The buffer of the JSON text that was read.
fn buffer_of(rt: &HostRuntime, texts: &mut Texts<'_>, flags: Flags) -> Result<Vec<u8>, ToolFault> {
    let layout = layout_of(rt, texts)?;
    encoded(rt.alloc(), &layout, &mut texts.input.bytes, flags)
}

/// Reads a schema, and what is under it or compared with it.
fn read_both<'j>(
    rt: &HostRuntime,
    texts: &mut Texts<'j>,
    [schema, input]: [&'j str; 2],
) -> Result<(), ToolFault> {
    texts.read_schema(rt, schema).map_err(read_fault)?;
    texts.read_input(rt, input).map_err(read_fault)
}

fn write_buffer<'j>(
    rt: &HostRuntime,
    texts: &mut Texts<'j>,
    paths: [&'j str; 3],
    flags: Flags,
) -> Result<(), ToolFault> {
    let [schema, json, out] = paths;
    read_both(rt, texts, [schema, json])?;
    let buffer = buffer_of(rt, texts, flags)?;
    match write_out(
        rt,
        out,
        &mut BufferContent(buffer.as_slice()),
        [schema, json],
    ) {
        Ok(()) => Ok(()),
        Err(error) => Err(write_fault(rt, texts, out, &error)),
    }
}

// The page that is written at once is as large, so no other job has it in its frame.
#[inline(never)]
fn print_bytes(rt: &HostRuntime, texts: &mut Texts<'_>, flags: Flags) -> Result<(), ToolFault> {
    let layout = layout_of(rt, texts)?;
    let mut out = Noted::over(Reasoned::over(rt.stdout()));
    let bytes = texts.input.bytes.as_slice();
    let answer = decode_to(&layout, bytes, &flags.decode_options(), &mut out);
    match (answer, out.into_inner().into_reason()) {
        (Err(fault), Some(error)) => {
            texts.fail(rt, "standard output", &error);
            Err(fault)
        }
        (answer, _) => answer,
    }
}

fn print_buffer<'j>(
    rt: &HostRuntime,
    texts: &mut Texts<'j>,
    paths: [&'j str; 2],
    flags: Flags,
) -> Result<(), ToolFault> {
    read_both(rt, texts, paths)?;
    print_bytes(rt, texts, flags)
}

/// Checks a schema, or a buffer under it.
fn check_files<'j>(
    rt: &HostRuntime,
    texts: &mut Texts<'j>,
    schema_path: &'j str,
    bin: Option<&'j str>,
    flags: Flags,
) -> Result<(), ToolFault> {
    texts.read_schema(rt, schema_path).map_err(read_fault)?;
    if let Some(bin) = bin {
        texts.read_input(rt, bin).map_err(read_fault)?;
    }
    let layout = layout_of(rt, texts)?;
    match bin {
        Some(_) => verified(&layout, texts.input.bytes.as_slice(), flags),
        None => Ok(()),
    }
}

/// What the old schema is called in refusals.
fn old_name(comparison: &Comparison) -> &str {
    match &comparison.old_name {
        Some(name) => name.as_str(),
        None if comparison.old.as_str() == "-" => "the old schema",
        None => comparison.old.as_str(),
    }
}

/// Gives the old schema the name under which it is reported.
fn name_schema<'j>(texts: &mut Texts<'j>, name: &'j str) {
    texts.schema.path = name;
    if let Some(failure) = &mut texts.failure {
        failure.path = name;
    }
}

fn conform_files<'j>(
    rt: &HostRuntime,
    comparison: &'j Comparison,
    texts: &mut Texts<'j>,
) -> Result<&'static str, ToolFault> {
    let read = texts.read_schema(rt, comparison.old.as_str());
    name_schema(texts, old_name(comparison));
    read.map_err(read_fault)?;
    texts
        .read_input(rt, comparison.new.as_str())
        .map_err(read_fault)?;
    let old = texts.schema.bytes.as_slice();
    let new = texts.input.bytes.as_slice();
    compared(rt.alloc(), old, new, comparison.names)?;
    Ok(conforms_line())
}

/// OUT of a line, or the name of standard output.
pub(crate) fn out_path(output: &Output) -> &str {
    match output {
        Output::Standard => "-",
        Output::File(path) | Output::Directory(path) => path.as_str(),
    }
}

/// Does a task at one file, and returns what is printed then.
fn do_one<'j>(
    rt: &HostRuntime,
    task: &'j Task,
    input: &'j str,
    texts: &mut Texts<'j>,
) -> Result<&'static str, ToolFault> {
    let flags = Flags::of(task.verb, task.form);
    let schema = task.schema.as_str();
    match task.verb {
        Verb::Binary { .. } => {
            write_buffer(rt, texts, [schema, input, out_path(&task.output)], flags)?
        }
        Verb::Json { .. } => print_buffer(rt, texts, [schema, input], flags)?,
        Verb::Check { .. } => check_files(rt, texts, schema, Some(input), flags)?,
    }
    Ok(verdict_of(task.verb))
}

/// Checks a schema alone, and returns what is printed then.
fn check_schema<'j>(
    rt: &HostRuntime,
    task: &'j Task,
    texts: &mut Texts<'j>,
) -> Result<&'static str, ToolFault> {
    let flags = Flags::of(task.verb, task.form);
    check_files(rt, texts, task.schema.as_str(), None, flags)?;
    Ok(verdict_of(task.verb))
}

/// Reports that memory ran out, and returns the status.
fn tell_memory(rt: &HostRuntime) -> u8 {
    tell(rt, Err(ToolFault::Memory))
}

/// Prints what clap says of words that ask for no job, and returns the status.
fn refuse_line(rt: &HostRuntime, error: &Error, words: &[String]) -> u8 {
    if error.kind() == ErrorKind::OutOfMemory {
        return tell_memory(rt);
    }
    match print_error(rt, error) {
        Ok(()) if error.use_stderr() => {
            if let Some(hint) = hint_for(words) {
                let _printed = eprint_hint(rt, hint);
            }
            USAGE
        }
        Ok(()) => 0,
        Err(failed) if failed.kind() == io::ErrorKind::OutOfMemory => tell_memory(rt),
        Err(_) => 1,
    }
}

/// Reports why the words can't be read, and returns the status.
fn refuse_words(rt: &HostRuntime, error: &io::Error) -> u8 {
    if error.kind() == io::ErrorKind::OutOfMemory {
        return tell_memory(rt);
    }
    let _printed = eprint_bad_argument(rt);
    USAGE
}

/// The words of the command line, without the program's name.
fn words_of(rt: &HostRuntime) -> io::Result<Vec<String>> {
    Ok(env::args(rt)?.skip(1).collect(rt.alloc())?)
}

/// Reports what comes of a task or a comparison, and returns the status.
fn report(
    rt: &HostRuntime,
    answer: Result<&str, ToolFault>,
    flags: Flags,
    texts: &Texts<'_>,
    format: ErrorFormat,
) -> u8 {
    match answer {
        Ok(text) => tell(rt, Ok(text)),
        Err(fault) => refuse(rt, format, Refusal::of_files(fault, flags, texts)),
    }
}

/// Does a task, and returns the status.
fn do_task(rt: &HostRuntime, task: &Task, format: ErrorFormat, words: &[String]) -> u8 {
    let mut texts = Texts::new(rt);
    let answer = match &task.inputs {
        Inputs::Schema => check_schema(rt, task, &mut texts),
        Inputs::One(input) => do_one(rt, task, input.as_str(), &mut texts),
        Inputs::Each(files) => {
            return match do_batch(rt, task, files.as_slice(), format) {
                Ok(status) => status,
                Err(error) => refuse_line(rt, &error, words),
            };
        }
        Inputs::Stream { path, keep_going } => {
            return do_stream(rt, task, path.as_str(), *keep_going, format);
        }
    };
    report(rt, answer, Flags::of(task.verb, task.form), &texts, format)
}

/// Compares two schemas, and returns the status. Where the new one conforms, each format but the line warns of what may
/// be meant otherwise.
fn do_conform(rt: &HostRuntime, comparison: &Comparison, format: ErrorFormat) -> u8 {
    let mut texts = Texts::new(rt);
    let answer = conform_files(rt, comparison, &mut texts);
    let status = report(rt, answer, Flags::none(), &texts, format);
    if answer.is_ok() {
        warn(rt, format, &texts);
    }
    status
}

/// Does what a line asks for, and returns the status.
fn do_request(rt: &HostRuntime, request: &Request, words: &[String]) -> u8 {
    match request {
        Request::Do(task, format) => do_task(rt, task, error_format(rt, *format), words),
        Request::Conform(comparison, format) => {
            do_conform(rt, comparison, error_format(rt, *format))
        }
        Request::ConformChain(chain, format) => do_chain(rt, chain, error_format(rt, *format)),
        Request::CheckSchemas(schemas, format) => {
            check_schemas(rt, schemas.as_slice(), error_format(rt, *format))
        }
        Request::Inspect(inspection, format) => {
            inspect(rt, inspection, error_format(rt, *format))
        }
        Request::Describe(schema, format) => {
            describe(rt, schema.as_str(), error_format(rt, *format))
        }
        Request::Explain(Some(number)) => explain_number(rt, number.as_str()),
        Request::Explain(None) => list_numbers(rt),
    }
}

/// Does what the words ask for, and returns the status.
fn run(rt: &HostRuntime, words: &[String]) -> u8 {
    match request_of(rt.alloc(), words) {
        Ok(request) => do_request(rt, &request, words),
        Err(error) => refuse_line(rt, &error, words),
    }
}

/// Shows the example, and returns the status.
fn show_example(rt: &HostRuntime) -> u8 {
    let answer = example(rt.alloc());
    match &answer {
        Ok(text) => tell(rt, Ok(text.as_str())),
        Err(fault) => tell(rt, Err(*fault)),
    }
}

fn main(rt: HostRuntime) -> ExitCode {
    let status = match words_of(&rt) {
        Ok(words) if words.is_empty() => show_example(&rt),
        Ok(words) => run(&rt, words.as_slice()),
        Err(error) => refuse_words(&rt, &error),
    };
    ExitCode::from(status)
}
