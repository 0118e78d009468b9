//! From the matches of a line `binary`, `json` or `check` to its task.
ghost use Rattle.std.specs.Prelude.{◌≡◌, ◌∷◌, [], IfOk, IfErr, OnOk, true, false, codes, map, string_bytes};
ghost use Rattle.clap.specs.Words.{found_of, rows_of};
ghost use Rattle.flatc_cli.specs.Lines.{AreFiles, IsOneFile, IsStreamed, IsTask, IsVerb};
ghost use Rattle.flatc_cli.specs.Lines.{has_inputs, is_set, is_stream_allowed, paths_in};
ghost use Rattle.flatc_cli.specs.Requests.{input_paths};

use crate::flags::{form_of, is_streamed};
use crate::matches::{
    check_inputs, flag_of, only_path, path_of, paths_of, strings_of, text_of, texts_of, two_paths,
};
use crate::misuse::Misuse;
use crate::request::{Inputs, Output, Task, Verb};
use clap::ArgMatches;
use std::alloc::{AllocError, Global};

/// A file as the input: as a whole, or with `--lines` as a stream.
fn one_file(alloc: Global, found: &ArgMatches<'_>, path: &str) -> Result<Inputs, AllocError>
    ensures one { IfOk result IsOneFile }
    ensures path { IfOk result (λ inputs. input_paths inputs ≡ path.now ∷ []) }
    ensures streamed { IfOk result (IsStreamed (rows_of (found_of found.now))) }
{
    let path = String::from_str(alloc, path)?;
    if is_streamed(found) {
        return Ok(Inputs::Stream {
            path,
            keep_going: flag_of(found, "keep-going"),
        });
    }
    Ok(Inputs::One(path))
}

/// A task with these inputs and this output, in the form that the line asks for.
fn task_with(
    alloc: Global,
    found: &ArgMatches<'_>,
    verb: Verb,
    inputs: Inputs,
    output: Output,
) -> Result<Task, AllocError>
    ensures { (name : _) → IsVerb name (rows_of (found_of found.now)) verb
        → AreFiles (rows_of (found_of found.now)) verb inputs output
        → IfOk result (IsTask name (rows_of (found_of found.now))) }
{
    Ok(Task {
        verb,
        schema: path_of(alloc, found, "SCHEMA")?,
        inputs,
        output,
        form: form_of(found),
    })
}

/// What a line `binary` asks for.
pub(crate) fn binary_task<'a>(alloc: Global, found: &ArgMatches<'a>) -> Result<Task, Misuse<'a>>
    requires { is_stream_allowed (rows_of (found_of found.now)) ≡ true }
    ensures task { IfOk result (IsTask (codes "binary") (rows_of (found_of found.now))) }
    ensures line { OnOk result (has_inputs (codes "binary") (rows_of (found_of found.now)) ≡ true) }
    ensures refusal { IfErr result (λ m.
        has_inputs (codes "binary") (rows_of (found_of found.now)) ≡ true → m ≡ Misuse.Memory) }
{
    let verb = Verb::Binary {
        unknown: flag_of(found, "unknown-json"),
    };
    if let Some(dir) = text_of(found, "DIR") {
        let files = paths_of(found, "JSON")?;
        check_inputs(found, files)?;
        let inputs = Inputs::Each(strings_of(alloc, files)?);
        let output = Output::Directory(String::from_str(alloc, dir)?);
        return Ok(task_with(alloc, found, verb, inputs, output)?);
    }
    let (json, out) = two_paths(found, "JSON", "<OUT>")?;
    check_inputs(found, &[json])?;
    let inputs = one_file(alloc, found, json)?;
    let output = Output::File(String::from_str(alloc, out)?);
    Ok(task_with(alloc, found, verb, inputs, output)?)
}

/// What a line `json` asks for.
pub(crate) fn json_task<'a>(alloc: Global, found: &ArgMatches<'a>) -> Result<Task, Misuse<'a>>
    requires { is_stream_allowed (rows_of (found_of found.now)) ≡ true }
    ensures task { IfOk result (IsTask (codes "json") (rows_of (found_of found.now))) }
    ensures line { OnOk result (has_inputs (codes "json") (rows_of (found_of found.now)) ≡ true) }
    ensures refusal { IfErr result (λ m.
        has_inputs (codes "json") (rows_of (found_of found.now)) ≡ true → m ≡ Misuse.Memory) }
{
    let verb = Verb::Json {
        raw: flag_of(found, "raw-binary"),
        defaults: flag_of(found, "defaults-json"),
    };
    if let Some(dir) = text_of(found, "DIR") {
        let files = paths_of(found, "BIN")?;
        check_inputs(found, files)?;
        let inputs = Inputs::Each(strings_of(alloc, files)?);
        let output = Output::Directory(String::from_str(alloc, dir)?);
        return Ok(task_with(alloc, found, verb, inputs, output)?);
    }
    let bin = only_path(found, "BIN", "<BIN>")?;
    check_inputs(found, &[bin])?;
    let inputs = one_file(alloc, found, bin)?;
    Ok(task_with(alloc, found, verb, inputs, Output::Standard)?)
}

/// What a line `check` is about: the schema alone, one buffer, several, or those of a stream.
fn checked_inputs<'a>(alloc: Global, found: &ArgMatches<'a>) -> Result<Inputs, Misuse<'a>>
    ensures files { (raw : _) → IfOk result (λ inputs.
        AreFiles (rows_of (found_of found.now)) (Verb.Check raw) inputs Output.Standard) }
    ensures line { OnOk result (has_inputs (codes "check") (rows_of (found_of found.now)) ≡ true) }
    ensures refusal { IfErr result (λ m.
        has_inputs (codes "check") (rows_of (found_of found.now)) ≡ true → m ≡ Misuse.Memory) }
{
    if is_streamed(found) {
        let bin = only_path(found, "BIN", "<BIN>")?;
        check_inputs(found, &[bin])?;
        return Ok(one_file(alloc, found, bin)?);
    }
    let Some(files) = texts_of(found, "BIN") else {
        check_inputs(found, &[])?;
        return Ok(Inputs::Schema);
    };
    check_inputs(found, files)?;
    match files {
        [] => Ok(Inputs::Schema),
        [bin] => Ok(Inputs::One(String::from_str(alloc, bin)?)),
        _ => Ok(Inputs::Each(strings_of(alloc, files)?)),
    }
}

/// What a line `check` asks for.
pub(crate) fn check_task<'a>(alloc: Global, found: &ArgMatches<'a>) -> Result<Task, Misuse<'a>>
    requires { is_set (codes "schemas") (rows_of (found_of found.now)) ≡ false }
    ensures task { IfOk result (IsTask (codes "check") (rows_of (found_of found.now))) }
    ensures line { OnOk result (has_inputs (codes "check") (rows_of (found_of found.now)) ≡ true) }
    ensures refusal { IfErr result (λ m.
        has_inputs (codes "check") (rows_of (found_of found.now)) ≡ true → m ≡ Misuse.Memory) }
{
    let verb = Verb::Check {
        raw: flag_of(found, "raw-binary"),
    };
    let inputs = checked_inputs(alloc, found)?;
    Ok(task_with(alloc, found, verb, inputs, Output::Standard)?)
}
