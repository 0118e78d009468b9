//! From the matches of a command line to what it asks for.
ghost use Rattle.std.specs.Prelude.{◌≡◌, IfOk, IfErr, OnOk, true, false, codes, option_map, string_bytes};
ghost use Rattle.clap.specs.Words.{first_of, found_of, rows_of};
ghost use Rattle.flatc_cli.specs.Lines.{AreSchemas, IsChain, IsComparison, IsRequest};
ghost use Rattle.flatc_cli.specs.Lines.{has_inputs, is_line_of, is_set, is_streamed};

use crate::flags::{check_flags, format_of};
use crate::inspections::inspection_of;
use crate::matches::{all_paths, check_read_once, flag_of, only_path, path_of, text_of};
use crate::misuse::Misuse;
use crate::request::{Chain, Comparison, Request};
use crate::tasks::{binary_task, check_task, json_task};
use clap::ArgMatches;
use std::alloc::{AllocError, Global};

/// The first value of an id, where it has one.
fn string_of(alloc: Global, found: &ArgMatches<'_>, id: &str) -> Result<Option<String>, AllocError>
    ensures { IfOk result (λ string. first_of id.now (rows_of (found_of found.now))
        ≡ option_map string_bytes string) }
{
    match text_of(found, id) {
        Some(text) => Ok(Some(String::from_str(alloc, text)?)),
        None => Ok(None),
    }
}

/// What a line `conform` over two schemas asks for.
fn comparison_of<'a>(alloc: Global, found: &ArgMatches<'a>) -> Result<Comparison, Misuse<'a>>
    requires { is_set (codes "chain") (rows_of (found_of found.now)) ≡ false }
    ensures comparison { IfOk result (IsComparison (codes "conform") (rows_of (found_of found.now))) }
    ensures line { OnOk result (has_inputs (codes "conform") (rows_of (found_of found.now)) ≡ true) }
    ensures refusal { IfErr result (λ m.
        has_inputs (codes "conform") (rows_of (found_of found.now)) ≡ true → m ≡ Misuse.Memory) }
{
    let old = path_of(alloc, found, "OLD")?;
    let new = String::from_str(alloc, only_path(found, "NEW", "<NEW>")?)?;
    check_read_once(old.as_str(), &[new.as_str()])?;
    let names = flag_of(found, "names");
    let old_name = string_of(alloc, found, "NAME")?;
    Ok(Comparison {
        old,
        new,
        names,
        old_name,
    })
}

/// What a line `conform --chain` asks for.
fn chain_of<'a>(alloc: Global, found: &ArgMatches<'a>) -> Result<Chain, Misuse<'a>>
    requires { is_set (codes "chain") (rows_of (found_of found.now)) ≡ true }
    ensures chain { IfOk result (IsChain (codes "conform") (rows_of (found_of found.now))) }
    ensures line { OnOk result (has_inputs (codes "conform") (rows_of (found_of found.now)) ≡ true) }
    ensures refusal { IfErr result (λ m.
        has_inputs (codes "conform") (rows_of (found_of found.now)) ≡ true → m ≡ Misuse.Memory) }
{
    Ok(Chain {
        versions: all_paths(alloc, found, "OLD", "NEW")?,
        names: flag_of(found, "names"),
    })
}

/// The schemas that a line `check --schemas` is about.
fn schemas_of<'a>(alloc: Global, found: &ArgMatches<'a>) -> Result<Vec<String>, Misuse<'a>>
    requires set { is_set (codes "schemas") (rows_of (found_of found.now)) ≡ true }
    requires whole { is_streamed (rows_of (found_of found.now)) ≡ false }
    ensures schemas { IfOk result (AreSchemas (codes "check") (rows_of (found_of found.now))) }
    ensures line { OnOk result (has_inputs (codes "check") (rows_of (found_of found.now)) ≡ true) }
    ensures refusal { IfErr result (λ m.
        has_inputs (codes "check") (rows_of (found_of found.now)) ≡ true → m ≡ Misuse.Memory) }
{
    all_paths(alloc, found, "SCHEMA", "BIN")
}

/// What the matches of a job's words ask for.
pub(crate) fn request_at<'a>(
    alloc: Global,
    job: &str,
    found: &ArgMatches<'a>,
) -> Result<Request, Misuse<'a>>
    ensures request { IfOk result (IsRequest job.now (rows_of (found_of found.now))) }
    ensures line { OnOk result (is_line_of job.now (rows_of (found_of found.now)) ≡ true) }
    ensures refusal { IfErr result (λ m.
        is_line_of job.now (rows_of (found_of found.now)) ≡ true → m ≡ Misuse.Memory) }
{
    check_flags(found)?;
    let format = format_of(found);
    match job {
        "binary" => Ok(Request::Do(binary_task(alloc, found)?, format)),
        "json" => Ok(Request::Do(json_task(alloc, found)?, format)),
        "check" if flag_of(found, "schemas") => {
            Ok(Request::CheckSchemas(schemas_of(alloc, found)?, format))
        }
        "check" => Ok(Request::Do(check_task(alloc, found)?, format)),
        "conform" if flag_of(found, "chain") => {
            Ok(Request::ConformChain(chain_of(alloc, found)?, format))
        }
        "conform" => Ok(Request::Conform(comparison_of(alloc, found)?, format)),
        "inspect" => Ok(Request::Inspect(inspection_of(alloc, found)?, format)),
        "describe" => Ok(Request::Describe(path_of(alloc, found, "SCHEMA")?, format)),
        "explain" => Ok(Request::Explain(string_of(alloc, found, "NUMBER")?)),
        _ => Err(Misuse::Memory),
    }
}
