//! From the words of a command line to what they ask for.
ghost use Rattle.std.specs.Prelude.{◌≡◌, IfOk, IfErr, OnOk, true};
ghost use Rattle.std.specs.Prelude.{map, string_bytes};
ghost use Rattle.clap.specs.Words.{kind_of, subcommand_of, subcommand_rows_of, takes};
ghost use Rattle.flatc_cli.specs.Commands.{flatc_app};
ghost use Rattle.flatc_cli.specs.Lines.{IsRequestOf, is_line};
ghost use Rattle.flatc_cli.specs.Misuses.{IsRefusal};

use crate::commands::flatc_command;
use crate::misuse::{Misuse, misuse_error};
use crate::request::Request;
use crate::requests::request_at;
use clap::error::ErrorKind;
use clap::{ArgMatches, Error};
use std::alloc::Global;

/// What the matches of a command line ask for.
fn matched_request(alloc: Global, matches: &ArgMatches<'_>) -> Result<Request, Error>
    ensures request { IfOk result (IsRequestOf (subcommand_rows_of matches.now)) }
    ensures line { OnOk result (is_line (subcommand_rows_of matches.now) ≡ true) }
    ensures memory { IfErr result (λ e. is_line (subcommand_rows_of matches.now) ≡ true
        → kind_of e ≡ ErrorKind.OutOfMemory) }
    ensures refusal { IfErr result (λ e. IsRefusal (kind_of e)) }
{
    let Some((job, found)) = matches.subcommand() else {
        return Err(misuse_error(alloc, "", Misuse::Memory));
    };
    match request_at(alloc, job, found) {
        Ok(request) => Ok(request),
        Err(misuse) => Err(misuse_error(alloc, job, misuse)),
    }
}

/// What the words ask for, the program's name apart.
///
/// The error is clap's: a usage fault, help or the version that was asked for, or memory that ran
/// out. Lines with another count of paths than they take, and lines that read standard input twice,
/// are usage faults too.
pub fn request_of(alloc: Global, words: &[String]) -> Result<Request, Error>
    ensures request { IfOk result (IsRequestOf (subcommand_of flatc_app (map string_bytes words.now))) }
    ensures line { OnOk result (is_line (subcommand_of flatc_app (map string_bytes words.now)) ≡ true) }
    ensures memory { IfErr result (λ e. takes flatc_app (map string_bytes words.now) ≡ true
        → is_line (subcommand_of flatc_app (map string_bytes words.now)) ≡ true
        → kind_of e ≡ ErrorKind.OutOfMemory) }
    ensures refusal { IfErr result (λ e. takes flatc_app (map string_bytes words.now) ≡ true
        → IsRefusal (kind_of e)) }
{
    let matches = flatc_command(alloc)?.try_get_matches_from(words)?;
    matched_request(alloc, &matches)
}
