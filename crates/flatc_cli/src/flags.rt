//! What the flags of a line say, and which of them go together.
ghost use Rattle.std.specs.Prelude.{◌≡◌, OnOk, OnErr, true, false};
ghost use Rattle.clap.specs.Words.{found_of, rows_of};
ghost use Rattle.flatc_cli.specs.Lines.{is_streamed, format_in, form_in};
ghost use Rattle.flatc_cli.specs.Lines.{is_stream_allowed, is_header_allowed, is_format_allowed, is_chain_allowed};
ghost use Rattle.flatc_cli.specs.Lines.{are_schemas_allowed, are_allowed};

use crate::matches::{flag_of, text_of};
use crate::misuse::Misuse;
use crate::request::{ErrorFormat, Form};
use clap::ArgMatches;

/// How refusals are shown, where the line says it.
pub(crate) fn format_of(found: &ArgMatches<'_>) -> Option<ErrorFormat>
    ensures { result ≡ format_in (rows_of (found_of found.now)) }
{
    if flag_of(found, "terse") {
        Some(ErrorFormat::Line)
    } else if flag_of(found, "explain") {
        Some(ErrorFormat::Human)
    } else {
        text_of(found, "FORMAT").and_then(ErrorFormat::named)
    }
}

/// Whether a stream of messages is asked for.
pub(crate) fn is_streamed(found: &ArgMatches<'_>) -> bool
    ensures { result ≡ is_streamed (rows_of (found_of found.now)) }
{
    flag_of(found, "lines")
}

/// How buffers and JSON texts are framed.
pub(crate) fn form_of(found: &ArgMatches<'_>) -> Form
    ensures { result ≡ form_in (rows_of (found_of found.now)) }
{
    let is_streamed = is_streamed(found);
    Form {
        size_prefixed: is_streamed || flag_of(found, "size-prefixed"),
        compact: is_streamed || flag_of(found, "compact"),
    }
}

fn check_stream_flags(found: &ArgMatches<'_>) -> Result<(), Misuse<'static>>
    ensures ok { OnOk result (is_stream_allowed (rows_of (found_of found.now)) ≡ true) }
    ensures refusal { OnErr result (is_stream_allowed (rows_of (found_of found.now)) ≡ false) }
{
    if !is_streamed(found) {
        if flag_of(found, "keep-going") {
            return Err(Misuse::Missing("--lines"));
        }
        return Ok(());
    }
    if text_of(found, "DIR").is_some() {
        return Err(Misuse::Conflict("--lines", "--out-dir <DIR>"));
    }
    if flag_of(found, "size-prefixed") {
        return Err(Misuse::Conflict("--lines", "--size-prefixed"));
    }
    if flag_of(found, "compact") {
        return Err(Misuse::Conflict("--lines", "--compact"));
    }
    Ok(())
}

fn check_header_flags(found: &ArgMatches<'_>) -> Result<(), Misuse<'static>>
    ensures ok { OnOk result (is_header_allowed (rows_of (found_of found.now)) ≡ true) }
    ensures refusal { OnErr result (is_header_allowed (rows_of (found_of found.now)) ≡ false) }
{
    if !flag_of(found, "header") {
        return Ok(());
    }
    if flag_of(found, "raw-binary") {
        return Err(Misuse::Conflict("--header", "--raw-binary"));
    }
    if flag_of(found, "size-prefixed") {
        return Err(Misuse::Conflict("--header", "--size-prefixed"));
    }
    Ok(())
}

fn check_chain_flags(found: &ArgMatches<'_>) -> Result<(), Misuse<'static>>
    ensures ok { OnOk result (is_chain_allowed (rows_of (found_of found.now)) ≡ true) }
    ensures refusal { OnErr result (is_chain_allowed (rows_of (found_of found.now)) ≡ false) }
{
    if flag_of(found, "chain") && text_of(found, "NAME").is_some() {
        return Err(Misuse::Conflict("--chain", "--old-name <NAME>"));
    }
    Ok(())
}

fn check_schemas_flags(found: &ArgMatches<'_>) -> Result<(), Misuse<'static>>
    ensures ok { OnOk result (are_schemas_allowed (rows_of (found_of found.now)) ≡ true) }
    ensures refusal { OnErr result (are_schemas_allowed (rows_of (found_of found.now)) ≡ false) }
{
    if !flag_of(found, "schemas") {
        return Ok(());
    }
    if flag_of(found, "raw-binary") {
        return Err(Misuse::Conflict("--schemas", "--raw-binary"));
    }
    if flag_of(found, "size-prefixed") {
        return Err(Misuse::Conflict("--schemas", "--size-prefixed"));
    }
    if is_streamed(found) {
        return Err(Misuse::Conflict("--schemas", "--lines"));
    }
    if flag_of(found, "keep-going") {
        return Err(Misuse::Conflict("--schemas", "--keep-going"));
    }
    Ok(())
}

fn check_format_flags<'a>(found: &ArgMatches<'a>) -> Result<(), Misuse<'a>>
    ensures ok { OnOk result (is_format_allowed (rows_of (found_of found.now)) ≡ true) }
    ensures refusal { OnErr result (is_format_allowed (rows_of (found_of found.now)) ≡ false) }
{
    let Some(name) = text_of(found, "FORMAT") else {
        return Ok(());
    };
    if ErrorFormat::named(name).is_none() {
        return Err(Misuse::UnknownFormat(name));
    }
    if flag_of(found, "explain") {
        return Err(Misuse::Conflict("--error-format <FORMAT>", "--explain"));
    }
    if flag_of(found, "terse") {
        return Err(Misuse::Conflict("--error-format <FORMAT>", "--terse"));
    }
    Ok(())
}

/// That no flag rules out another, that each has the one that it needs, and that each value is one that its flag takes.
pub(crate) fn check_flags<'a>(found: &ArgMatches<'a>) -> Result<(), Misuse<'a>>
    ensures ok { OnOk result (are_allowed (rows_of (found_of found.now)) ≡ true) }
    ensures refusal { OnErr result (are_allowed (rows_of (found_of found.now)) ≡ false) }
{
    check_schemas_flags(found)?;
    check_stream_flags(found)?;
    check_header_flags(found)?;
    check_chain_flags(found)?;
    check_format_flags(found)
}
