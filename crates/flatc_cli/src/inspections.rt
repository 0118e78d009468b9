//! From the matches of a line `inspect` to what it asks for.
ghost use Rattle.std.specs.Prelude.{◌≡◌, IfOk, IfErr, OnOk, true, false, codes};
ghost use Rattle.clap.specs.Words.{found_of, rows_of};
ghost use Rattle.flatc_cli.specs.Lines.{IsInspection, has_inputs, is_set};

use crate::matches::{check_read_once, flag_of, only_path, two_paths};
use crate::misuse::Misuse;
use crate::request::Inspection;
use clap::ArgMatches;
use std::alloc::Global;

/// The inspection of a buffer under a schema.
fn bytes_of<'a>(alloc: Global, found: &ArgMatches<'a>) -> Result<Inspection, Misuse<'a>>
    requires { is_set (codes "header") (rows_of (found_of found.now)) ≡ false }
    ensures inspection { IfOk result (IsInspection (codes "inspect") (rows_of (found_of found.now))) }
    ensures line { OnOk result (has_inputs (codes "inspect") (rows_of (found_of found.now)) ≡ true) }
    ensures refusal { IfErr result (λ m.
        has_inputs (codes "inspect") (rows_of (found_of found.now)) ≡ true → m ≡ Misuse.Memory) }
{
    let (schema, bin) = two_paths(found, "FILE", "<BIN>")?;
    check_read_once(schema, &[bin])?;
    Ok(Inspection::Bytes {
        schema: String::from_str(alloc, schema)?,
        bin: String::from_str(alloc, bin)?,
        raw: flag_of(found, "raw-binary"),
        size_prefixed: flag_of(found, "size-prefixed"),
    })
}

/// The inspection of a buffer's first bytes.
fn header_of<'a>(alloc: Global, found: &ArgMatches<'a>) -> Result<Inspection, Misuse<'a>>
    requires { is_set (codes "header") (rows_of (found_of found.now)) ≡ true }
    ensures inspection { IfOk result (IsInspection (codes "inspect") (rows_of (found_of found.now))) }
    ensures line { OnOk result (has_inputs (codes "inspect") (rows_of (found_of found.now)) ≡ true) }
    ensures refusal { IfErr result (λ m.
        has_inputs (codes "inspect") (rows_of (found_of found.now)) ≡ true → m ≡ Misuse.Memory) }
{
    let bin = only_path(found, "FILE", "<BIN>")?;
    Ok(Inspection::Header {
        bin: String::from_str(alloc, bin)?,
    })
}

/// What a line `inspect` asks for.
pub(crate) fn inspection_of<'a>(
    alloc: Global,
    found: &ArgMatches<'a>,
) -> Result<Inspection, Misuse<'a>>
    ensures inspection { IfOk result (IsInspection (codes "inspect") (rows_of (found_of found.now))) }
    ensures line { OnOk result (has_inputs (codes "inspect") (rows_of (found_of found.now)) ≡ true) }
    ensures refusal { IfErr result (λ m.
        has_inputs (codes "inspect") (rows_of (found_of found.now)) ≡ true → m ≡ Misuse.Memory) }
{
    if flag_of(found, "header") {
        header_of(alloc, found)
    } else {
        bytes_of(alloc, found)
    }
}
