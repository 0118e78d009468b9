//! Rows that are tried.
use crate::faults::RowFault;
use crate::fields::Fields;
use crate::schemas::try_schema_row;
use crate::tally::RowTally;
use crate::values::try_value_row;
use json::Scratch;
use std::alloc::{AllocError, Global};
use std::fs;
use std::io::{self, Write};
use std::process::ExitCode;

/// The kinds of rows, in the order in which they are counted.
const KINDS: &[&str] = &[
    "refused", "declared", "asked", "built", "meant", "read", "damaged", "carried", "named",
];

/// Whether a row holds: its kind, or what is wrong.
#[derive(Drop)]
pub(crate) enum RowVerdict {
    Holds(&'static str),
    Wrong(String),
}

/// The verdict on a row that a line came of.
fn compare(
    alloc: Global,
    kind: &'static str,
    name: &str,
    want: &str,
    found: &str,
) -> Result<RowVerdict, RowFault> {
    if found == want {
        return Ok(RowVerdict::Holds(kind));
    }
    let wrong = format!(in alloc; "{name}: wanted {want}, got {found}")?;
    Ok(RowVerdict::Wrong(wrong))
}

/// Writes what comes of a row as a line, and returns the row's kind. Each field that tells of it is taken.
fn run(alloc: Global, row: &mut Fields<'_>, line: &mut String) -> Result<&'static str, RowFault> {
    match row.optional_text("text")? {
        Some(text) => try_schema_row(alloc, text.as_str(), row, line),
        None => try_value_row(alloc, row, line),
    }
}

/// The verdict on a row. One with a field that isn't used is no row.
fn try_row(alloc: Global, row: &mut Fields<'_>) -> Result<RowVerdict, RowFault> {
    let name = row.text("row")?;
    let want = row.text("want")?;
    let mut line = String::new(alloc);
    let kind = run(alloc, row, &mut line)?;
    if !row.is_empty() {
        return Err(RowFault::Unused);
    }
    compare(alloc, kind, name.as_str(), want.as_str(), line.as_str())
}

/// The verdict on a line, or why it is no row.
fn try_line(alloc: Global, line: &str) -> Result<RowVerdict, RowFault> {
    let mut scratch = Scratch::new(alloc);
    match Fields::parse(alloc, line, &mut scratch) {
        Ok(mut row) => try_row(alloc, &mut row),
        Err(fault) => Err(fault),
    }
}

/// The verdict on a line. A line that is no row is wrong.
fn judge(alloc: Global, line: &str) -> Result<RowVerdict, AllocError> {
    match try_line(alloc, line) {
        Ok(verdict) => Ok(verdict),
        Err(fault) => Ok(RowVerdict::Wrong(format!(in alloc; "{line}: no row, {fault}")?)),
    }
}

/// Tries each line of a text as a row, and writes a line for each that is wrong.
fn try_lines<W: Write>(
    alloc: Global,
    text: &str,
    tally: &mut RowTally,
    out: &mut W,
) -> io::Result<()> {
    for line in text.lines() {
        let verdict = judge(alloc, line)?;
        tally.count(&verdict, out)?;
    }
    Ok(())
}

/// Tries each line of some files as a row, and writes a line for each that is wrong, and the counts.
/// The status is a failure where a row is wrong.
pub(crate) fn try_files(rt: &HostRuntime, paths: &[String]) -> io::Result<ExitCode> {
    let mut tally = RowTally::new(rt.alloc(), KINDS)?;
    for path in paths {
        let text = fs::read_to_string(rt, path.as_str())?;
        try_lines(rt.alloc(), text.as_str(), &mut tally, &mut rt.stdout())?;
    }
    tally.write_to(&mut rt.stdout())?;
    Ok(tally.status())
}
