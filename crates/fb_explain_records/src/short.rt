//! Findings as compilers write them, one in a line.
ghost use Rattle.std.specs.Prelude.{◌≡◌, ◌++◌, IfOk, OnOk, string_bytes};
ghost use Rattle.fb_explain_records.specs.Places.{position_shown};
ghost use Rattle.fb_explain_records.specs.Records.{AreRecords, IsShortLine, head_of, place_text, tail_of};

use crate::escapes::push_escaped;
use crate::messages::{message_of, word_of};
use fb_findings::{Finding, Location, Position};
use itoa::Buffer;
use std::alloc::{AllocError, Global};

/// The position that a finding is shown at: the first one of its file where it has no line.
fn position_shown(place: Option<Location<'_>>) -> Position
    ensures { result ≡ position_shown place.entry }
{
    place
        .and_then(|place| place.position)
        .unwrap_or(Position { line: 1, column: 1 })
}

/// Adds where a finding is, with its file as it is shown.
fn push_place(line: &mut String, finding: &Finding<'_>, file: &str) -> Result<(), AllocError>
    ensures { OnOk result (string_bytes line.new ≡ string_bytes line.old ++ place_text file.now finding.now) }
{
    let position = position_shown(finding.place);
    line.push_str(file)?;
    line.push_str(":")?;
    line.push_str(Buffer::new().format(position.line))?;
    line.push_str(":")?;
    line.push_str(Buffer::new().format(position.column))
}

/// Adds where a finding is and how bad it is, with its file as it is shown.
fn push_head(line: &mut String, finding: &Finding<'_>, file: &str) -> Result<(), AllocError>
    ensures { OnOk result (string_bytes line.new ≡ string_bytes line.old ++ head_of file.now finding.now) }
{
    push_place(line, finding, file)?;
    line.push_str(": ")?;
    line.push_str(word_of(finding.severity))?;
    line.push_str(": ")
}

/// Adds where the old schema has it, unless the words say that already.
fn push_old_place(
    alloc: Global,
    words: &mut String,
    finding: &Finding<'_>,
) -> Result<(), AllocError> {
    let Some(
        Location {
            path,
            position: Some(Position { line, .. }),
            ..
        },
    ) = finding.old_place
    else {
        return Ok(());
    };
    let file = format!(in alloc; "({path}:")?;
    if words.contains(file.as_str()) {
        return Ok(());
    }
    words.push_str(" ")?;
    words.push_str(file.as_str())?;
    words.push_str(Buffer::new().format(line))?;
    words.push_str(")")
}

/// Adds an offset that has no line.
fn push_offset(words: &mut String, finding: &Finding<'_>) -> Result<(), AllocError> {
    let Some(
        Location {
            offset: Some(offset),
            position: None,
            ..
        },
    ) = finding.place
    else {
        return Ok(());
    };
    words.push_str(" at byte ")?;
    words.push_str(Buffer::new().format(offset))
}

/// The path to the value, what is wrong, and the places that the line doesn't begin with.
fn words_of(alloc: Global, finding: &Finding<'_>) -> Result<String, AllocError> {
    let mut words = String::from_str(alloc, finding.path.as_str())?;
    if !words.is_empty() {
        words.push_str(": ")?;
    }
    words.push_str(message_of(alloc, finding)?.as_str())?;
    push_old_place(alloc, &mut words, finding)?;
    push_offset(&mut words, finding)?;
    Ok(words)
}

/// Adds the number and the name of a finding's fault, which end its line.
fn push_tail(line: &mut String, finding: &Finding<'_>) -> Result<(), AllocError>
    ensures { OnOk result (string_bytes line.new ≡ string_bytes line.old ++ tail_of finding.now) }
{
    line.push_str(" [")?;
    line.push_str(Buffer::new().format(finding.fault.number()))?;
    line.push_str(" ")?;
    line.push_str(finding.fault.name())?;
    line.push_str("]\n")
}

/// The line of a finding, with its file and its words as they are shown.
fn line_with(
    alloc: Global,
    finding: &Finding<'_>,
    file: &str,
    words: &str,
) -> Result<String, AllocError>
    ensures { IfOk result (λ line. string_bytes line ≡ head_of file.now finding.now
        ++ (words.now ++ tail_of finding.now)) }
{
    let mut line = String::new(alloc);
    push_head(&mut line, finding, file)?;
    line.push_str(words)?;
    push_tail(&mut line, finding)?;
    Ok(line)
}

/// The line of a finding.
fn short_line(alloc: Global, finding: &Finding<'_>, file: &str) -> Result<String, AllocError>
    ensures { IfOk result (λ line. IsShortLine finding.now (string_bytes line)) }
{
    let mut shown = String::new(alloc);
    push_escaped(&mut shown, finding.place.map_or(file, |place| place.path))?;
    let mut words = String::new(alloc);
    push_escaped(&mut words, words_of(alloc, finding)?.as_str())?;
    line_with(alloc, finding, shown.as_str(), words.as_str())
}

/// A line for each finding, in order: `FILE:LINE:COLUMN: error: WORDS [NUMBER NAME]`, or `warning:`.
///
/// Line and column are 1 where a finding has no line; then an offset comes after the words. Findings without a place
/// are shown at `file`. Control characters are escaped.
pub fn short_lines(
    alloc: Global,
    findings: &[Finding<'_>],
    file: &str,
) -> Result<String, AllocError>
    ensures lines { IfOk result (λ text. AreRecords IsShortLine findings.now (string_bytes text)) }
{
    let mut text = String::new(alloc);
    for finding in findings {
        text.push_str(short_line(alloc, finding, file)?.as_str())?;
    }
    Ok(text)
}
