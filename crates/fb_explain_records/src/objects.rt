//! Findings as JSON objects, one in a line.
ghost use Rattle.std.specs.Prelude.{◌≡◌, ◌++◌, IfOk, OnOk, string_bytes};
ghost use Rattle.fb_explain_records.specs.Objects.{fault_members, number_member, place_members, string_member};
ghost use Rattle.fb_explain_records.specs.Objects.{text_member, subject_members, other_members, IsObjectLine};
ghost use Rattle.fb_explain_records.specs.Objects.{about_members, index_in, object_of};
ghost use Rattle.fb_explain_records.specs.Objects.{position_members, report_members};
ghost use Rattle.fb_explain_records.specs.Records.{AreRecords};

use crate::context::Context;
use crate::end_columns::end_column;
use crate::messages::{message_of, word_of};
use fb_explain_pages::page_of;
use fb_findings::{Finding, Location, Position};
use json::Writer;
use std::alloc::{AllocError, Global};
use std::slice;

/// Adds a member that is a string.
fn put_string(object: &mut Writer, name: &str, text: &str) -> Result<(), AllocError>
    ensures before { OnOk result (object.new.before ≡ object.old.before) }
    ensures added { OnOk result (object.new.tokens ≡ object.old.tokens ++ string_member name.now text.now) }
{
    object.key(name)?;
    object.string(text)
}

/// Adds a member that is a string; nothing where the string is empty.
fn put_text(object: &mut Writer, name: &str, text: &str) -> Result<(), AllocError>
    ensures before { OnOk result (object.new.before ≡ object.old.before) }
    ensures added { OnOk result (object.new.tokens ≡ object.old.tokens ++ text_member name.now text.now) }
{
    if text.is_empty() {
        return Ok(());
    }
    put_string(object, name, text)
}

/// Adds a member that is a number, where there is one.
fn put_number(object: &mut Writer, name: &str, number: Option<u64>) -> Result<(), AllocError>
    ensures before { OnOk result (object.new.before ≡ object.old.before) }
    ensures added { OnOk result (object.new.tokens ≡ object.old.tokens ++ number_member name.now number) }
{
    if let Some(number) = number {
        object.key(name)?;
        object.u64(number)?;
    }
    Ok(())
}

/// Adds how bad a finding is, and the number and the name of its fault.
fn put_fault(object: &mut Writer, finding: &Finding<'_>) -> Result<(), AllocError>
    ensures before { OnOk result (object.new.before ≡ object.old.before) }
    ensures added { OnOk result (object.new.tokens ≡ object.old.tokens ++ fault_members finding.now) }
{
    put_string(object, "severity", word_of(finding.severity))?;
    put_number(object, "number", Some(u64::from(finding.fault.number())))?;
    put_string(object, "name", finding.fault.name())
}

/// Adds a file, and the line and column in it where there are any.
fn put_position(
    object: &mut Writer,
    file: &str,
    position: Option<Position>,
) -> Result<(), AllocError>
    ensures before { OnOk result (object.new.before ≡ object.old.before) }
    ensures added { OnOk result (object.new.tokens ≡ object.old.tokens ++ position_members file.now position) }
{
    put_text(object, "file", file)?;
    put_number(
        object,
        "line",
        position.map(|position| position.line as u64),
    )?;
    put_number(
        object,
        "column",
        position.map(|position| position.column as u64),
    )
}

/// Adds where a finding is.
fn put_place(
    object: &mut Writer,
    finding: &Finding<'_>,
    context: &Context<'_>,
    end_column: Option<u64>,
) -> Result<(), AllocError>
    ensures before { OnOk result (object.new.before ≡ object.old.before) }
    ensures added { OnOk result (object.new.tokens ≡ object.old.tokens
        ++ place_members context.now.input.path.now end_column finding.now) }
{
    let place = finding.place;
    let file = place.map_or(context.input.path, |place| place.path);
    put_position(object, file, place.and_then(|place| place.position))?;
    put_number(object, "end_column", end_column)?;
    put_number(object, "offset", place.and_then(|place| place.offset))
}

/// Adds what a finding is about: the path to the value, and its type and slot.
fn put_subject(object: &mut Writer, finding: &Finding<'_>) -> Result<(), AllocError>
    ensures before { OnOk result (object.new.before ≡ object.old.before) }
    ensures added { OnOk result (object.new.tokens ≡ object.old.tokens ++ subject_members finding.now) }
{
    put_text(object, "path", finding.path.as_str())?;
    put_number(object, "type", finding.fault.owner().map(|owner| owner.0))?;
    put_number(object, "slot", finding.fault.slot().map(u64::from))?;
    put_text(object, "type_name", finding.type_name.as_str())?;
    put_text(object, "field_name", finding.field_name.as_str())
}

/// Adds the place in the old schema, where there is one.
fn put_other(object: &mut Writer, place: Option<Location<'_>>) -> Result<(), AllocError>
    ensures before { OnOk result (object.new.before ≡ object.old.before) }
    ensures added { OnOk result (object.new.tokens ≡ object.old.tokens ++ other_members place.entry) }
{
    let Some(place) = place else {
        return Ok(());
    };
    object.key("other")?;
    object.begin_object()?;
    put_position(object, place.path, place.position)?;
    object.end_object()
}

/// What of a finding's object is made of its words and its text.
#[derive(Drop)]
struct Words {
    message: String,
    /// The lines for people; empty where a finding before it says the same.
    rendered: String,
    end_column: Option<u64>,
}

fn words_of(
    alloc: Global,
    finding: &Finding<'_>,
    context: &Context<'_>,
) -> Result<Words, AllocError> {
    Ok(Words {
        message: message_of(alloc, finding)?,
        rendered: page_of(alloc, slice::from_ref(finding), context.columns)?,
        end_column: end_column(finding, context).map(|column| column as u64),
    })
}

/// Adds what is wrong, and where.
fn put_report(
    object: &mut Writer,
    finding: &Finding<'_>,
    context: &Context<'_>,
    words: &Words,
) -> Result<(), AllocError>
    ensures before { OnOk result (object.new.before ≡ object.old.before) }
    ensures added { OnOk result (object.new.tokens ≡ object.old.tokens ++ report_members context.now.input.path.now
        words.now.end_column (string_bytes words.now.message) finding.now) }
{
    put_fault(object, finding)?;
    put_string(object, "message", words.message.as_str())?;
    put_place(object, finding, context, words.end_column)
}

/// Adds what a finding is about, and what is shown to people.
fn put_about(
    object: &mut Writer,
    finding: &Finding<'_>,
    context: &Context<'_>,
    words: &Words,
) -> Result<(), AllocError>
    ensures before { OnOk result (object.new.before ≡ object.old.before) }
    ensures added { OnOk result (object.new.tokens ≡ object.old.tokens ++ about_members (index_in context.now.message)
        (string_bytes words.now.rendered) finding.now) }
{
    put_subject(object, finding)?;
    put_other(object, finding.old_place)?;
    put_number(
        object,
        "message_index",
        context.message.map(|message| message.index),
    )?;
    put_text(object, "rendered", words.rendered.as_str())
}

/// Adds the object of a finding.
fn put_object(
    object: &mut Writer,
    finding: &Finding<'_>,
    context: &Context<'_>,
    words: &Words,
) -> Result<(), AllocError>
    ensures before { OnOk result (object.new.before ≡ object.old.before) }
    ensures added { OnOk result (object.new.tokens ≡ object.old.tokens ++ object_of context.now.input.path.now
        words.now.end_column (index_in context.now.message) (string_bytes words.now.message)
        (string_bytes words.now.rendered) finding.now) }
{
    object.begin_object()?;
    put_report(object, finding, context, words)?;
    put_about(object, finding, context, words)?;
    object.end_object()
}

/// The object of a finding, with a line feed.
fn object_line(
    alloc: Global,
    finding: &Finding<'_>,
    context: &Context<'_>,
) -> Result<Vec<u8>, AllocError>
    ensures { IfOk result (λ line. IsObjectLine context.now.input.path.now (index_in context.now.message) finding.now
        line.items) }
{
    let words = words_of(alloc, finding, context)?;
    let mut object = Writer::new(Vec::new(alloc));
    put_object(&mut object, finding, context, &words)?;
    let mut line = object.into_inner();
    line.push(b'\n')?;
    Ok(line)
}

/// A JSON object for each finding, in order, each in a line of its own.
///
/// What doesn't apply to a finding is left out of its object.
pub fn json_lines(
    alloc: Global,
    findings: &[Finding<'_>],
    context: &Context<'_>,
) -> Result<Vec<u8>, AllocError>
    ensures objects { IfOk result (λ text. AreRecords (IsObjectLine context.now.input.path.now
        (index_in context.now.message)) findings.now text.items) }
{
    let mut text = Vec::new(alloc);
    for finding in findings {
        text.extend_from_slice(object_line(alloc, finding, context)?.as_slice())?;
    }
    Ok(text)
}
