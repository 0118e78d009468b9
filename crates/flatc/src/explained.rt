//! What is printed of a refusal, in each format.
use crate::program_name::eprint_usage;
use crate::tell;
use crate::terminal::{columns, print_explanation};
use fb_explain::{FileFailure, Finding, Source, Sources, fault_page, findings, page_of, warnings};
use fb_explain_records::{Context, StreamMessage, json_lines, short_lines};
use flatc_cli::ErrorFormat;
use flatc_files::{Input, Texts};
use flatc_jobs::{Flags, limits};
use flatc_tool::ToolFault;
use std::alloc::AllocError;
use std::io::{self, Write};

const REFUSED: u8 = 1;

const USAGE: u8 = 2;

const NO_NUMBER: &str = "error: no refusal has this number or name

Usage: flatc explain [NUMBER]
";

fn source_of<'a>(input: &'a Input<'_>) -> Source<'a> {
    Source {
        path: input.path,
        bytes: input.bytes.as_slice(),
    }
}

fn file_failure<'x>(texts: &'x Texts<'x>) -> Option<FileFailure<'x>> {
    texts.failure.as_ref().map(|failure| FileFailure {
        path: failure.path,
        reason: failure.reason.as_str(),
    })
}

/// A refusal, and what it is of.
#[derive(Clone, Copy)]
pub(crate) struct Refusal<'r> {
    pub(crate) fault: ToolFault,
    pub(crate) flags: Flags,
    pub(crate) texts: &'r Texts<'r>,
    /// The message of a stream that is refused; the input is that message then.
    pub(crate) message: Option<StreamMessage>,
}

impl<'r> Refusal<'r> {
    /// A refusal of whole files.
    pub(crate) fn of_files(fault: ToolFault, flags: Flags, texts: &'r Texts<'r>) -> Refusal<'r> {
        Refusal {
            fault,
            flags,
            texts,
            message: None,
        }
    }
}

/// What is wrong, with the places in the stream where a message is refused.
fn refusal_findings<'r>(
    rt: &HostRuntime,
    refusal: Refusal<'r>,
) -> Result<Vec<Finding<'r>>, AllocError> {
    let texts = refusal.texts;
    let sources = Sources {
        schema: source_of(&texts.schema),
        input: source_of(&texts.input),
        limits: limits(),
        unknown_json: refusal.flags.unknown_json,
        raw_binary: refusal.flags.raw_binary,
        size_prefixed: refusal.flags.form.size_prefixed,
        failure: file_failure(texts),
    };
    let mut findings = findings(rt.alloc(), refusal.fault, &sources)?;
    if let Some(message) = refusal.message {
        for finding in &mut findings {
            finding.place = finding.place.map(|place| message.place_of(place));
        }
    }
    Ok(findings)
}

/// The input of a job; its schema where no input was read.
fn refused_source<'r>(texts: &'r Texts<'_>) -> Source<'r> {
    if texts.input.path.is_empty() {
        source_of(&texts.schema)
    } else {
        source_of(&texts.input)
    }
}

/// Prints findings in a format; nothing in a line, which doesn't come from findings.
fn print_findings(
    rt: &HostRuntime,
    format: ErrorFormat,
    findings: &[Finding<'_>],
    texts: &Texts<'_>,
    message: Option<StreamMessage>,
) -> Result<(), AllocError> {
    let context = Context {
        input: refused_source(texts),
        message,
        columns: columns(rt),
    };
    match format {
        ErrorFormat::Line => {}
        ErrorFormat::Human => {
            let page = page_of(rt.alloc(), findings, context.columns)?;
            print_explanation(rt, page.as_str());
        }
        ErrorFormat::Short => {
            let lines = short_lines(rt.alloc(), findings, context.input.path)?;
            let _printed = eprint!(rt; "{lines}");
        }
        ErrorFormat::Json => {
            let lines = json_lines(rt.alloc(), findings, &context)?;
            let _printed = rt.stderr().write_all(lines.as_slice());
        }
    }
    Ok(())
}

fn show_refusal(
    rt: &HostRuntime,
    format: ErrorFormat,
    refusal: Refusal<'_>,
) -> Result<(), AllocError> {
    let findings = refusal_findings(rt, refusal)?;
    print_findings(
        rt,
        format,
        findings.as_slice(),
        refusal.texts,
        refusal.message,
    )
}

/// Reports a refusal in a format, and returns the status.
///
/// The format changes neither what is done nor the status. What findings take is got after what was refused. Without
/// memory for them the refusal's line is printed alone.
pub(crate) fn refuse(rt: &HostRuntime, format: ErrorFormat, refusal: Refusal<'_>) -> u8 {
    match format {
        ErrorFormat::Line => tell(rt, Err(refusal.fault)),
        ErrorFormat::Human => {
            let status = tell(rt, Err(refusal.fault));
            let _shown = show_refusal(rt, format, refusal);
            status
        }
        ErrorFormat::Short | ErrorFormat::Json => match show_refusal(rt, format, refusal) {
            Ok(()) => REFUSED,
            Err(_) => tell(rt, Err(refusal.fault)),
        },
    }
}

fn show_warnings(
    rt: &HostRuntime,
    format: ErrorFormat,
    texts: &Texts<'_>,
) -> Result<(), AllocError> {
    let old = source_of(&texts.schema);
    let new = source_of(&texts.input);
    let findings = warnings(rt.alloc(), old, new)?;
    print_findings(rt, format, findings.as_slice(), texts, None)
}

/// Prints what may still be meant otherwise where a schema conforms; nothing in a line, or where memory runs out.
pub(crate) fn warn(rt: &HostRuntime, format: ErrorFormat, texts: &Texts<'_>) {
    if format != ErrorFormat::Line {
        let _shown = show_warnings(rt, format, texts);
    }
}

/// Prints the number and name that a page begins with, and its first sentence.
fn print_title(rt: &HostRuntime, page: &str) -> io::Result<()> {
    let mut lines = page.lines();
    match (lines.next(), lines.next()) {
        (Some(title), Some(meaning)) => println!(rt; "{title}: {meaning}"),
        _ => Ok(()),
    }
}

/// Prints the numbers of all refusals, each with its name and a sentence, and returns the status.
pub(crate) fn list_numbers(rt: &HostRuntime) -> u8 {
    for number in 0..=u8::MAX {
        if let Some(page) = fault_page(number) {
            if print_title(rt, page).is_err() {
                return 1;
            }
        }
    }
    0
}

/// Whether a page is on the fault that a word calls by its number or, in any case, by its name.
fn is_page_of(number: u8, page: &str, word: &str) -> bool {
    if let Ok(asked) = word.parse::<u8>() {
        return asked == number;
    }
    let title = page.lines().next().unwrap_or("");
    match title.split_once(' ') {
        Some((_, name)) => name.eq_ignore_ascii_case(word),
        None => false,
    }
}

/// Prints what a number or a name of a refusal means, and returns the status. Several numbers may have one name.
pub(crate) fn explain_number(rt: &HostRuntime, word: &str) -> u8 {
    let mut is_known = false;
    for number in 0..=u8::MAX {
        let Some(page) = fault_page(number) else {
            continue;
        };
        if !is_page_of(number, page, word) {
            continue;
        }
        let printed = if is_known {
            println!(rt; "\n{page}")
        } else {
            println!(rt; "{page}")
        };
        if printed.is_err() {
            return 1;
        }
        is_known = true;
    }
    if is_known {
        return 0;
    }
    let _printed = eprint_usage(rt, NO_NUMBER);
    USAGE
}
