//! What the terminal and the environment say of explanations.
use fb_explain::COLUMNS;
use fb_explain_records::push_escaped;
use flatc_cli::ErrorFormat;
use std::alloc::AllocError;
use std::env::{self, Env, FillError};
use std::io::IsTerminal;

/// The variable with the error format of lines that have none.
const FORMAT: &str = "FLATC_ERROR_FORMAT";

// In bytes. A longer value names no format, and isn't shown.
const LONGEST_VALUE: usize = 64;

/// The line about a value that names no format.
fn unknown_format(rt: &HostRuntime, value: &str) -> Result<String, AllocError> {
    let mut line = format!(in rt.alloc(); "warning: {FORMAT} is '")?;
    push_escaped(&mut line, value)?;
    line.push_str("', not line, human, short or json; it is ignored")?;
    Ok(line)
}

/// The format that a value names; none, and a line about it, where it names none.
fn format_in(rt: &HostRuntime, value: &str) -> Option<ErrorFormat> {
    let format = ErrorFormat::named(value);
    if format.is_none()
        && let Ok(line) = unknown_format(rt, value)
    {
        let _printed = eprintln!(rt; "{line}");
    }
    format
}

/// The format that is exported; an empty value is none. It is read without memory, which no run is to need for it.
fn exported_format(rt: &HostRuntime) -> Option<ErrorFormat> {
    let mut room = [0u8; LONGEST_VALUE];
    let value = match rt.var(FORMAT, &mut room) {
        Ok(len) => str::from_utf8(room.get(..len).unwrap_or(&[])).ok(),
        Err(FillError::TooLong) => None,
        Err(FillError::NotPresent) => return None,
    };
    match value {
        Some("") => None,
        Some(value) => format_in(rt, value),
        None => {
            let _printed = eprintln!(rt;
                "warning: {FORMAT} isn't line, human, short or json; it is ignored"
            );
            None
        }
    }
}

/// How refusals are shown: as the line asks, else as is exported, else explained at a terminal.
pub(crate) fn error_format(rt: &HostRuntime, asked: Option<ErrorFormat>) -> ErrorFormat {
    if let Some(format) = asked {
        return format;
    }
    match exported_format(rt) {
        Some(format) => format,
        None if rt.stderr().is_terminal() => ErrorFormat::Human,
        None => ErrorFormat::Line,
    }
}

/// How many columns an explanation takes at most: COLUMNS, where that is exported and less than 120.
pub(crate) fn columns(rt: &HostRuntime) -> usize {
    env::var(rt, "COLUMNS")
        .ok()
        .and_then(|text| text.parse::<usize>().ok())
        .unwrap_or(COLUMNS)
}

/// Whether a variable is exported and not empty.
fn is_set(rt: &HostRuntime, name: &str) -> bool {
    env::var(rt, name).is_ok_and(|text| !text.is_empty())
}

fn is_dumb(rt: &HostRuntime) -> bool {
    env::var(rt, "TERM").is_ok_and(|text| text.as_str() == "dumb")
}

/// Whether an explanation has colours: at a terminal that has them, unless NO_COLOR forbids it.
fn has_colours(rt: &HostRuntime) -> bool {
    rt.stderr().is_terminal() && !is_set(rt, "NO_COLOR") && !is_dumb(rt)
}

fn is_number(word: Option<&str>) -> bool {
    word.is_some_and(|word| !word.is_empty() && word.bytes().all(|byte| byte.is_ascii_digit()))
}

/// Whether a text ends in `:line:column`.
fn ends_in_position(text: &str) -> bool {
    let mut words = text.rsplit(':');
    is_number(words.next()) && is_number(words.next()) && words.next().is_some()
}

/// The length of the place that a line begins with: `path:line:column`.
fn place_len(line: &str) -> Option<usize> {
    line.match_indices(": ")
        .map(|(at, _)| at)
        .find(|at| line.get(..*at).is_some_and(ends_in_position))
}

/// The caret that marks a place in the line before, and what is before the caret.
fn caret_in(line: &str) -> Option<(&str, &str)> {
    match line.rsplit_once(' ') {
        Some((front, caret)) if matches!(caret, "^" | "^^") && front.trim() == "|" => {
            Some((front, caret))
        }
        _ => None,
    }
}

/// Prints a line: a place bold, and the caret below a line red.
fn print_coloured(rt: &HostRuntime, line: &str) {
    if let Some((front, caret)) = caret_in(line) {
        let _printed = eprintln!(rt; "{front} \u{1b}[1;31m{caret}\u{1b}[0m");
        return;
    }
    let _printed = match place_len(line) {
        Some(len) if !line.starts_with(' ') => {
            let place = line.get(..len).unwrap_or("");
            let rest = line.get(len..).unwrap_or("");
            eprintln!(rt; "\u{1b}[1m{place}\u{1b}[0m{rest}")
        }
        _ => eprintln!(rt; "{line}"),
    };
}

/// Prints an explanation.
pub(crate) fn print_explanation(rt: &HostRuntime, text: &str) {
    if has_colours(rt) {
        for line in text.lines() {
            print_coloured(rt, line);
        }
    } else {
        let _printed = eprint!(rt; "{text}");
    }
}
