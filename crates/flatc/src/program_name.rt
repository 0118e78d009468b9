//! The name by which the program was called, in texts that say how it is used.
use clap::Error;
use fb_explain_records::push_escaped;
use fb_findings::Note;
use std::alloc::{AllocError, Global};
use std::env::{Env, FillError};
use std::io;

/// The name that these texts are written with.
const NAME: &str = "flatc";

// In bytes. A longer path isn't read.
const LONGEST_PATH: usize = 1024;

// Of an argument that is too long to be shown.
const NOT_UTF8: &str = "error: invalid UTF-8 was detected in one or more arguments

Usage: flatc <COMMAND>

For more information, try '--help'.
";

/// What is before the name in a usage, which begins a line and may go on in more lines.
const IN_USAGE: &[&str] = &["\nUsage: ", "\n       "];

/// How clap's tip begins to pass an unknown option as a value. No command takes values that look like options.
const VALUE_TIP: &str = "\n\n  tip: to pass '";

/// What is before the name in a hint.
const IN_HINT: &[&str] = &[": "];

/// The last component of a path, or the usual name if that can't be printed as it is.
fn file_name(path: &str) -> &str {
    match path.rsplit('/').next() {
        Some(name) if !name.is_empty() && !name.chars().any(|c| c.is_control()) => name,
        _ => NAME,
    }
}

/// The name by which the program was called, or the usual one if it can't be read.
fn program_name<'b>(rt: &HostRuntime, room: &'b mut [u8]) -> &'b str {
    match rt.arg(0, room) {
        Ok(len) => room
            .get(..len)
            .and_then(|bytes| str::from_utf8(bytes).ok())
            .map_or(NAME, file_name),
        Err(_) => NAME,
    }
}

/// A text with the program's name in place of the usual one, after each of these.
fn with_program_name(rt: &HostRuntime, text: &str, before: &[&str]) -> Result<String, AllocError> {
    let alloc = rt.alloc();
    let mut room = [0u8; LONGEST_PATH];
    let name = program_name(rt, &mut room);
    let mut named = String::from_str(alloc, text)?;
    for before in before {
        let old = format!(in alloc; "{before}{NAME} ")?;
        let new = format!(in alloc; "{before}{name} ")?;
        named = named.replace(alloc, old.as_str(), new.as_str())?;
    }
    Ok(named)
}

/// A message of clap without the tip to pass an unknown option as a value.
fn without_value_tip(alloc: Global, message: &str) -> Result<String, AllocError> {
    let Some((before, tip)) = message.split_once(VALUE_TIP) else {
        return String::from_str(alloc, message);
    };
    let after = tip.find('\n').and_then(|end| tip.get(end..)).unwrap_or("");
    format!(in alloc; "{before}{after}")
}

/// A message of clap as it is printed.
fn printed_message(rt: &HostRuntime, error: &Error) -> Result<String, AllocError> {
    let message = format!(in rt.alloc(); "{error}")?;
    let message = without_value_tip(rt.alloc(), message.as_str())?;
    with_program_name(rt, message.as_str(), IN_USAGE)
}

/// Prints clap's message to the stream that it belongs on, under the program's name. Without memory for that it has the
/// usual one.
pub(crate) fn print_error(rt: &HostRuntime, error: &Error) -> io::Result<()> {
    match printed_message(rt, error) {
        Ok(message) if error.use_stderr() => eprint!(rt; "{message}"),
        Ok(message) => print!(rt; "{message}"),
        Err(_) => error.print(rt),
    }
}

/// Prints a text with a usage on standard error, under the program's name.
pub(crate) fn eprint_usage(rt: &HostRuntime, text: &str) -> io::Result<()> {
    match with_program_name(rt, text, IN_USAGE) {
        Ok(named) => eprint!(rt; "{named}"),
        Err(_) => eprint!(rt; "{text}"),
    }
}

/// The usage error about bytes that aren't UTF-8, the argument of this number.
fn bad_argument(rt: &HostRuntime, number: usize, bytes: &[u8]) -> Result<String, AllocError> {
    let mut note = Note::new(rt.alloc());
    note.push_shown(bytes);
    let argument = note.into_text()?;
    let mut text = format!(in rt.alloc(); "error: argument {number} isn't valid UTF-8: '")?;
    push_escaped(&mut text, argument.as_str())?;
    text.push_str("'\n\nUsage: flatc <COMMAND>\n\nFor more information, try '--help'.\n")?;
    Ok(text)
}

/// Prints which of the arguments is the first that isn't UTF-8, without the bytes of one that is longer than a path.
pub(crate) fn eprint_bad_argument(rt: &HostRuntime) -> io::Result<()> {
    let mut room = [0u8; LONGEST_PATH];
    for number in 1..usize::MAX {
        match rt.arg(number, &mut room) {
            Ok(len) => {
                let bytes = room.get(..len).unwrap_or(&[]);
                if str::from_utf8(bytes).is_err() {
                    return eprint_usage(rt, bad_argument(rt, number, bytes)?.as_str());
                }
            }
            Err(FillError::TooLong) => {}
            Err(FillError::NotPresent) => break,
        }
    }
    eprint_usage(rt, NOT_UTF8)
}

/// Prints a hint on standard error, under the program's name.
pub(crate) fn eprint_hint(rt: &HostRuntime, hint: &str) -> io::Result<()> {
    match with_program_name(rt, hint, IN_HINT) {
        Ok(named) => eprintln!(rt; "\nhint: {named}"),
        Err(_) => eprintln!(rt; "\nhint: {hint}"),
    }
}
