//! The messages of a stream, one by one: which bytes are the next one, and what is written of it.
ghost use Rattle.std.specs.Prelude.{◌≡◌, ◌⊎◌, IfErr, IfOk};
ghost use Rattle.json.specs.Word.{is_space};
ghost use Rattle.fb_faults.specs.declared.faults.ToolFault.TheVariants.{Memory};
ghost use Rattle.flatc_files.specs.Windows.{is_ended, pending};
ghost use Rattle.flatc_jobs.specs.Messages.{IsLineOf, IsNext, IsOutcome, IsOutput, MayBeOutput, NextBuffer};
ghost use Rattle.flatc_jobs.specs.Messages.{NextLine, OutputRefused, is_blank};
ghost use Rattle.flatc_tool.specs.Jobs.{IsNotMemory, IsText, MayBeText, TextRefused};

use crate::flags::Flags;
use crate::verdicts::verified;
use fb_value::ReadFault;
use flatc_cli::{Form, Verb};
use flatc_files::Window;
use flatc_tool::{DecodeOptions, Layout, ToolFault, decode, encode, split_prefixed};
use std::alloc::Global;

/// What comes next in a stream.
#[derive(Drop)]
pub(crate) enum Next {
    /// A message of this length, all of which was read.
    Message(usize),
    /// More of it is to be read.
    Unread,
    /// The stream has ended.
    End,
    /// The stream has ended inside a message, or inside its size prefix.
    Cut(ReadFault),
}

/// What comes of the next message.
#[derive(Drop)]
pub enum Outcome {
    /// What is written of the message, which is taken.
    Output(Vec<u8>),
    /// The message of this length is refused. It isn't taken, so it can be quoted.
    Refused(usize, ToolFault),
    /// The stream has ended inside a message, or inside its size prefix.
    Cut(ReadFault),
    /// More of the message is to be read.
    Unread,
    /// The stream has ended.
    End,
}

/// The next JSON text: a line with its line feed, which the last one may lack.
fn next_line(window: &mut Window) -> Next
    ensures next { NextLine (pending window.old) (is_ended window.old) result }
    ensures kept { pending window.new ≡ pending window.old }
    ensures ended { is_ended window.new ≡ is_ended window.old }
{
    match window.line_len() {
        Some(len) => Next::Message(len),
        None if !window.is_ended() => Next::Unread,
        None if window.bytes().is_empty() => Next::End,
        None => Next::Message(window.bytes().len()),
    }
}

/// The next size-prefixed buffer, its size prefix included.
fn next_buffer(bytes: &[u8], is_ended: bool) -> Next
    ensures { NextBuffer bytes.now is_ended result }
{
    match split_prefixed(bytes) {
        Ok(Some((message, _))) => Next::Message(message.len()),
        Ok(None) if !is_ended => Next::Unread,
        Err(_) if !is_ended => Next::Unread,
        Err(fault) if !bytes.is_empty() => Next::Cut(fault),
        Ok(None) | Err(_) => Next::End,
    }
}

/// The next message of a stream for a verb.
fn next_message(verb: Verb, window: &mut Window) -> Next
    ensures next { IsNext verb (pending window.old) (is_ended window.old) result }
    ensures kept { pending window.new ≡ pending window.old }
    ensures ended { is_ended window.new ≡ is_ended window.old }
{
    match verb {
        Verb::Binary { .. } => next_line(window),
        Verb::Json { .. } | Verb::Check { .. } => next_buffer(window.bytes(), window.is_ended()),
    }
}

fn is_space(byte: u8) -> bool
    ensures { result ≡ is_space byte }
{
    matches!(byte, b' ' | b'\t' | b'\n' | b'\r')
}

/// Whether a line has nothing but blanks, of which a carriage return is one.
fn is_blank(line: &[u8]) -> bool
    ensures { result ≡ is_blank line.now }
{
    line.iter().all(|byte| is_space(*byte))
}

/// A buffer as a line of JSON.
fn line_of(
    alloc: Global,
    layout: &Layout,
    message: &[u8],
    options: &DecodeOptions,
) -> Result<Vec<u8>, ToolFault>
    ensures line { IfOk result (λ line. IsLineOf (IsText options.now.compact options.now.size_prefixed layout.now
        message.now options.now.limits options.now.raw_binary options.now.defaults_json) line.items) }
    ensures refused { IfErr result (λ f. TextRefused options.now.size_prefixed layout.now message.now
        options.now.limits options.now.raw_binary f ⊎ ((f ≡ Memory) × MayBeText options.now.size_prefixed layout.now
        message.now options.now.limits options.now.raw_binary)) }
    ensures exact { IfErr result (λ f. IsNotMemory f → ¬ MayBeText options.now.size_prefixed layout.now message.now
        options.now.limits options.now.raw_binary) }
{
    let text = decode(alloc, layout, message, options)?;
    let mut line = text.into_bytes();
    line.push(b'\n').map_err(|_| ToolFault::Memory)?;
    Ok(line)
}

/// What is written of a message; nothing where it is checked, or is a blank line.
fn output_of(
    alloc: Global,
    layout: &Layout,
    verb: Verb,
    form: Form,
    message: &[u8],
) -> Result<Vec<u8>, ToolFault>
    ensures output { IfOk result (λ out. IsOutput verb form layout.now message.now out.items) }
    ensures refused { IfErr result (OutputRefused verb form layout.now message.now) }
    ensures exact { IfErr result (λ f. IsNotMemory f → ¬ MayBeOutput verb form layout.now message.now) }
{
    let flags = Flags::of(verb, form);
    match verb {
        Verb::Binary { .. } if is_blank(message) => Ok(Vec::new(alloc)),
        Verb::Binary { .. } => encode(alloc, layout, message, &flags.encode_options()),
        Verb::Json { .. } => line_of(alloc, layout, message, &flags.decode_options()),
        Verb::Check { .. } => {
            verified(layout, message, flags)?;
            Ok(Vec::new(alloc))
        }
    }
}

/// What comes of the next message of a stream. It is taken from the window once there is what is written of it.
pub fn next_output(
    alloc: Global,
    layout: &Layout,
    verb: Verb,
    form: Form,
    window: &mut Window,
) -> Outcome
    ensures outcome { IsOutcome verb form layout.now (pending window.old) (is_ended window.old) (pending window.new)
        result }
    ensures ended { is_ended window.new ≡ is_ended window.old }
{
    let len = match next_message(verb, window) {
        Next::Message(len) => len,
        Next::Unread => return Outcome::Unread,
        Next::End => return Outcome::End,
        Next::Cut(fault) => return Outcome::Cut(fault),
    };
    match output_of(alloc, layout, verb, form, window.first(len)) {
        Ok(output) => {
            window.take(len);
            Outcome::Output(output)
        }
        Err(fault) => Outcome::Refused(len, fault),
    }
}
