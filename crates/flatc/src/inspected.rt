//! What is printed of the bytes of a buffer.
use crate::explained::{Refusal, refuse};
use crate::faults::read_fault;
use crate::{layout_of, read_both};
use fb_inspect::{Listing, header_lines};
use flatc_cli::{ErrorFormat, Inspection};
use flatc_files::{Reasoned, Texts};
use flatc_jobs::{Flags, limits};
use flatc_tool::{Layout, ReadFault, ToolFault, WriteFault};
use std::io::Write;

// How many bytes of lines are written at once.
const AT_ONCE: usize = 65536;

/// Writes bytes, and adds how many were written; returns whether that were all.
fn send<W: Write>(out: &mut W, bytes: &[u8], written: &mut u64) -> bool {
    let mut left = bytes;
    for _ in 0..bytes.len() {
        if left.is_empty() {
            return true;
        }
        match out.write(left) {
            Ok(count @ 1..) => {
                *written = written.saturating_add(count as u64);
                left = left.get(count..).unwrap_or(&[]);
            }
            _ => return false,
        }
    }
    left.is_empty()
}

/// Prints all lines of a listing.
fn print_lines<W: Write>(
    rt: &HostRuntime,
    listing: &mut Listing<'_>,
    out: &mut W,
) -> Result<(), ToolFault> {
    let mut lines = String::new(rt.alloc());
    let mut written = 0;
    for _ in 0..u64::MAX {
        let next = listing.next_lines().map_err(|_| ToolFault::Memory)?;
        let is_last = next.is_none();
        if let Some(text) = next
            && lines.push_str(text.as_str()).is_err()
        {
            return Err(ToolFault::Memory);
        }
        if is_last || lines.len() >= AT_ONCE {
            if !send(out, lines.as_bytes(), &mut written) {
                return Err(ToolFault::Write(WriteFault::WriteFailed(written)));
            }
            lines.clear();
        }
        if is_last {
            return Ok(());
        }
    }
    Ok(())
}

/// Prints what bytes are up to their fault, which is returned if they have one.
fn print_listing<W: Write>(
    rt: &HostRuntime,
    layout: &Layout,
    bytes: &[u8],
    flags: Flags,
    out: &mut W,
) -> Result<Option<ReadFault>, ToolFault> {
    let raw = flags.raw_binary;
    let prefixed = flags.form.size_prefixed;
    let mut listing = Listing::of(rt.alloc(), layout, bytes, limits(), raw, prefixed).map_err(
        |_| ToolFault::Memory,
    )?;
    print_lines(rt, &mut listing, out)?;
    Ok(listing.fault())
}

/// Prints what the bytes of the input are, and returns their fault after the lines.
fn print_input(
    rt: &HostRuntime,
    layout: &Layout,
    texts: &mut Texts<'_>,
    flags: Flags,
) -> Result<(), ToolFault> {
    let bytes = texts.input.bytes.as_slice();
    let mut out = Reasoned::over(rt.stdout());
    let printed = print_listing(rt, layout, bytes, flags, &mut out);
    if let Some(error) = out.into_reason() {
        texts.fail(rt, "standard output", &error);
    }
    match printed? {
        Some(fault) => Err(ToolFault::Read(fault)),
        None => Ok(()),
    }
}

/// Prints what the bytes of a buffer are under a schema, line by line.
///
/// A damaged buffer is listed up to its fault, which is returned.
fn inspect_file<'j>(
    rt: &HostRuntime,
    texts: &mut Texts<'j>,
    paths: [&'j str; 2],
    flags: Flags,
) -> Result<(), ToolFault> {
    read_both(rt, texts, paths)?;
    let layout = layout_of(rt, texts)?;
    print_input(rt, &layout, texts, flags)
}

/// Prints a text on standard output.
pub(crate) fn print_text(
    rt: &HostRuntime,
    texts: &mut Texts<'_>,
    text: &str,
) -> Result<(), ToolFault> {
    let mut out = Reasoned::over(rt.stdout());
    let mut written = 0;
    let is_sent = send(&mut out, text.as_bytes(), &mut written);
    if let Some(error) = out.into_reason() {
        texts.fail(rt, "standard output", &error);
    }
    if is_sent {
        Ok(())
    } else {
        Err(ToolFault::Write(WriteFault::WriteFailed(written)))
    }
}

/// Prints what the header of a file says, without a schema.
fn inspect_header<'j>(
    rt: &HostRuntime,
    texts: &mut Texts<'j>,
    path: &'j str,
) -> Result<(), ToolFault> {
    texts.read_input(rt, path).map_err(read_fault)?;
    let lines = header_lines(rt.alloc(), texts.input.bytes.as_slice()).map_err(
        |_| ToolFault::Memory,
    )?;
    print_text(rt, texts, lines.as_str())
}

/// Shows what the bytes of a buffer are, and returns the status.
pub(crate) fn inspect(rt: &HostRuntime, inspection: &Inspection, format: ErrorFormat) -> u8 {
    let flags = Flags::of_inspection(inspection);
    let mut texts = Texts::new(rt);
    let answer = match inspection {
        Inspection::Bytes { schema, bin, .. } => inspect_file(
            rt,
            &mut texts,
            [schema.as_str(), bin.as_str()],
            flags,
        ),
        Inspection::Header { bin } => inspect_header(rt, &mut texts, bin.as_str()),
    };
    match answer {
        Ok(()) => 0,
        Err(fault) => refuse(rt, format, Refusal::of_files(fault, flags, &texts)),
    }
}
