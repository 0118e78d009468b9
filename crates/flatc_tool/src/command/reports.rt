//! What the command reports of an answer.
ghost use Rattle.std.specs.Prelude.{◌≡◌, ◌≤◌, ◌<◌, ℕ, length, take, true, false, IfOk, IfErr};
ghost use Rattle.std.specs.Prelude.{if◌then◌else◌};
ghost use Rattle.std.specs.Io.KnownBytes.{Appends};
ghost use Rattle.fb_text.specs.Noted.{write_failed, writer_of, IsWrittenUnlessFailed};
ghost use Rattle.flatc_tool.specs.FaultLines.{line_of};
ghost use Rattle.flatc_tool.specs.LineBuffers.{text_of};
ghost use Rattle.flatc_tool.specs.Reports.{ended, IsTold, IsToldUnlessFailed};

use crate::command::line_buffer::LineBuffer;
use crate::command::lines::line_of;
use fb_faults::ToolFault;
use fb_text::Noted;
use std::alloc::Global;
use std::io::Write;

/// Writes a text from its first byte to its last, until a write fails or takes nothing; returns
/// whether all of it was written.
fn write_text<W: Write>(text: &str, out: &mut W) -> bool
    ensures all { result ≡ true → Appends (W.contents out.old) (W.contents out.new) text.now }
    ensures some { result ≡ false → (m : ℕ) × (m < length text.now)
        × Appends (W.contents out.old) (W.contents out.new) (take m text.now) }
{
    let bytes = text.as_bytes();
    let mut at = 0usize;
    while at < bytes.len() {
        match out.write(&bytes[at..]) {
            Ok(n) if n > 0 => at += n,
            _ => return false,
        }
    }
    true
}

/// The line of a fault with its line feed.
fn ended_line(fault: &ToolFault) -> LineBuffer
    ensures { text_of result ≡ ended (line_of fault.now) }
{
    let mut line = line_of(fault);
    line.push_str("\n");
    line
}

/// Writes the line of a fault.
fn write_line<E: Write>(fault: &ToolFault, err: &mut E)
    ensures { IsTold fault.now (E.contents err.old) (E.contents err.new) }
{
    let _all = write_text(ended_line(fault).as_str(), err);
}

/// The same to a writer that remembers whether its last write failed.
fn write_noted_line<E: Write>(fault: &ToolFault, err: &mut Noted<E>)
    requires { write_failed err.old ≡ false }
    ensures { IsToldUnlessFailed fault.now (write_failed err.new)
        (E.contents (writer_of err.old)) (E.contents (writer_of err.new)) }
{
    err.write_whole(ended_line(fault).as_str());
}

/// Writes the text to `out` and returns 0, or the line of the fault and a line feed to `err` and
/// returns 1. Where a write fails 1 is returned too.
pub fn report<O: Write, E: Write>(
    _alloc: Global,
    answer: Result<&str, ToolFault>,
    out: &mut O,
    err: &mut E,
) -> u8
    ensures status { result ≤ 1 }
    ensures refused { IfErr answer.entry (λ f. result ≡ 1) }
    ensures told { IfErr answer.entry (λ f. IsTold f (E.contents err.old) (E.contents err.new)) }
    ensures quiet { IfErr answer.entry (λ f. out.new ≡ out.old) }
    ensures written { IfOk answer.entry (λ text. result ≡ 0
        → Appends (O.contents out.old) (O.contents out.new) text.now) }
    ensures cut { IfOk answer.entry (λ text. result ≡ 1 → (m : ℕ) × (m < length text.now)
        × Appends (O.contents out.old) (O.contents out.new) (take m text.now)) }
    ensures calm { IfOk answer.entry (λ text. err.new ≡ err.old) }
{
    match answer {
        Ok(text) => if write_text(text, out) { 0 } else { 1 },
        Err(fault) => {
            write_line(&fault, err);
            1
        }
    }
}

/// Reports as `report` does, to writers that remember whether their last write failed.
///
/// A text or a line is cut only where a write failed or took none of its bytes; the status of a text is 1 exactly
/// there.
pub fn report_noted<O: Write, E: Write>(
    _alloc: Global,
    answer: Result<&str, ToolFault>,
    out: &mut Noted<O>,
    err: &mut Noted<E>,
) -> u8
    requires fresh_out { write_failed out.old ≡ false }
    requires fresh_err { write_failed err.old ≡ false }
    ensures refused { IfErr answer.entry (λ f. result ≡ 1) }
    ensures told { IfErr answer.entry (λ f. IsToldUnlessFailed f (write_failed err.new)
        (E.contents (writer_of err.old)) (E.contents (writer_of err.new))) }
    ensures quiet { IfErr answer.entry (λ f. out.new ≡ out.old) }
    ensures status { IfOk answer.entry (λ text. result ≡ (if write_failed out.new then 1 else 0)) }
    ensures written { IfOk answer.entry (λ text. IsWrittenUnlessFailed text.now (write_failed out.new)
        (O.contents (writer_of out.old)) (O.contents (writer_of out.new))) }
    ensures calm { IfOk answer.entry (λ text. err.new ≡ err.old) }
{
    match answer {
        Ok(text) => {
            out.write_whole(text);
            if out.failed() { 1 } else { 0 }
        }
        Err(fault) => {
            write_noted_line(&fault, err);
            1
        }
    }
}
