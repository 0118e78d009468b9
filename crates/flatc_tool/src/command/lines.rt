//! The line of a fault.
ghost use Rattle.std.specs.Prelude.{◌≡◌, ◌≤◌, ◌<◌, ◌+◌, ◌++◌, IfOk, codes, decimal, length, string_bytes};
ghost use Rattle.fb_faults.specs.FaultTable.{name_of, number_of};
ghost use Rattle.flatc_tool.specs.FaultLines.{line_of, noted, side_of};
ghost use Rattle.flatc_tool.specs.LineBuffers.{text_of};
ghost use Rattle.flatc_tool.specs.declared.command.line_buffer.TheConstants.{CAPACITY};

use crate::command::line_buffer::LineBuffer;
use fb_faults::ToolFault;
use itoa::Buffer;
use std::alloc::{AllocError, Global};

/// Adds a word and a number, where there is one.
fn push_noted(line: &mut LineBuffer, word: &str, number: Option<u64>)
    requires room { length (text_of line.old) + length word.now + 20 ≤ CAPACITY }
    ensures added { text_of line.new ≡ text_of line.old ++ noted word.now number }
    ensures short { length (text_of line.new) ≤ length (text_of line.old) + length word.now + 20 }
{
    if let Some(number) = number {
        line.push_str(word);
        line.push_str(Buffer::new().format(number));
    }
}

/// Which of two schemas is refused.
fn side_of(fault: &ToolFault) -> &'static str
    ensures side { result.now ≡ side_of fault.now }
    ensures short { length result.now ≤ 5 }
{
    match fault {
        ToolFault::Older(_) => "old: ",
        ToolFault::Newer(_) => "new: ",
        _ => "",
    }
}

/// The begin of a fault's line: which of two schemas is refused, its number and its name.
#[tactic(auto, using(crate::proofs::command::lines::NamesAreShort::name_is_short))]
fn headline(fault: &ToolFault) -> LineBuffer
    ensures spelled { text_of result ≡ side_of fault.now ++ decimal (number_of fault.now)
        ++ codes " " ++ name_of fault.now }
    ensures short { length (text_of result) ≤ 49 }
{
    let mut line = LineBuffer::new();
    line.push_str(side_of(fault));
    line.push_str(Buffer::new().format(fault.number()));
    line.push_str(" ");
    line.push_str(fault.name());
    line
}

/// The line of a fault without a line feed, for which there is room.
pub(crate) fn line_of(fault: &ToolFault) -> LineBuffer
    ensures spelled { text_of result ≡ line_of fault.now }
    ensures room { length (text_of result) < CAPACITY }
{
    let mut line = headline(fault);
    push_noted(&mut line, " at ", fault.offset());
    push_noted(&mut line, " in type ", fault.owner().map(|owner| owner.0));
    push_noted(&mut line, " slot ", fault.slot().map(u64::from));
    push_noted(&mut line, " after ", fault.written());
    line
}

/// The line that reports a fault, without a newline: its number and name, and what it has of an offset
/// in bytes, a type, a slot, and a count of bytes that were written.
pub fn fault_line(alloc: Global, fault: &ToolFault) -> Result<String, AllocError>
    ensures { IfOk result (λ s. string_bytes s ≡ line_of fault.now) }
{
    String::from_str(alloc, line_of(fault).as_str())
}
