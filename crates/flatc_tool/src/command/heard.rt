//! All the bytes of a reader, with a fault of the tool where they can't be had.
ghost use Rattle.std.specs.Prelude.{◌≡◌, ◌↔◌, ◌<◌, ◌≤◌, length, false, IsTrue, IfOk, IfErr, IfSome, IsErrOf};
ghost use Rattle.fb_heard.specs.Heard.{read_failed, reader_of};
ghost use Rattle.flatc_tool.specs.FileFaults.{fault_of, IsOfReading};
ghost use Rattle.fb_faults.specs.declared.faults.ToolFault.TheVariants.{FileRead, FileTooLong};

use fb_faults::ToolFault;
use fb_heard::{Heard, TakeFault};
use std::alloc::Global;
use std::io::Read;

/// The fault of a file that can't be read.
pub fn read_fault(fault: TakeFault) -> ToolFault
    ensures { result ≡ fault_of fault }
{
    match fault {
        TakeFault::Failed(_) => ToolFault::FileRead,
        TakeFault::TooLong => ToolFault::FileTooLong,
        TakeFault::Memory => ToolFault::Memory,
    }
}

/// All bytes of a reader, at most `most` of them.
///
/// `FileRead` is returned at the first read that fails, `FileTooLong` where a byte past `most` came,
/// and `Memory` where the bytes can't be kept.
pub fn take_all<R: Read>(
    alloc: Global,
    from: &mut Heard<R>,
    most: u32,
) -> Result<Vec<u8>, ToolFault>
    requires fresh { read_failed from.old ≡ false }
    ensures short { IfOk result (λ v. length v.items ≤ most) }
    ensures whole { IfOk result (λ v. IfSome (R.remaining (reader_of from.old)) (λ xs. v.items ≡ xs)) }
    ensures long { IsErrOf result FileTooLong
        → IfSome (R.remaining (reader_of from.old)) (λ xs. most < length xs) }
    ensures failed { IsErrOf result FileRead ↔ IsTrue (read_failed from.new) }
    ensures faults { IfErr result IsOfReading }
{
    match fb_heard::take_all(alloc, from, most) {
        Ok(bytes) => Ok(bytes),
        Err(fault) => Err(read_fault(fault)),
    }
}
