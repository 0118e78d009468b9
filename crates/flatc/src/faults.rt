//! Buffers as what is written, and the faults of files that failed.
use flatc_files::{Content, TakeFault, Texts};
use flatc_tool::{ToolFault, command};
use std::io::{self, ErrorKind, Write};

/// A buffer, to be written.
#[derive(Drop)]
pub(crate) struct BufferContent<'b>(pub(crate) &'b [u8]);

impl Content for BufferContent<'_> {
    fn write_to<W: Write>(&mut self, out: &mut W) -> io::Result<()> {
        out.write_all(self.0)
    }

    fn len(&self) -> Option<u64> {
        Some(self.0.len() as u64)
    }
}

/// The fault of a file that couldn't be read.
pub(crate) fn read_fault(fault: TakeFault) -> ToolFault {
    command::read_fault(fault)
}

/// The fault of a file that couldn't be written.
pub(crate) fn write_fault<'j>(
    rt: &HostRuntime,
    texts: &mut Texts<'j>,
    path: &'j str,
    error: &io::Error,
) -> ToolFault {
    if error.kind() == ErrorKind::OutOfMemory {
        return ToolFault::Memory;
    }
    texts.fail(rt, path, error);
    ToolFault::FileWrite
}
