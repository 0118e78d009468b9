//! Readers that are read to their end.
use flatc_tool::ToolFault;
use flatc_tool::command::{Heard, take_all};
use std::alloc::Global;
use std::io;
use std::io::{ErrorKind, Read};

/// A reader that gives its bytes, and then fails or ends.
#[derive(Drop)]
struct FailingReader<'b> {
    left: &'b [u8],
    fails: bool,
}

impl Read for FailingReader<'_> {
    fn read(&mut self, buf: &mut [u8]) -> io::Result<usize> {
        if self.left.is_empty() && self.fails {
            return Err(io::Error::from(ErrorKind::BrokenPipe));
        }
        self.left.read(buf)
    }
}

/// Readers of which three bytes are taken at most: their bytes, whether they fail after them, and the fault's number,
/// 0 where all bytes are taken.
const READERS: &[(&[u8], bool, u8)] = &[
    (b"abc", false, 0),
    (b"abcd", false, 112),
    (b"ab", true, 110),
];

fn number_of(alloc: Global, left: &[u8], fails: bool) -> u8 {
    let mut from = Heard::over(FailingReader { left, fails });
    let number = match take_all(alloc, &mut from, 3) {
        Ok(taken) => if taken.as_slice() == left { 0 } else { 1 },
        Err(fault) => fault.number(),
    };
    if from.failed() == fails { number } else { 1 }
}

#[test]
fn as_many_bytes_as_may_come(rt: HostRuntime) {
    for (bytes, fails, number) in READERS {
        assert!(rt; number_of(rt.alloc(), bytes, *fails) == *number);
    }
}
