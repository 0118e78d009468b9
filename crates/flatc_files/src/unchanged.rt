//! Whether a file already holds what is to be written to it.
use crate::outputs::Content;
use std::fs::{self, File};
use std::io::{self, BufRead, BufReader, Write};
use std::time::SystemTime;

/// A writer that takes only the bytes that are there already, in their order.
#[derive(Drop)]
struct ComparingWriter<R> {
    held: R,
}

impl<R: BufRead> Write for ComparingWriter<R> {
    fn write(&mut self, buf: &[u8]) -> io::Result<usize> {
        let held = self.held.fill_buf()?;
        let count = held.len().min(buf.len());
        if held[..count] != buf[..count] {
            return Err(io::Error::other("another byte is there"));
        }
        self.held.consume(count);
        Ok(count)
    }

    fn flush(&mut self) -> io::Result<()> {
        Ok(())
    }
}

/// Whether a file begins with a content; false too where the file can't be read.
pub(crate) fn holds<C: Content>(rt: &HostRuntime, path: &str, content: &mut C) -> io::Result<bool> {
    let Ok(file) = fs::open(rt, path) else {
        return Ok(false);
    };
    let held = BufReader::new(rt.alloc(), file)?;
    Ok(content.write_to(&mut ComparingWriter { held }).is_ok())
}

/// Sets the time when a file was modified to now, as a write does; returns whether that is done.
pub(crate) fn touch(rt: &HostRuntime, file: &File) -> bool {
    SystemTime::now(rt).is_ok_and(|now| file.set_modified(now).is_ok())
}
