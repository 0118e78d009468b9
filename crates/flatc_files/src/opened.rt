//! What a path is read from: a file, or standard input as it was given.
use crate::standard_paths::is_standard_input;
use std::fs::{self, File, Metadata};
use std::io::{self, Read, Stdin};

const STANDARD: &str = "/dev/fd/0";

/// What a path is read from.
#[derive(Drop)]
pub(crate) enum Opened {
    File(File),
    /// The stream that the process has: it isn't opened anew.
    Standard(Stdin),
}

impl Opened {
    pub(crate) fn open(rt: &HostRuntime, path: &str) -> io::Result<Opened> {
        if is_standard_input(path) {
            return Ok(Opened::Standard(rt.stdin()));
        }
        Ok(Opened::File(fs::open(rt, path)?))
    }
}

impl Read for Opened {
    fn read(&mut self, buf: &mut [u8]) -> io::Result<usize> {
        match self {
            Opened::File(file) => file.read(buf),
            Opened::Standard(stream) => stream.read(buf),
        }
    }
}

/// The name under which the system has what a path is read from.
fn name_of(path: &str) -> &str {
    if is_standard_input(path) {
        STANDARD
    } else {
        path
    }
}

/// What is known of the file that a path is read from.
pub(crate) fn metadata_of(rt: &HostRuntime, path: &str) -> io::Result<Metadata> {
    fs::metadata(rt, name_of(path))
}
