//! Where an output is written to: never over an input, and a regular file never half.
ghost use Rattle.std.specs.Prelude.{◌≢◌, IfErr};
ghost use Rattle.std.specs.IoError.{error_kind};

use crate::opened::metadata_of;
use crate::standard_paths::is_standard_output;
use crate::targets::Target;
use crate::unchanged::{holds, touch};
use std::alloc::Global;
use std::fs::{self, File, Metadata, OpenOptions, Permissions};
use std::io::{self, ErrorKind, Write};
use std::os::unix::fs::{MetadataExt, OpenOptionsExt, PermissionsExt, chown};
use std::path::{Path, PathBuf};
use std::process;

/// What is written to an output.
pub trait Content {
    /// Writes all of it, many bytes at once. After an error some of its first bytes may have been written.
    fn write_to<W: Write>(&mut self, out: &mut W) -> io::Result<()>;

    /// How many bytes it has, where that is known before they are written.
    fn len(&self) -> Option<u64>;
}

// What only its owner may read, until it has the mode of the file that it replaces.
const PRIVATE: u32 = 0o600;

// What the process's mask leaves of this is the mode of a new file.
const USUAL: u32 = 0o666;

const PERMISSION_BITS: u32 = 0o777;

// How many names are tried for a file beside another.
const NAMES: u32 = 1000;

fn refused_input() -> io::Error {
    io::Error::other("it is one of the inputs, which are never written over")
}

fn refused_text() -> io::Error {
    io::Error::other("it is there, and a file named .json or .fbs is never written over")
}

// As much of a message as an error keeps.
const MOST_SAID: usize = 80;

/// The folder in which a path's file is.
fn folder_of(path: &str) -> &str {
    match path.rsplit_once('/') {
        Some(("", _)) => "/",
        Some((folder, _)) => folder,
        None => ".",
    }
}

/// The error of a file that can't be made, with the folder, where a message has room for both.
fn in_folder(alloc: Global, path: &str, error: io::Error) -> io::Error {
    let folder = folder_of(path);
    match format!(in alloc; "no file can be made in '{folder}': {error}") {
        Ok(said) if said.len() <= MOST_SAID => io::Error::new(error.kind(), said.as_str()),
        _ => error,
    }
}

/// Whether a path leads to a file.
fn leads_to(rt: &HostRuntime, path: &str, file: &Metadata) -> bool {
    metadata_of(rt, path).is_ok_and(|found| found.dev() == file.dev() && found.ino() == file.ino())
}

fn is_named_as_text(path: &str) -> bool {
    path.as_bytes().ends_with(b".json") || path.as_bytes().ends_with(b".fbs")
}

/// Whether a path leads to a file that is one of the inputs.
fn is_an_input(rt: &HostRuntime, out: &str, inputs: [&str; 2]) -> bool {
    let [schema, json] = inputs;
    match fs::metadata(rt, out) {
        Ok(found) if found.is_file() => {
            leads_to(rt, schema, &found) || leads_to(rt, json, &found)
        }
        _ => false,
    }
}

/// A new file in the folder of another, with its path.
fn create_beside(rt: &HostRuntime, out: &str, mode: u32) -> io::Result<(PathBuf, File)> {
    let id = process::id(rt.process());
    for n in 0..NAMES {
        let name = format!(in rt.alloc(); ".flatc-{id:010}-{n}.tmp")?;
        let path = Path::new(out).with_file_name(rt.alloc(), name.as_str())?;
        let mut options = OpenOptions::new();
        options.write(true).create_new(true).mode(mode);
        match options.open(rt, path.as_str()) {
            Ok(file) => return Ok((path, file)),
            Err(error) if error.kind() == ErrorKind::AlreadyExists => {}
            Err(error) => return Err(in_folder(rt.alloc(), out, error)),
        }
    }
    Err(io::Error::from(ErrorKind::AlreadyExists))
}

/// Gives a new file the mode of another, and its owner where that is allowed.
fn take_over(rt: &HostRuntime, file: &File, path: &str, old: &Metadata) -> io::Result<()> {
    let new = file.metadata()?;
    if (new.uid(), new.gid()) != (old.uid(), old.gid()) {
        let _owner = chown(rt, path, Some(old.uid()), Some(old.gid()));
    }
    file.set_permissions(Permissions::from_mode(old.mode() & PERMISSION_BITS))
}

fn fill_and_rename<C: Content>(
    rt: &HostRuntime,
    path: &str,
    mut file: File,
    out: &str,
    content: &mut C,
    old: Option<&Metadata>,
) -> io::Result<()> {
    content.write_to(&mut file)?;
    if let Some(old) = old {
        take_over(rt, &file, path, old)?;
    }
    fs::rename(rt, path, out)
}

/// Writes to a file beside `out`, and renames it, so that a failure leaves `out` as it was.
fn replace<C: Content>(
    rt: &HostRuntime,
    out: &str,
    content: &mut C,
    old: Option<&Metadata>,
) -> io::Result<()> {
    let mode = if old.is_some() { PRIVATE } else { USUAL };
    let (path, file) = create_beside(rt, out, mode)?;
    let done = fill_and_rename(rt, path.as_str(), file, out, content, old);
    if done.is_err() {
        let _gone = fs::remove_file(rt, path.as_str());
    }
    done
}

/// What is at `out`; none where nothing is.
fn found_at(rt: &HostRuntime, out: &str) -> io::Result<Option<Metadata>>
    ensures { IfErr result (λ e. error_kind e ≢ ErrorKind.NotFound) }
{
    match fs::symlink_metadata(rt, out) {
        Ok(old) => Ok(Some(old)),
        Err(error) if error.kind() == ErrorKind::NotFound => Ok(None),
        Err(error) => Err(error),
    }
}

/// Whether a regular file needs no other bytes. One of several names is replaced all the same, since the others keep
/// the old file.
fn is_unchanged<C: Content>(
    rt: &HostRuntime,
    out: &str,
    content: &mut C,
    old: &Metadata,
) -> io::Result<bool> {
    if old.nlink() != 1 || content.len() != Some(old.len()) {
        return Ok(false);
    }
    holds(rt, out, content)
}

/// Writes to `out`, where `old` is what is there.
fn write_over<C: Content>(
    rt: &HostRuntime,
    out: &str,
    content: &mut C,
    old: &Metadata,
) -> io::Result<()> {
    if !old.is_file() {
        return content.write_to(&mut File::create(rt, out)?);
    }
    // A file that may not be written isn't replaced either.
    let file = OpenOptions::new().write(true).open(rt, out)?;
    if is_unchanged(rt, out, content, old)? && touch(rt, &file) {
        return Ok(());
    }
    replace(rt, out, content, Some(old))
}

/// Writes to `out`: a regular file is replaced whole or left as it was; what else is there, as a
/// device, a pipe or a link, is written directly.
pub fn write_file<C: Content>(
    rt: &HostRuntime,
    target: &Target,
    content: &mut C,
) -> io::Result<()> {
    let out = target.path.as_str();
    if target.is_new {
        return replace(rt, out, content, None);
    }
    match found_at(rt, out)? {
        Some(old) => write_over(rt, out, content, &old),
        None => replace(rt, out, content, None),
    }
}

/// Writes to standard output, as it was given.
fn write_standard<C: Content>(
    rt: &HostRuntime,
    content: &mut C,
    inputs: [&str; 2],
) -> io::Result<()> {
    if is_an_input(rt, "/dev/fd/1", inputs) {
        return Err(refused_input());
    }
    content.write_to(&mut rt.stdout())
}

/// Writes to `out`, as `write_file` does, or to standard output.
///
/// It is an error where that fails, where `out` is one of the inputs, and where it is there and its
/// name ends in `.json` or `.fbs`.
pub fn write_out<C: Content>(
    rt: &HostRuntime,
    out: &str,
    content: &mut C,
    inputs: [&str; 2],
) -> io::Result<()> {
    if is_standard_output(out) {
        return write_standard(rt, content, inputs);
    }
    let Some(old) = found_at(rt, out)? else {
        return replace(rt, out, content, None);
    };
    if is_an_input(rt, out, inputs) {
        return Err(refused_input());
    }
    if is_named_as_text(out) {
        return Err(refused_text());
    }
    write_over(rt, out, content, &old)
}
