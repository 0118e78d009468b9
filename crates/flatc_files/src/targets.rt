//! The files of a directory that outputs are written to.
ghost use Rattle.std.specs.Prelude.{◌≡◌, All, IfOk, OnOk, false, map};
ghost use Rattle.std.specs.Path.{path_buf_bytes};
ghost use Rattle.flatc_files.specs.Targets.{AreApart, AreDistinct, has_path, inputs_of, outputs_of};

use crate::opened::metadata_of;
use crate::standard_paths::is_standard_input;
use crate::target_paths::targets_in;
use std::alloc::{AllocError, AllocFailed, Global};
use std::collections::BTreeSet;
use std::fs::{self, Metadata};
use std::io::ErrorKind;
use std::os::unix::fs::MetadataExt;
use std::path::PathBuf;

/// Why the outputs of a line's inputs are refused.
#[derive(Debug, PartialEq, Eq, Drop)]
pub enum TargetMisuse {
    /// Memory ran out.
    Memory,
    /// The sentence of a usage error.
    Said(String),
}

impl From<AllocError> for TargetMisuse {
    fn from(_error: AllocError) -> TargetMisuse {
        TargetMisuse::Memory
    }
}

impl<T: Drop> From<AllocFailed<T>> for TargetMisuse {
    fn from(_error: AllocFailed<T>) -> TargetMisuse {
        TargetMisuse::Memory
    }
}

/// A file by its device and number.
type Identity = (u64, u64);

/// Where an output is written to, and what was there before.
#[derive(Drop)]
pub struct Target {
    /// The path of the output.
    pub path: PathBuf,
    /// Whether nothing was there, not even a link that leads nowhere.
    pub is_new: bool,
    /// The file that was there, or that a link led to.
    file: Option<Identity>,
}

impl Target {
    /// Looks at what is there.
    fn at(rt: &HostRuntime, path: PathBuf) -> Target
        ensures { path_buf_bytes result.path ≡ path_buf_bytes path }
    {
        let (is_new, file) = match fs::symlink_metadata(rt, path.as_str()) {
            Ok(found) if found.is_symlink() => (false, identity_at(rt, path.as_str())),
            Ok(found) => (false, Some(identity_of(&found))),
            Err(error) => (error.kind() == ErrorKind::NotFound, None),
        };
        Target { path, is_new, file }
    }
}

fn identity_of(found: &Metadata) -> Identity {
    (found.dev(), found.ino())
}

/// The file that a path leads to.
fn identity_at(rt: &HostRuntime, path: &str) -> Option<Identity> {
    metadata_of(rt, path).ok().map(|found| identity_of(&found))
}

fn check_named(alloc: Global, files: &[String]) -> Result<(), TargetMisuse> {
    if files.iter().any(|file| is_standard_input(file.as_str())) {
        let said = "standard input has no name for a file in DIR";
        return Err(TargetMisuse::Said(String::from_str(alloc, said)?));
    }
    Ok(())
}

/// The misuse of an output that is an input.
fn input_misuse(alloc: Global, path: &str) -> TargetMisuse {
    match format!(in alloc; "the output '{path}' is one of the inputs") {
        Ok(said) => TargetMisuse::Said(said),
        Err(error) => TargetMisuse::from(error),
    }
}

/// That a path that is read is none of the outputs.
#[tactic(auto, unfolding(crate::specs::Targets::has_path))]
fn check_input(alloc: Global, outputs: &BTreeSet<&str>, input: &str) -> Result<(), TargetMisuse>
    ensures { OnOk result (has_path outputs.now input.now ≡ false) }
{
    if outputs.contains(input) {
        return Err(input_misuse(alloc, input));
    }
    Ok(())
}

/// That no path that is read is one of the outputs.
fn check_inputs(
    alloc: Global,
    outputs: &BTreeSet<&str>,
    schema: &str,
    files: &[String],
) -> Result<(), TargetMisuse>
    ensures { OnOk result (All (λ input. has_path outputs.now input ≡ false) (inputs_of schema.now files.now)) }
{
    check_input(alloc, outputs, schema)?;
    for file in files {
        check_input(alloc, outputs, file.as_str())?;
    }
    Ok(())
}

/// That the outputs have different paths, and none the path of a file that is read.
///
/// Paths are compared byte by byte, as the line has them. `check_apart` finds an existing output
/// that is an input by another path, as `./a` is `a`, or by a link.
fn check_distinct(
    alloc: Global,
    schema: &str,
    files: &[String],
    paths: &[PathBuf],
) -> Result<(), TargetMisuse>
    ensures distinct { OnOk result (AreDistinct (map path_buf_bytes paths.now)) }
    ensures apart { OnOk result (AreApart (inputs_of schema.now files.now) (map path_buf_bytes paths.now)) }
{
    let mut met = BTreeSet::new(alloc);
    for path in paths {
        if !met.insert(path.as_str())? {
            let said = format!(in alloc; "two files would be written to '{}'", path.as_str())?;
            return Err(TargetMisuse::Said(said));
        }
    }
    check_inputs(alloc, &met, schema, files)
}

/// The files that are read.
fn inputs_of(
    rt: &HostRuntime,
    schema: &str,
    files: &[String],
) -> Result<BTreeSet<Identity>, AllocError> {
    let mut inputs = BTreeSet::new(rt.alloc());
    if let Some(schema) = identity_at(rt, schema) {
        let _is_new = inputs.insert(schema)?;
    }
    for path in files {
        if let Some(file) = identity_at(rt, path.as_str()) {
            let _is_new = inputs.insert(file)?;
        }
    }
    Ok(inputs)
}

/// That no target that is there is one of the inputs.
fn check_apart(
    rt: &HostRuntime,
    schema: &str,
    files: &[String],
    targets: &[Target],
) -> Result<(), TargetMisuse> {
    if targets.iter().all(|target| target.file.is_none()) {
        return Ok(());
    }
    let inputs = inputs_of(rt, schema, files)?;
    for target in targets {
        if target.file.is_some_and(|file| inputs.contains(&file)) {
            return Err(input_misuse(rt.alloc(), target.path.as_str()));
        }
    }
    Ok(())
}

/// The targets at some paths, in their order.
fn targets_at(rt: &HostRuntime, paths: Vec<PathBuf>) -> Result<Vec<Target>, AllocError>
    ensures { IfOk result (λ targets. map (λ target. path_buf_bytes target.path) targets.items
        ≡ map path_buf_bytes paths.items) }
{
    let mut targets = Vec::with_capacity(rt.alloc(), paths.len())?;
    for path in paths {
        targets.push(Target::at(rt, path))?;
    }
    Ok(targets)
}

/// Where the output of each file goes: into a directory, in the order of the files.
///
/// It is a misuse where an input has no name, where two would get one name, and where an output is
/// one of the inputs. `distinct` and `apart` compare paths byte by byte, as the line has them, and
/// the schema is an input too. An output that exists is also compared with the inputs by device and
/// inode, which finds links and other paths of one file; no clause says that.
pub fn targets_of(
    rt: &HostRuntime,
    dir: &str,
    extension: &str,
    schema: &str,
    files: &[String],
) -> Result<Vec<Target>, TargetMisuse>
    ensures outputs { IfOk result (λ targets. map (λ target. path_buf_bytes target.path) targets.items
        ≡ outputs_of dir.now extension.now files.now) }
    ensures distinct { OnOk result (AreDistinct (outputs_of dir.now extension.now files.now)) }
    ensures apart { OnOk result (AreApart (inputs_of schema.now files.now)
        (outputs_of dir.now extension.now files.now)) }
{
    let alloc = rt.alloc();
    check_named(alloc, files)?;
    let paths = targets_in(alloc, dir, extension, files)?;
    check_distinct(alloc, schema, files, paths.as_slice())?;
    let targets = targets_at(rt, paths)?;
    check_apart(rt, schema, files, targets.as_slice())?;
    Ok(targets)
}
