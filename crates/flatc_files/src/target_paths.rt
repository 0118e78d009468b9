//! Where the outputs of several files go.
ghost use Rattle.std.specs.Prelude.{◌≡◌, IfOk, map};
ghost use Rattle.std.specs.Path.{path_buf_bytes};
ghost use Rattle.flatc_files.specs.Targets.{outputs_of, target_in};

use std::alloc::{AllocError, Global};
use std::path::{Path, PathBuf};

/// Where the file of an input goes: to its name in a directory, with another extension.
pub fn target_in(
    alloc: Global,
    dir: &str,
    extension: &str,
    file: &str,
) -> Result<PathBuf, AllocError>
    ensures { IfOk result (λ target. path_buf_bytes target ≡ target_in dir.now extension.now file.now) }
{
    let stem = Path::new(file).file_stem().unwrap_or(file);
    let name = format!(in alloc; "{stem}.{extension}")?;
    Path::new(dir).join(alloc, name.as_str())
}

/// Where each input goes, in their order.
pub fn targets_in(
    alloc: Global,
    dir: &str,
    extension: &str,
    files: &[String],
) -> Result<Vec<PathBuf>, AllocError>
    ensures { IfOk result (λ targets. map path_buf_bytes targets.items
        ≡ outputs_of dir.now extension.now files.now) }
{
    let mut targets = Vec::with_capacity(alloc, files.len())?;
    for file in files {
        targets.push(target_in(alloc, dir, extension, file.as_str())?)?;
    }
    Ok(targets)
}
