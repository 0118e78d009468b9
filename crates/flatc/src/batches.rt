//! A task over many files, each for itself, under one schema.
use crate::explained::{Refusal, refuse};
use crate::faults::{BufferContent, read_fault, write_fault};
use crate::{layout_of, tell};
use clap::Error;
use clap::error::ErrorKind;
use fb_explain_records::push_escaped;
use flatc_cli::{ErrorFormat, Task, Verb, usage_error};
use flatc_files::{
    Content, Progress, Reasoned, RunStatus, Target, TargetMisuse, Texts, targets_of, write_file,
};
use flatc_jobs::{Flags, encoded, end_of, verified};
use flatc_tool::{DecodeOptions, Layout, Noted, ToolFault, decode_to};
use std::alloc::AllocError;
use std::fs;
use std::io::{self, ErrorKind as IoErrorKind, Write};

/// The JSON text of a buffer, and why there is none.
#[derive(Drop)]
struct Printed<'b> {
    layout: &'b Layout,
    bytes: &'b [u8],
    options: DecodeOptions,
    fault: Option<ToolFault>,
}

impl Content for Printed<'_> {
    // The page that is written at once is large, so no other task has it in its frame.
    #[inline(never)]
    fn write_to<W: Write>(&mut self, out: &mut W) -> io::Result<()> {
        let mut noted = Noted::over(Reasoned::over(out));
        let answer = decode_to(self.layout, self.bytes, &self.options, &mut noted);
        match (answer, noted.into_inner().into_reason()) {
            (Ok(()), _) => Ok(()),
            (Err(_), Some(error)) => Err(error),
            (Err(fault), None) => {
                self.fault = Some(fault);
                Err(io::Error::other("the buffer is refused"))
            }
        }
    }

    fn len(&self) -> Option<u64> {
        None
    }
}

/// A task, and the files that it is done at.
#[derive(Clone, Copy)]
struct Batch<'j> {
    task: &'j Task,
    files: &'j [String],
}

fn job_name(verb: Verb) -> &'static str {
    match verb {
        Verb::Binary { .. } => "binary",
        Verb::Json { .. } => "json",
        Verb::Check { .. } => "check",
    }
}

fn write_buffer<'j>(
    rt: &HostRuntime,
    layout: &Layout,
    texts: &mut Texts<'j>,
    target: &'j Target,
    flags: Flags,
) -> Result<(), ToolFault> {
    let buffer = encoded(rt.alloc(), layout, &mut texts.input.bytes, flags)?;
    match write_file(rt, target, &mut BufferContent(buffer.as_slice())) {
        Ok(()) => Ok(()),
        Err(error) => Err(write_fault(rt, texts, target.path.as_str(), &error)),
    }
}

fn write_text<'j>(
    rt: &HostRuntime,
    layout: &Layout,
    texts: &mut Texts<'j>,
    target: &'j Target,
    flags: Flags,
) -> Result<(), ToolFault> {
    let mut printed = Printed {
        layout,
        bytes: texts.input.bytes.as_slice(),
        options: flags.decode_options(),
        fault: None,
    };
    let done = write_file(rt, target, &mut printed);
    match (done, printed.fault) {
        (Ok(()), _) => Ok(()),
        (Err(_), Some(fault)) => Err(fault),
        (Err(error), None) => Err(write_fault(rt, texts, target.path.as_str(), &error)),
    }
}

/// Does the task at one file.
fn do_file<'j>(
    rt: &HostRuntime,
    task: &Task,
    layout: &Layout,
    texts: &mut Texts<'j>,
    file: &'j str,
    target: Option<&'j Target>,
) -> Result<(), ToolFault> {
    texts.forget(rt);
    texts.read_input(rt, file).map_err(read_fault)?;
    let flags = Flags::of(task.verb, task.form);
    match (task.verb, target) {
        (Verb::Check { .. }, _) => verified(layout, texts.input.bytes.as_slice(), flags),
        (Verb::Binary { .. }, Some(target)) => write_buffer(rt, layout, texts, target, flags),
        (Verb::Json { .. }, Some(target)) => write_text(rt, layout, texts, target, flags),
        // Each file of these verbs has a target.
        (_, None) => Err(ToolFault::FileWrite),
    }
}

/// That the directory of the outputs is there.
fn check_directory<'j>(
    rt: &HostRuntime,
    task: &'j Task,
    texts: &mut Texts<'j>,
) -> Result<(), ToolFault> {
    let Some((dir, _)) = task.directory() else {
        return Ok(());
    };
    let error = match fs::metadata(rt, dir) {
        Ok(found) if found.is_dir() => return Ok(()),
        Ok(_) => io::Error::from(IoErrorKind::NotADirectory),
        Err(error) => error,
    };
    texts.fail(rt, dir, &error);
    Err(ToolFault::FileWrite)
}

/// The layout that all files are read under.
fn batch_layout<'j>(
    rt: &HostRuntime,
    task: &'j Task,
    texts: &mut Texts<'j>,
) -> Result<Layout, ToolFault> {
    check_directory(rt, task, texts)?;
    texts
        .read_schema(rt, task.schema.as_str())
        .map_err(read_fault)?;
    layout_of(rt, texts)
}

/// Writes the path of a file that is refused, and what is between it and the line of its refusal.
fn tell_path(rt: &HostRuntime, file: &str, after: &str) {
    if !file.chars().any(|character| character.is_control()) {
        let _path = eprint!(rt; "{file}{after}");
        return;
    }
    let mut shown = String::new(rt.alloc());
    if push_escaped(&mut shown, file).is_ok() {
        let _path = eprint!(rt; "{shown}{after}");
    }
}

/// Reports why a file of several is refused: a line after the file's path, or findings, which have it.
pub(crate) fn refuse_file(rt: &HostRuntime, format: ErrorFormat, file: &str, refusal: Refusal<'_>) {
    if matches!(format, ErrorFormat::Line | ErrorFormat::Human) {
        tell_path(rt, file, ": ");
    }
    let _status = refuse(rt, format, refusal);
}

/// Reports why a step of a chain is refused: a line after the paths of its versions, or findings, which have them.
pub(crate) fn refuse_step(rt: &HostRuntime, format: ErrorFormat, refusal: Refusal<'_>) {
    let step = refusal.texts;
    if matches!(format, ErrorFormat::Line | ErrorFormat::Human) {
        tell_path(rt, step.schema.path, " to ");
        tell_path(rt, step.input.path, ": ");
    }
    let _status = refuse(rt, format, refusal);
}

/// Does the task at each file in turn. A refusal is reported after the file's path, and the others
/// go on. The status is 1 where one was refused.
fn do_files<'j>(
    rt: &HostRuntime,
    batch: Batch<'j>,
    targets: &'j [Target],
    layout: &Layout,
    texts: &mut Texts<'j>,
    format: ErrorFormat,
) -> u8 {
    let task = batch.task;
    let mut status = RunStatus::new();
    let mut progress = Progress::new(rt, batch.files.len());
    for (at, file) in batch.files.iter().enumerate() {
        progress.show(rt, at);
        let answer = do_file(rt, task, layout, texts, file.as_str(), targets.get(at));
        status.note(answer.is_ok());
        if let Err(fault) = answer {
            progress.clear(rt);
            let flags = Flags::of(task.verb, task.form);
            refuse_file(
                rt,
                format,
                file.as_str(),
                Refusal::of_files(fault, flags, texts),
            );
        }
    }
    progress.clear(rt);
    tell_end(rt, end_of(task.verb, status))
}

/// Prints what a run over many inputs ends with, and returns the status.
pub(crate) fn tell_end(rt: &HostRuntime, end: Result<&'static str, u8>) -> u8 {
    match end {
        Ok(text) => tell(rt, Ok(text)),
        Err(code) => code,
    }
}

/// Does a batch whose outputs are known, and returns the status.
fn do_all<'j>(
    rt: &HostRuntime,
    batch: Batch<'j>,
    targets: &'j [Target],
    format: ErrorFormat,
) -> u8 {
    let mut texts = Texts::new(rt);
    match batch_layout(rt, batch.task, &mut texts) {
        Ok(layout) => do_files(rt, batch, targets, &layout, &mut texts, format),
        Err(fault) => {
            let flags = Flags::of(batch.task.verb, batch.task.form);
            refuse(rt, format, Refusal::of_files(fault, flags, &texts))
        }
    }
}

/// Where each output of a task goes; nothing where no file is written.
fn targets_in(
    rt: &HostRuntime,
    task: &Task,
    files: &[String],
) -> Result<Vec<Target>, TargetMisuse> {
    match task.directory() {
        Some((dir, extension)) => targets_of(rt, dir, extension, task.schema.as_str(), files),
        None => Ok(Vec::new(rt.alloc())),
    }
}

/// Does a task at many files, and returns the status; a usage error where its outputs can't be named.
pub(crate) fn do_batch(
    rt: &HostRuntime,
    task: &Task,
    files: &[String],
    format: ErrorFormat,
) -> Result<u8, Error> {
    match targets_in(rt, task, files) {
        Ok(targets) => Ok(do_all(rt, Batch { task, files }, targets.as_slice(), format)),
        Err(TargetMisuse::Memory) => Err(Error::from(AllocError)),
        Err(TargetMisuse::Said(said)) => Err(usage_error(
            rt.alloc(),
            job_name(task.verb),
            ErrorKind::ArgumentConflict,
            said.as_str(),
        )),
    }
}
