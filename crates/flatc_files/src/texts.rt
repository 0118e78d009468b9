//! What a job reads, and why a file failed.
ghost use Rattle.std.specs.Prelude.{◌≡◌, ◌⊎◌, IfErr, IfOk, None, Some};

use crate::inputs::Input;
use fb_heard::TakeFault;
use std::alloc::AllocError;
use std::io;

/// What a job has read so far, and why a file couldn't be read or written.
#[derive(Drop)]
pub struct Texts<'j> {
    /// The schema text; of `conform` the old one.
    pub schema: Input<'j>,
    /// The JSON text, the buffer, or the new schema text.
    pub input: Input<'j>,
    /// Why a file failed; none where none did, or memory ran out.
    pub failure: Option<Failure<'j>>,
}

/// A file that couldn't be read or written.
#[derive(Debug, PartialEq, Eq, Drop)]
pub struct Failure<'j> {
    /// As the line has it.
    pub path: &'j str,
    /// The reason as the system says it.
    pub reason: String,
}

impl<'j> Texts<'j> {
    /// Before anything was read.
    pub fn new(rt: &HostRuntime) -> Texts<'j> {
        Texts {
            schema: Input::nothing(rt),
            input: Input::nothing(rt),
            failure: None,
        }
    }

    /// A step of a chain, where both versions are schemas. Else what the next step begins with: the newer version, if
    /// that is a schema.
    pub fn of_step(
        older: Option<Input<'j>>,
        newer: Option<Input<'j>>,
    ) -> Result<Texts<'j>, Option<Input<'j>>>
        ensures step { IfOk result (λ step. (older.entry ≡ Some step.schema) × (newer.entry ≡ Some step.input)) }
        ensures rest { IfErr result (λ rest. (rest ≡ newer.entry) × ((older.entry ≡ None) ⊎ (newer.entry ≡ None))) }
    {
        match (older, newer) {
            (Some(schema), Some(input)) => Ok(Texts {
                schema,
                input,
                failure: None,
            }),
            (_, newer) => Err(newer),
        }
    }

    /// Forgets the input and why a file failed, for the next file of a batch.
    pub fn forget(&mut self, rt: &HostRuntime) {
        self.input = Input::nothing(rt);
        self.failure = None;
    }

    /// Remembers why a file failed, where there is memory for that.
    pub fn fail(&mut self, rt: &HostRuntime, path: &'j str, error: &io::Error) {
        let reason = format!(in rt.alloc(); "{error}");
        self.failure = reason.ok().map(|reason| Failure { path, reason });
    }

    fn read(&mut self, rt: &HostRuntime, path: &'j str) -> Result<Input<'j>, TakeFault> {
        let read = Input::read(rt, path);
        self.note(rt, path, &read, "it is longer than 2147483647 bytes");
        read
    }

    /// Remembers why a read failed, if it did: as the system says it, or that there is too much.
    pub fn note<T>(
        &mut self,
        rt: &HostRuntime,
        path: &'j str,
        read: &Result<T, TakeFault>,
        too_long: &str,
    ) {
        match read {
            Err(TakeFault::Failed(error)) => self.fail(rt, path, error),
            Err(TakeFault::TooLong) => self.fail(rt, path, &io::Error::other(too_long)),
            _ => {}
        }
    }

    /// Takes a message for the input, where there is memory for that, so that it can be quoted.
    pub fn quote(
        &mut self,
        rt: &HostRuntime,
        path: &'j str,
        message: &[u8],
    ) -> Result<(), AllocError> {
        self.input = Input::quoted(rt, path, message)?;
        Ok(())
    }

    /// Reads the schema text, which is the first file that a job reads.
    pub fn read_schema(&mut self, rt: &HostRuntime, path: &'j str) -> Result<(), TakeFault> {
        let read = self.read_one_schema(rt, path);
        if read.is_err() {
            self.say_alone();
        }
        read
    }

    /// Reads one of several schema texts, each of which is read even after one that couldn't be.
    pub fn read_one_schema(&mut self, rt: &HostRuntime, path: &'j str) -> Result<(), TakeFault> {
        self.schema = self.read(rt, path)?;
        Ok(())
    }

    /// Adds to why a file failed that no other was read, where there is memory for that.
    fn say_alone(&mut self) {
        if let Some(failure) = &mut self.failure {
            let _added = failure.reason.push_str("; no other file was read");
        }
    }

    /// Reads the JSON text, the buffer or the new schema text.
    pub fn read_input(&mut self, rt: &HostRuntime, path: &'j str) -> Result<(), TakeFault> {
        self.input = self.read(rt, path)?;
        Ok(())
    }
}
