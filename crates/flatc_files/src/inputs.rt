//! An input of a job: what was read from it.
ghost use Rattle.std.specs.Prelude.{◌≤◌, length, IfOk};

use crate::opened::Opened;
use fb_heard::{Heard, TakeFault, take_all};
use std::alloc::AllocError;

/// The maximum length of a file or message that is read, in bytes.
pub(crate) const LONGEST: u32 = 2_147_483_647;

/// An input, with what was read from it.
#[derive(Drop)]
pub struct Input<'j> {
    /// As the line has it.
    pub path: &'j str,
    /// What was read of it.
    pub bytes: Vec<u8>,
}

impl<'j> Input<'j> {
    /// What is there before anything was read.
    pub fn nothing(rt: &HostRuntime) -> Input<'j> {
        Input {
            path: "",
            bytes: Vec::new(rt.alloc()),
        }
    }

    /// A part of an input, which was read before.
    pub(crate) fn quoted(
        rt: &HostRuntime,
        path: &'j str,
        part: &[u8],
    ) -> Result<Input<'j>, AllocError> {
        Ok(Input {
            path,
            bytes: part.to_vec(rt.alloc())?,
        })
    }

    /// Reads a file, or standard input.
    pub(crate) fn read(rt: &HostRuntime, path: &'j str) -> Result<Input<'j>, TakeFault>
        ensures short { IfOk result (λ input. length input.bytes.items ≤ 2147483647) }
    {
        let stream = Opened::open(rt, path).map_err(TakeFault::Failed)?;
        let bytes = take_all(rt.alloc(), &mut Heard::over(stream), LONGEST)?;
        Ok(Input { path, bytes })
    }
}
