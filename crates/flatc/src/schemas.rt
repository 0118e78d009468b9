//! Several schemas, read one by one: each is checked for itself, or compared with the one before it.
use crate::batches::{refuse_file, refuse_step, tell_end};
use crate::explained::{Refusal, warn};
use crate::faults::read_fault;
use crate::layout_of;
use flatc_cli::{Chain, ErrorFormat, Verb};
use flatc_files::{Input, RunStatus, Texts};
use flatc_jobs::{Flags, chain_end, compared, end_of};
use flatc_tool::ToolFault;

fn try_read<'j>(rt: &HostRuntime, texts: &mut Texts<'j>, path: &'j str) -> Result<(), ToolFault> {
    texts.read_one_schema(rt, path).map_err(read_fault)?;
    let _layout = layout_of(rt, texts)?;
    Ok(())
}

/// The text of a schema that breaks no rule. The refusal of another is reported after its path.
fn read_schema<'j>(rt: &HostRuntime, path: &'j str, format: ErrorFormat) -> Option<Input<'j>> {
    let mut texts = Texts::new(rt);
    match try_read(rt, &mut texts, path) {
        Ok(()) => Some(texts.schema),
        Err(fault) => {
            let refusal = Refusal::of_files(fault, Flags::none(), &texts);
            refuse_file(rt, format, path, refusal);
            None
        }
    }
}

/// Checks each schema, and returns the status.
pub(crate) fn check_schemas(rt: &HostRuntime, schemas: &[String], format: ErrorFormat) -> u8 {
    let mut status = RunStatus::new();
    for path in schemas {
        let schema = read_schema(rt, path.as_str(), format);
        status.note(schema.is_some());
    }
    tell_end(rt, end_of(Verb::Check { raw: false }, status))
}

/// Whether a version conforms to the one before it. A refusal is reported after both paths.
fn compare_step(rt: &HostRuntime, step: &Texts<'_>, names: bool, format: ErrorFormat) -> bool {
    let old = step.schema.bytes.as_slice();
    let new = step.input.bytes.as_slice();
    match compared(rt.alloc(), old, new, names) {
        Ok(()) => {
            warn(rt, format, step);
            true
        }
        Err(fault) => {
            refuse_step(rt, format, Refusal::of_files(fault, Flags::none(), step));
            false
        }
    }
}

/// Compares each version with the one before it where both are schemas, and returns the status.
///
/// A version is read once. One that is refused is reported for itself, and belongs to no step.
pub(crate) fn do_chain(rt: &HostRuntime, chain: &Chain, format: ErrorFormat) -> u8 {
    let mut status = RunStatus::new();
    let mut older: Option<Input<'_>> = None;
    for path in &chain.versions {
        let version = read_schema(rt, path.as_str(), format);
        status.note(version.is_some());
        older = match Texts::of_step(older, version) {
            Ok(step) => {
                status.note(compare_step(rt, &step, chain.names, format));
                Some(step.input)
            }
            Err(version) => version,
        };
    }
    tell_end(rt, chain_end(status))
}
