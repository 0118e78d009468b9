//! What is printed of a schema.
use crate::explained::{Refusal, refuse};
use crate::faults::read_fault;
use crate::inspected::print_text;
use crate::layout_of;
use fb_describe::description_of;
use fb_explain::COLUMNS;
use flatc_cli::ErrorFormat;
use flatc_files::Texts;
use flatc_jobs::Flags;
use flatc_tool::ToolFault;

fn describe_file<'j>(
    rt: &HostRuntime,
    texts: &mut Texts<'j>,
    path: &'j str,
) -> Result<(), ToolFault> {
    texts.read_one_schema(rt, path).map_err(read_fault)?;
    let layout = layout_of(rt, texts)?;
    let text = description_of(rt.alloc(), &layout, COLUMNS).map_err(|_| ToolFault::Memory)?;
    print_text(rt, texts, text.as_str())
}

/// Lists the types and slots of a schema by number, and returns the status.
pub(crate) fn describe(rt: &HostRuntime, path: &str, format: ErrorFormat) -> u8 {
    let mut texts = Texts::new(rt);
    match describe_file(rt, &mut texts, path) {
        Ok(()) => 0,
        Err(fault) => refuse(rt, format, Refusal::of_files(fault, Flags::none(), &texts)),
    }
}
