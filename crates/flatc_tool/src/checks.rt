//! The check of schema texts and buffers.
ghost use Rattle.std.specs.Prelude.{OnOk, IfErr, option_map, false};
ghost use Rattle.flatc_tool.specs.Checks.{IsSound, CheckRefused};
ghost use Rattle.flatc_tool.specs.Jobs.{IsNotMemory};

use crate::laws::layer_laws;
use fb_declare::schema_of;
use fb_faults::ToolFault;
use fb_read::{Entries, verify};
use fb_value::Limits;
use std::alloc::Global;

/// Whether a schema text is accepted and, where there are bytes, they hold a value under it.
///
/// `raw` skips the file identifier check. The schema is checked before the bytes. No
/// value is made: memory is taken for the schema alone.
pub fn check(
    alloc: Global,
    schema: &[u8],
    bytes: Option<&[u8]>,
    limits: Limits,
    raw: bool,
) -> Result<(), ToolFault>
    ensures sound { OnOk result
        (IsSound false schema.now (option_map (λ b. b.now) bytes.entry) limits raw) }
    ensures refused { IfErr result
        (CheckRefused false schema.now (option_map (λ b. b.now) bytes.entry) limits raw) }
    ensures exact { IfErr result (λ f. IsNotMemory f
        → ¬ IsSound false schema.now (option_map (λ b. b.now) bytes.entry) limits raw) }
{
    layer_laws();
    let layout = match schema_of(alloc, schema) {
        Ok(layout) => layout,
        Err(fault) => return Err(ToolFault::Schema(fault)),
    };
    let Some(bytes) = bytes else {
        return Ok(());
    };
    match verify(&layout, bytes, limits, raw, &mut Entries::new()) {
        Ok(_view) => Ok(()),
        Err(fault) => Err(ToolFault::Read(fault)),
    }
}
