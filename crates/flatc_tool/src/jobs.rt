//! JSON texts made buffers under a schema text.
ghost use Rattle.std.specs.Prelude.{IfOk, IfErr, false};
ghost use Rattle.flatc_tool.specs.Jobs.{IsBinaryUnder, MayBeBinaryUnder, BinaryRefusedUnder, IsNotMemory};

use crate::buffers::encode;
use crate::laws::layer_laws;
use crate::options::EncodeOptions;
use fb_declare::schema_of;
use fb_faults::ToolFault;
use fb_value::Limits;
use std::alloc::Global;

/// The buffer of a JSON text under a schema text.
///
/// `unknown` ignores unknown JSON fields. The schema is checked first, then the JSON text, the value
/// that it means, and that value's size; the error is that of the first of these that refuses. For
/// many texts under one schema: `schema_of` once, and `encode` for each.
pub fn to_binary(
    alloc: Global,
    schema: &[u8],
    json: &[u8],
    limits: Limits,
    unknown: bool,
) -> Result<Vec<u8>, ToolFault>
    ensures binary { IfOk result (λ b. IsBinaryUnder false schema.now json.now limits unknown b.items) }
    ensures refused { IfErr result (BinaryRefusedUnder false schema.now json.now limits unknown) }
    ensures exact { IfErr result
        (λ f. IsNotMemory f → ¬ MayBeBinaryUnder false schema.now json.now limits unknown) }
{
    layer_laws();
    let layout = match schema_of(alloc, schema) {
        Ok(layout) => layout,
        Err(fault) => return Err(ToolFault::Schema(fault)),
    };
    let options = EncodeOptions {
        limits,
        unknown_json: unknown,
        size_prefixed: false,
    };
    encode(alloc, &layout, json, &options)
}
