//! JSON texts made buffers under a layout.
ghost use Rattle.std.specs.Prelude.{◌≡◌, IfOk, IfErr};
ghost use Rattle.fb_value.specs.Num.{Bytes};
ghost use Rattle.fb_build.specs.Planned.{IsLaidBy};
ghost use Rattle.flatc_tool.specs.Encodes.{IsOfJson, encode_fault};
ghost use Rattle.flatc_tool.specs.Jobs.{IsBinary, MayBeBinary, BinaryRefused, IsNotMemory};

use crate::laws::layer_laws;
use crate::options::EncodeOptions;
use fb_build::TapePlan;
use fb_encode::{EncodeFault, JsonTextFault, PIECE, encode_text, plan_text};
use fb_faults::ToolFault;
use fb_json::JsonContext;
use fb_layout::Layout;
use std::alloc::Global;

/// A refusal to encode.
fn encode_fault(fault: JsonTextFault) -> ToolFault
    ensures { result ≡ encode_fault fault }
{
    match fault {
        JsonTextFault::BadJson => ToolFault::BadJson,
        JsonTextFault::Memory => ToolFault::Memory,
        JsonTextFault::Encode(EncodeFault::Json(fault)) => ToolFault::Json(fault),
        JsonTextFault::Encode(EncodeFault::Build(fault)) => ToolFault::Build(fault),
    }
}

/// The buffer of a JSON text under a layout, which may be kept for any number of texts.
///
/// The JSON text is checked first, then the value that it means, then that value's size; the error
/// is that of the first of these that refuses. With `size_prefixed` the buffer has a
/// size prefix. A long text is read in pieces, so that its tree is never whole in memory.
pub fn encode(
    alloc: Global,
    layout: &Layout,
    json: &[u8],
    options: &EncodeOptions,
) -> Result<Vec<u8>, ToolFault>
    ensures binary { IfOk result
        (λ b. IsBinary options.now.size_prefixed layout.now json.now options.now.limits
        options.now.unknown_json b.items) }
    ensures refused { IfErr result
        (BinaryRefused options.now.size_prefixed layout.now json.now options.now.limits
        options.now.unknown_json) }
    ensures exact { IfErr result (λ f. IsNotMemory f
        → ¬ MayBeBinary options.now.size_prefixed layout.now json.now options.now.limits
        options.now.unknown_json) }
{
    layer_laws();
    let source = JsonContext {
        alloc,
        layout,
        unknown: options.unknown_json,
    };
    match encode_text(source, json, options.limits, PIECE, options.size_prefixed) {
        Ok(bytes) => Ok(bytes),
        Err(fault) => Err(encode_fault(fault)),
    }
}

/// The plan by which the bytes are laid that `encode` returns, with all the memory that this takes: its `finish` needs
/// no more, and can't fail.
///
/// The JSON text is freed once its value is noted, before memory for the buffer is taken. A text that is refused stays
/// as it is: one that isn't JSON, or whose meaning breaks a rule.
pub fn encode_plan<'l>(
    alloc: Global,
    layout: &'l Layout,
    json: &mut Vec<u8>,
    options: &EncodeOptions,
) -> Result<TapePlan<'l>, ToolFault>
    ensures binary { IfOk result (λ plan. (b : Bytes) → IsLaidBy plan b
        → IsBinary options.now.size_prefixed layout.now json.old.items options.now.limits
        options.now.unknown_json b) }
    ensures refused { IfErr result
        (BinaryRefused options.now.size_prefixed layout.now json.old.items options.now.limits
        options.now.unknown_json) }
    ensures exact { IfErr result (λ f. IsNotMemory f
        → ¬ MayBeBinary options.now.size_prefixed layout.now json.old.items options.now.limits
        options.now.unknown_json) }
    ensures kept { IfErr result (λ f. IsOfJson f → json.new.items ≡ json.old.items) }
{
    layer_laws();
    let source = JsonContext {
        alloc,
        layout,
        unknown: options.unknown_json,
    };
    match plan_text(source, json, options.limits, PIECE, options.size_prefixed) {
        Ok(plan) => Ok(plan),
        Err(fault) => Err(encode_fault(fault)),
    }
}
