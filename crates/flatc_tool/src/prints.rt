//! Buffers printed as JSON texts under a schema text.
ghost use Rattle.std.specs.Prelude.{◌≡◌, IfOk, IfErr, OnOk, false, string_bytes};
ghost use Rattle.fb_text.specs.Noted.{write_failed, writer_of};
ghost use Rattle.flatc_tool.specs.Jobs.{IsTextUnder, MayBeTextUnder, TextRefusedUnder, IsNotMemory};
ghost use Rattle.flatc_tool.specs.Prints.{IsSentUnder, PrintRefusedUnder, TellsFailure, IfUnwritten, IsOfInput};

use crate::json_texts::{decode, decode_to};
use crate::laws::layer_laws;
use crate::options::DecodeOptions;
use fb_declare::schema_of;
use fb_faults::ToolFault;
use fb_text::Noted;
use fb_value::Limits;
use std::alloc::Global;
use std::io::Write;

/// Writes the JSON text of the value that a buffer holds under a schema text.
///
/// `raw` skips the file identifier check, and `defaults` includes scalars with their
/// default values. The bytes are verified before the first byte is written, and memory is allocated for
/// the schema alone. A write that fails is reported with the count of the bytes before it, all of which
/// are the text's first.
pub fn print_to<W: Write>(
    alloc: Global,
    schema: &[u8],
    bytes: &[u8],
    limits: Limits,
    raw: bool,
    defaults: bool,
    out: &mut Noted<W>,
) -> Result<(), ToolFault>
    requires fresh { write_failed out.old ≡ false }
    ensures printed { OnOk result (IsSentUnder false false schema.now bytes.now limits raw defaults
        (W.contents (writer_of out.old)) (W.contents (writer_of out.new))) }
    ensures refused { IfErr result (PrintRefusedUnder false false schema.now bytes.now limits raw defaults
        (W.contents (writer_of out.old)) (W.contents (writer_of out.new))) }
    ensures failed { TellsFailure (write_failed out.new) result }
    ensures untouched { IfUnwritten result (out.new ≡ out.old) }
    ensures exact { IfErr result (λ f. IsOfInput f → ¬ MayBeTextUnder false schema.now bytes.now limits raw) }
{
    layer_laws();
    let layout = match schema_of(alloc, schema) {
        Ok(layout) => layout,
        Err(fault) => return Err(ToolFault::Schema(fault)),
    };
    let options = DecodeOptions {
        limits,
        raw_binary: raw,
        defaults_json: defaults,
        size_prefixed: false,
        compact: false,
    };
    decode_to(&layout, bytes, &options, out)
}

/// The JSON text of the value that a buffer holds under a schema text.
///
/// `raw` skips the file identifier check, and `defaults` includes scalars with their
/// default values. The schema is checked before the bytes, and the bytes before a union's code that
/// has no name. For many buffers under one schema: `schema_of` once, and `decode` for each.
pub fn to_json(
    alloc: Global,
    schema: &[u8],
    bytes: &[u8],
    limits: Limits,
    raw: bool,
    defaults: bool,
) -> Result<String, ToolFault>
    ensures text { IfOk result
        (λ s. IsTextUnder false false schema.now bytes.now limits raw defaults (string_bytes s)) }
    ensures refused { IfErr result (TextRefusedUnder false schema.now bytes.now limits raw) }
    ensures exact { IfErr result
        (λ f. IsNotMemory f → ¬ MayBeTextUnder false schema.now bytes.now limits raw) }
{
    layer_laws();
    let layout = match schema_of(alloc, schema) {
        Ok(layout) => layout,
        Err(fault) => return Err(ToolFault::Schema(fault)),
    };
    let options = DecodeOptions {
        limits,
        raw_binary: raw,
        defaults_json: defaults,
        size_prefixed: false,
        compact: false,
    };
    decode(alloc, &layout, bytes, &options)
}
