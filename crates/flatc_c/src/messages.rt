//! The calls over one message: JSON to a buffer, a buffer to JSON, and the check of a buffer.
ghost use Rattle.std.specs.Prelude.{◌≡◌, ◌≢◌, ◌≤◌, ◌⊎◌, None, Some};
ghost use Rattle.std_alloc.specs.Arc.{arc_value};
ghost use Rattle.fb_value.specs.Datum.{Datum};
ghost use Rattle.fb_value.specs.Holds.{HoldsFramed, RefusesFramed};
ghost use Rattle.flatc_tool.specs.Jobs.{IsBinary, MayBeBinary, BinaryRefused};
ghost use Rattle.flatc_tool.specs.Jobs.{IsText, MayBeText, TextRefused};
ghost use Rattle.flatc_c.specs.Handles.{HasLayout, HasBytes, layout_of};
ghost use Rattle.flatc_c.specs.Faults.{Told, OnReadFault};
ghost use Rattle.flatc_c.specs.Settings.{limits_of, unknown_of, raw_of, defaults_of, prefixed_of, compact_of, AreSet};

use crate::contents::{clear, give, put, take};
use crate::faults::{Fault, c_fault};
use crate::handles::{Bytes, SchemaHandle};
use crate::options::Options;
use crate::status::{BAD_OPTIONS, NO_MEMORY, NO_SCHEMA, OK, REFUSED, status_of};
use flatc_tool::{DecodeOptions, EncodeOptions, Entries, ToolFault, decode, encode, verify_framed};
use std::alloc::Global;

/// The buffer of a JSON text, as `encode` returns it.
#[unsafe(no_mangle)]
pub extern "C" fn flatc_encode(
    alloc: Global,
    schema: &mut SchemaHandle,
    json: &[u8],
    options: &Options,
    out: &mut Bytes,
    fault: &mut Fault,
) -> u32
    ensures binary { (result ≡ 0) → HasLayout schema.old.held.value (λ L. HasBytes out.new
        (IsBinary (prefixed_of options.now) L json.now (limits_of options.now) (unknown_of options.now))) }
    ensures refused { (result ≡ 1) → HasLayout schema.old.held.value (λ L. Told fault.new
        (BinaryRefused (prefixed_of options.now) L json.now (limits_of options.now) (unknown_of options.now))) }
    ensures exact { (result ≡ 1) → HasLayout schema.old.held.value (λ L.
        ¬ MayBeBinary (prefixed_of options.now) L json.now (limits_of options.now) (unknown_of options.now)) }
    ensures no_schema { (result ≡ 3) → layout_of schema.old.held.value ≡ None }
    ensures bad_options { (result ≡ 4) → ¬ AreSet options.now }
    ensures status { result ≤ 4 }
    ensures kept { schema.new.held.value ≡ schema.old.held.value }
    ensures empty { (result ≢ 0) → out.new.held.value ≡ None }
    ensures untold { (result ≡ 0) → fault.new ≡ fault.old }
{
    clear(alloc, out);
    let Some(limits) = options.limits() else {
        return BAD_OPTIONS;
    };
    let Some(kept) = take(alloc, schema) else {
        return NO_SCHEMA;
    };
    let options = EncodeOptions {
        limits,
        unknown_json: options.ignores_unknown(),
        size_prefixed: options.has_prefix(),
    };
    let made = match kept.layout() {
        Some(layout) => Some(encode(alloc, layout, json, &options)),
        None => None,
    };
    put(schema, kept);
    match made {
        Some(Ok(bytes)) => if give(alloc, out, bytes) {
            OK
        } else {
            NO_MEMORY
        },
        Some(Err(refusal)) => {
            *fault = c_fault(refusal);
            status_of(refusal)
        }
        None => NO_SCHEMA,
    }
}

/// The JSON text of a buffer, as `decode` returns it.
#[unsafe(no_mangle)]
pub extern "C" fn flatc_decode(
    alloc: Global,
    schema: &mut SchemaHandle,
    buffer: &[u8],
    options: &Options,
    out: &mut Bytes,
    fault: &mut Fault,
) -> u32
    ensures text { (result ≡ 0) → HasLayout schema.old.held.value (λ L. HasBytes out.new
        (IsText (compact_of options.now) (prefixed_of options.now) L buffer.now
        (limits_of options.now) (raw_of options.now) (defaults_of options.now))) }
    ensures refused { (result ≡ 1) → HasLayout schema.old.held.value (λ L. Told fault.new
        (TextRefused (prefixed_of options.now) L buffer.now (limits_of options.now) (raw_of options.now))) }
    ensures exact { (result ≡ 1) → HasLayout schema.old.held.value (λ L.
        ¬ MayBeText (prefixed_of options.now) L buffer.now (limits_of options.now) (raw_of options.now)) }
    ensures no_schema { (result ≡ 3) → layout_of schema.old.held.value ≡ None }
    ensures bad_options { (result ≡ 4) → ¬ AreSet options.now }
    ensures status { result ≤ 4 }
    ensures kept { schema.new.held.value ≡ schema.old.held.value }
    ensures empty { (result ≢ 0) → out.new.held.value ≡ None }
    ensures untold { (result ≡ 0) → fault.new ≡ fault.old }
{
    clear(alloc, out);
    let Some(limits) = options.limits() else {
        return BAD_OPTIONS;
    };
    let Some(kept) = take(alloc, schema) else {
        return NO_SCHEMA;
    };
    let options = DecodeOptions {
        limits,
        raw_binary: options.is_raw(),
        defaults_json: options.has_defaults(),
        size_prefixed: options.has_prefix(),
        compact: options.is_compact(),
    };
    let made = match kept.layout() {
        Some(layout) => Some(decode(alloc, layout, buffer, &options)),
        None => None,
    };
    put(schema, kept);
    match made {
        Some(Ok(text)) => if give(alloc, out, text.into_bytes()) {
            OK
        } else {
            NO_MEMORY
        },
        Some(Err(refusal)) => {
            *fault = c_fault(refusal);
            status_of(refusal)
        }
        None => NO_SCHEMA,
    }
}

/// Whether a buffer holds a value, as `verify` returns it. Nothing is allocated.
#[unsafe(no_mangle)]
pub extern "C" fn flatc_verify(
    alloc: Global,
    schema: &mut SchemaHandle,
    buffer: &[u8],
    options: &Options,
    fault: &mut Fault,
) -> u32
    ensures held { (result ≡ 0) → HasLayout schema.old.held.value (λ L. (v : Datum)
        × HoldsFramed (prefixed_of options.now) L (limits_of options.now) (raw_of options.now) buffer.now v) }
    ensures refused { (result ≡ 1) → HasLayout schema.old.held.value (λ L. Told fault.new
        (OnReadFault (RefusesFramed (prefixed_of options.now) L (limits_of options.now) (raw_of options.now)
        buffer.now))) }
    ensures no_schema { (result ≡ 3) → layout_of schema.old.held.value ≡ None }
    ensures bad_options { (result ≡ 4) → ¬ AreSet options.now }
    ensures status { (result ≡ 0) ⊎ ((result ≡ 1) ⊎ ((result ≡ 3) ⊎ (result ≡ 4))) }
    ensures kept { schema.new.held.value ≡ schema.old.held.value }
    ensures untold { (result ≢ 1) → fault.new ≡ fault.old }
{
    let Some(limits) = options.limits() else {
        return BAD_OPTIONS;
    };
    let Some(kept) = take(alloc, schema) else {
        return NO_SCHEMA;
    };
    let mut entries = Entries::new();
    let raw = options.is_raw();
    let prefixed = options.has_prefix();
    let verified = match kept.layout() {
        Some(layout) => match verify_framed(layout, buffer, limits, raw, prefixed, &mut entries) {
            Ok(_view) => Some(Ok(())),
            Err(refusal) => Some(Err(refusal)),
        },
        None => None,
    };
    put(schema, kept);
    match verified {
        Some(Ok(())) => OK,
        Some(Err(refusal)) => {
            *fault = c_fault(ToolFault::Read(refusal));
            REFUSED
        }
        None => NO_SCHEMA,
    }
}
