//! The calls over schemas, and the end of handles.
ghost use Rattle.std.specs.Prelude.{◌≡◌, ◌≢◌, ◌⊎◌, None};
ghost use Rattle.std_alloc.specs.Arc.{arc_value};
ghost use Rattle.fb_layout.specs.Laid.{LaidSchema};
ghost use Rattle.fb_conform.specs.Conforms.{Conforms};
ghost use Rattle.fb_conform.specs.Order.{IsFirst};
ghost use Rattle.fb_declare.specs.SchemaTexts.{IsAccepted, IsRefused, IsWant};
ghost use Rattle.flatc_c.specs.Handles.{HasLayout, layout_of};
ghost use Rattle.flatc_c.specs.Faults.{Told, OnSchemaFault, OnBreach};

use crate::contents::{clear, put, take};
use crate::faults::{Fault, c_fault};
use crate::handles::{Bytes, SchemaHandle};
use crate::kept::Kept;
use crate::status::{NO_MEMORY, NO_SCHEMA, OK, REFUSED, schema_status};
use flatc_tool::{Layout, ToolFault, conform, schema_of};
use std::alloc::{AllocError, Global};
use std::sync::Arc;

/// The version: the numbers of major, minor and patch, 8 bits each from the lowest up for patch.
#[unsafe(no_mangle)]
pub extern "C" fn flatc_version() -> u32
    ensures { result ≡ 512 }
{
    0x00_02_00
}

/// Frees what a schema's handle holds.
#[unsafe(no_mangle)]
pub extern "C" fn flatc_schema_clear(alloc: Global, schema: &mut SchemaHandle)
    ensures { schema.new.held.value ≡ None }
{
    drop(take(alloc, schema));
}

/// Frees what a handle of bytes holds.
#[unsafe(no_mangle)]
pub extern "C" fn flatc_bytes_clear(alloc: Global, bytes: &mut Bytes)
    ensures { bytes.new.held.value ≡ None }
{
    clear(alloc, bytes);
}

/// Keeps the layout of a schema text, as `schema_of` returns it.
#[unsafe(no_mangle)]
pub extern "C" fn flatc_schema_parse(
    alloc: Global,
    schema: &mut SchemaHandle,
    text: &[u8],
    fault: &mut Fault,
) -> u32
    ensures accepted { (result ≡ 0) → HasLayout schema.new.held.value (IsAccepted text.now) }
    ensures refused { (result ≡ 1) → Told fault.new (OnSchemaFault (IsRefused text.now)) }
    ensures exact { (result ≡ 1) → (L : LaidSchema) → ¬ IsAccepted text.now L }
    ensures status { (result ≡ 0) ⊎ ((result ≡ 1) ⊎ (result ≡ 2)) }
    ensures empty { (result ≢ 0) → schema.new.held.value ≡ None }
    ensures untold { (result ≡ 0) → fault.new ≡ fault.old }
{
    drop(take(alloc, schema));
    match schema_of(alloc, text) {
        Ok(layout) => {
            let Ok(layout) = Arc::new(alloc, layout) else {
                return NO_MEMORY;
            };
            let Ok(kept) = Box::new(alloc, Kept::Schema(layout)) else {
                return NO_MEMORY;
            };
            put(schema, kept);
            OK
        }
        Err(refusal) => {
            *fault = c_fault(ToolFault::Schema(refusal));
            schema_status(refusal)
        }
    }
}

/// Another handle of the same layout, for another thread.
#[unsafe(no_mangle)]
pub extern "C" fn flatc_schema_share(
    alloc: Global,
    from: &mut SchemaHandle,
    to: &mut SchemaHandle,
) -> u32
    ensures same { (result ≡ 0) → (layout_of to.new.held.value ≡ layout_of from.old.held.value)
        × (layout_of from.old.held.value ≢ None) }
    ensures no_schema { (result ≡ 3) → layout_of from.old.held.value ≡ None }
    ensures status { (result ≡ 0) ⊎ ((result ≡ 2) ⊎ (result ≡ 3)) }
    ensures kept { from.new.held.value ≡ from.old.held.value }
    ensures empty { (result ≢ 0) → to.new.held.value ≡ None }
{
    drop(take(alloc, to));
    let Some(kept) = take(alloc, from) else {
        return NO_SCHEMA;
    };
    let again = match kept.layout() {
        Some(layout) => {
            let again: Result<Arc<Layout>, AllocError> = Arc::try_clone(layout);
            Some(again)
        }
        None => None,
    };
    put(from, kept);
    let Some(again) = again else {
        return NO_SCHEMA;
    };
    let Ok(layout) = again else {
        return NO_MEMORY;
    };
    let Ok(more) = Box::new(alloc, Kept::Schema(layout)) else {
        return NO_MEMORY;
    };
    put(to, more);
    OK
}

/// Whether a new schema conforms to an old one, as `conform` returns it.
#[unsafe(no_mangle)]
pub extern "C" fn flatc_conform(
    alloc: Global,
    old: &mut SchemaHandle,
    new: &mut SchemaHandle,
    fault: &mut Fault,
) -> u32
    ensures conforms { (result ≡ 0) → HasLayout old.old.held.value (λ L.
        HasLayout new.old.held.value (Conforms L)) }
    ensures refused { (result ≡ 1) → HasLayout old.old.held.value (λ L.
        HasLayout new.old.held.value (λ N. Told fault.new (OnBreach (IsFirst L N)))) }
    ensures exact { (result ≡ 1) → HasLayout old.old.held.value (λ L.
        HasLayout new.old.held.value (λ N. ¬ Conforms L N)) }
    ensures no_schema { (result ≡ 3) → (layout_of old.old.held.value ≡ None)
        ⊎ (layout_of new.old.held.value ≡ None) }
    ensures status { (result ≡ 0) ⊎ ((result ≡ 1) ⊎ (result ≡ 3)) }
    ensures old_kept { old.new.held.value ≡ old.old.held.value }
    ensures new_kept { new.new.held.value ≡ new.old.held.value }
    ensures untold { (result ≢ 1) → fault.new ≡ fault.old }
{
    let Some(was) = take(alloc, old) else {
        return NO_SCHEMA;
    };
    let Some(is) = take(alloc, new) else {
        put(old, was);
        return NO_SCHEMA;
    };
    let answer = match (was.layout(), is.layout()) {
        (Some(was), Some(is)) => Some(conform(was, is)),
        _ => None,
    };
    put(old, was);
    put(new, is);
    match answer {
        Some(Ok(())) => OK,
        Some(Err(breach)) => {
            *fault = c_fault(ToolFault::Breach(breach));
            REFUSED
        }
        None => NO_SCHEMA,
    }
}
