//! Handles filled and emptied.
ghost use Rattle.std.specs.Prelude.{◌≡◌, Option, Some, None, option_map, IsTrue};
ghost use Rattle.std_alloc.specs.Vec.{vec_ptr};
ghost use Rattle.flatc_c.specs.Handles.{HasBytes};

use crate::handles::{Bytes, SchemaHandle};
use crate::held::Held;
use crate::kept::Kept;
use crate::loose::Loose;
use std::alloc::Global;
use std::mem::replace;

fn empty_schema() -> SchemaHandle
    ensures { result.held.value ≡ None }
{
    SchemaHandle {
        held: Held::none(),
        full: false,
    }
}

fn empty_bytes() -> Bytes
    ensures { result.held.value ≡ None }
{
    Bytes {
        data: std::ptr::null(),
        size: 0,
        held: Held::none(),
        full: false,
    }
}

/// Takes what a schema's handle holds.
pub(crate) fn take(alloc: Global, schema: &mut SchemaHandle) -> Option<Box<Kept>>
    ensures value { option_map (λ kept. kept.value) result ≡ schema.old.held.value }
    ensures empty { schema.new.held.value ≡ None }
{
    let had = replace(schema, empty_schema());
    if had.full {
        Some(had.held.into_loose().into_box(alloc))
    } else {
        None
    }
}

/// Puts it into a handle that is empty.
pub(crate) fn put(schema: &mut SchemaHandle, kept: Box<Kept>)
    ensures { schema.new.held.value ≡ Some kept.value }
{
    *schema = SchemaHandle {
        held: Held::of(Loose::of(kept)),
        full: true,
    };
}

/// Frees what a handle of bytes holds.
pub(crate) fn clear(alloc: Global, bytes: &mut Bytes)
    ensures { bytes.new.held.value ≡ None }
{
    let had = replace(bytes, empty_bytes());
    if had.full {
        drop(had.held.into_loose().into_box(alloc));
    }
}

/// Puts bytes into a handle that is empty, if there is memory for it.
pub(crate) fn give(alloc: Global, out: &mut Bytes, bytes: Vec<u8>) -> bool
    ensures given { IsTrue result → HasBytes out.new (λ given. given ≡ bytes.items) }
    ensures empty { ¬ IsTrue result → out.new ≡ out.old }
{
    let (data, size) = (bytes.as_ptr(), bytes.len());
    match Box::new(alloc, Kept::Bytes(bytes)) {
        Ok(kept) => {
            *out = Bytes {
                data,
                size,
                held: Held::of(Loose::of(kept)),
                full: true,
            };
            true
        }
        Err(_) => false,
    }
}
