//! Values again, in memory of their own.
ghost use Rattle.std.specs.Prelude.{◌≡◌, ◌≤◌, IfOk, option_map};
ghost use Rattle.fb_value.specs.View.{view, parts_view, entries_view};
ghost use Rattle.fb_value.specs.Counts.{nesting};

use fb_value::Value;
use std::alloc::{AllocError, Global};

/// The same value in memory of its own.
///
/// A struct takes some 0.7 KiB of stack for each level of its nesting.
pub fn copy(alloc: Global, value: &Value) -> Result<Value, AllocError>
    requires { nesting (view value.now) ≤ 300 }
    ensures { IfOk result (λ copied. view copied ≡ view value.now) }
{
    copy_in(alloc, value)
}

/// The same value in memory of its own, for a caller that walks a value itself and so has bounded its
/// nesting already. It takes as much stack as `copy`.
pub fn copy_part(alloc: Global, value: &Value) -> Result<Value, AllocError>
    ensures { IfOk result (λ copied. view copied ≡ view value.now) }
{
    copy_in(alloc, value)
}

#[cycle(copy)]
fn copy_in(alloc: Global, value: &Value) -> Result<Value, AllocError>
    ensures { IfOk result (λ copied. view copied ≡ view value.now) }
{
    match value {
        Value::Number(number) => Ok(Value::Number(*number)),
        Value::Text(text) => Ok(Value::Text(text.clone()?)),
        Value::Items(items) => Ok(Value::Items(copy_parts(alloc, items)?)),
        Value::Fixed(parts) => Ok(Value::Fixed(copy_parts(alloc, parts)?)),
        Value::Fields(type_id, entries) => Ok(Value::Fields(
            *type_id,
            copy_entries(alloc, entries)?,
        )),
        Value::Member(code, member) => {
            let copied = copy_in(alloc, member)?;
            Ok(Value::Member(*code, Box::new(alloc, copied)?))
        }
        Value::Other(code) => Ok(Value::Other(*code)),
    }
}

#[cycle(copy)]
fn copy_parts(alloc: Global, parts: &[Value]) -> Result<Vec<Value>, AllocError>
    ensures { IfOk result (λ copied. parts_view copied.items ≡ parts_view parts.now) }
{
    let mut copied = Vec::with_capacity(alloc, parts.len())?;
    for part in parts {
        copied.push(copy_in(alloc, part)?)?;
    }
    Ok(copied)
}

#[cycle(copy)]
fn copy_entries(alloc: Global, entries: &[Option<Value>]) -> Result<Vec<Option<Value>>, AllocError>
    ensures { IfOk result (λ copied. entries_view copied.items ≡ entries_view entries.now) }
{
    let mut copied = Vec::with_capacity(alloc, entries.len())?;
    for entry in entries {
        let again = match entry {
            None => None,
            Some(value) => Some(copy_in(alloc, value)?),
        };
        copied.push(again)?;
    }
    Ok(copied)
}
