//! What comes of JSON texts.
ghost use Rattle.std.specs.Prelude.{◌≤◌, IfOk};
ghost use Rattle.fb_value.specs.View.{view};
ghost use Rattle.fb_value.specs.Counts.{nesting};
ghost use Rattle.fb_value.specs.Fits.{FitsRoot};

use crate::values::Case;
use crate::values::texts::try_alike;
use fb_json::{JsonFault, value_of};
use fb_value::Value;
use flatc_tool::{EncodeOptions, ToolFault, encode};
use serde_json::Value as Json;
use std::alloc::AllocError;

/// Why a JSON text means no value.
#[derive(Clone, Copy, Drop)]
pub(crate) enum Unmeant {
    NoJson,
    Fault(JsonFault),
}

/// The value that a JSON text means.
pub(crate) fn meaning(case: &Case, json: &str, unknown: bool) -> Result<Value, Unmeant>
    ensures nests { IfOk result (λ v. nesting (view v) ≤ 300) }
    ensures fits { IfOk result (λ v. FitsRoot case.now.layout.now (view v)) }
{
    let _schema = case.layout.schema();
    let _depth = case.limits.most_depth();
    let Ok(tree) = Json::from_str(case.alloc, json) else {
        return Err(Unmeant::NoJson);
    };
    match value_of(case.alloc, case.layout, &tree, case.limits, unknown) {
        Ok(value) => Ok(value),
        Err(fault) => Err(Unmeant::Fault(fault)),
    }
}

/// Writes why a JSON text means no value.
pub(crate) fn write_unmeant(unmeant: Unmeant, line: &mut String) -> Result<(), AllocError> {
    match unmeant {
        Unmeant::NoJson => line.push_str("no JSON"),
        Unmeant::Fault(fault) => write!(line, "{fault:?}"),
    }
}

/// The buffer that the tool makes of a JSON text.
pub(crate) fn buffer_of(case: &Case, json: &str, unknown: bool) -> Result<Vec<u8>, ToolFault> {
    let options = EncodeOptions {
        limits: case.limits,
        unknown_json: unknown,
        size_prefixed: case.prefixed,
    };
    encode(case.alloc, case.layout, json.as_bytes(), &options)
}

/// Whether the tool refuses a JSON text as its meaning is refused.
fn is_same_refusal(fault: ToolFault, unmeant: Unmeant) -> bool {
    match (fault, unmeant) {
        (ToolFault::BadJson, Unmeant::NoJson) => true,
        (ToolFault::Json(told), Unmeant::Fault(fault)) => told == fault,
        _ => false,
    }
}

/// Writes the value that a JSON text means, where the tool makes a buffer of it that prints as its
/// text.
fn try_meant(
    case: &Case,
    json: &str,
    unknown: bool,
    value: &Value,
    line: &mut String,
) -> Result<(), AllocError> {
    match buffer_of(case, json, unknown) {
        Ok(bytes) => try_alike(case, bytes.as_slice(), false, value, line),
        Err(fault) => write!(line, "a meaning that is not built: {}", fault.number()),
    }
}

/// Writes the fault of a JSON text that means no value, where it is the tool's.
fn try_unmeant(
    case: &Case,
    json: &str,
    unknown: bool,
    unmeant: Unmeant,
    line: &mut String,
) -> Result<(), AllocError> {
    match buffer_of(case, json, unknown) {
        Err(fault) if is_same_refusal(fault, unmeant) => write_unmeant(unmeant, line),
        _ => line.push_str("another outcome of the tool than of the meaning"),
    }
}

/// Writes the value that a JSON text means, where the tool makes a buffer of it, or the fault of both.
pub(crate) fn try_meaning(
    case: &Case,
    json: &str,
    unknown: bool,
    line: &mut String,
) -> Result<(), AllocError> {
    match meaning(case, json, unknown) {
        Ok(value) => try_meant(case, json, unknown, &value, line),
        Err(unmeant) => try_unmeant(case, json, unknown, unmeant, line),
    }
}
