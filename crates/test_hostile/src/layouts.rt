//! The calls under a layout.
use crate::arming::{CallOutcome, arm, disarm, of_bytes, of_text};
use crate::diagnoses::{try_breaches, try_json_path, try_path, try_text_path};
use crate::examples::Example;
use crate::meanings::limits;
use crate::values::{is_printed_as, try_value_call};
use fb_encode::{EncodeFault, JsonTextFault, encode_text};
use fb_json::{JsonContext, value_of};
use fb_layout::Layout;
use fb_owned::read;
use fb_read::Entries;
use flatc_tool::{DecodeOptions, EncodeOptions, ToolFault, decode, encode, encode_plan, schema_of};
use serde_json::Value as Json;

fn try_encode(rt: &HostRuntime, example: &Example, layout: &Layout, arms: bool) -> CallOutcome {
    let options = EncodeOptions::new();
    arm(rt, arms);
    let answer = encode(rt.alloc(), layout, example.json, &options);
    disarm(rt, arms);
    of_bytes(answer, example.bytes)
}

fn try_plan(rt: &HostRuntime, example: &Example, layout: &Layout, arms: bool) -> CallOutcome {
    let Ok(mut json) = Vec::from_slice(rt.alloc(), example.json) else {
        return CallOutcome::Wrong;
    };
    let options = EncodeOptions::new();
    arm(rt, arms);
    let answer = encode_plan(rt.alloc(), layout, &mut json, &options);
    disarm(rt, arms);
    match answer {
        Ok(plan) => of_bytes(Ok(plan.finish()), example.bytes),
        Err(ToolFault::Build(fault)) => CallOutcome::of_refusal(fault.number()),
        Err(fault) if json.as_slice() == example.json => CallOutcome::of_refusal(fault.number()),
        Err(_) => CallOutcome::Wrong,
    }
}

/// An example's buffer, whose text is read in pieces of a few bytes.
fn try_pieces(rt: &HostRuntime, example: &Example, layout: &Layout, arms: bool) -> CallOutcome {
    let limits = limits();
    let source = JsonContext {
        alloc: rt.alloc(),
        layout,
        unknown: false,
    };
    arm(rt, arms);
    let answer = encode_text(source, example.json, limits, 8, false);
    disarm(rt, arms);
    match answer {
        Ok(bytes) => CallOutcome::of(bytes.as_slice() == example.bytes),
        Err(JsonTextFault::Memory) => CallOutcome::of_refusal(ToolFault::Memory.number()),
        Err(JsonTextFault::Encode(EncodeFault::Build(fault))) => CallOutcome::of_refusal(
            fault.number(),
        ),
        Err(_) => CallOutcome::Wrong,
    }
}

fn try_decode(rt: &HostRuntime, example: &Example, layout: &Layout, arms: bool) -> CallOutcome {
    let options = DecodeOptions::new();
    arm(rt, arms);
    let answer = decode(rt.alloc(), layout, example.bytes, &options);
    disarm(rt, arms);
    of_text(answer, example.text)
}

fn try_read(rt: &HostRuntime, example: &Example, layout: &Layout, arms: bool) -> CallOutcome {
    let (bytes, limits) = (example.bytes, limits());
    let mut entries = Entries::new();
    arm(rt, arms);
    let answer = read(rt.alloc(), layout, bytes, limits, false, &mut entries);
    disarm(rt, arms);
    match answer {
        Ok(value) => CallOutcome::of(is_printed_as(rt, layout, &value, example.text)),
        Err(fault) => CallOutcome::of_refusal(fault.number()),
    }
}

fn try_value_of(rt: &HostRuntime, example: &Example, layout: &Layout, arms: bool) -> CallOutcome {
    let Ok(tree) = Json::from_slice(rt.alloc(), example.json) else {
        return CallOutcome::Wrong;
    };
    let limits = limits();
    arm(rt, arms);
    let answer = value_of(rt.alloc(), layout, &tree, limits, false);
    disarm(rt, arms);
    match answer {
        Ok(value) => CallOutcome::of(is_printed_as(rt, layout, &value, example.text)),
        Err(fault) => CallOutcome::of_refusal(fault.number()),
    }
}

fn try_under(
    rt: &HostRuntime,
    call: &str,
    example: &Example,
    layout: &Layout,
    arms: bool,
) -> Option<CallOutcome> {
    match call {
        "encode" => Some(try_encode(rt, example, layout, arms)),
        "encode_plan" => Some(try_plan(rt, example, layout, arms)),
        "encode_pieces" => Some(try_pieces(rt, example, layout, arms)),
        "decode" => Some(try_decode(rt, example, layout, arms)),
        "read" => Some(try_read(rt, example, layout, arms)),
        "value_of" => Some(try_value_of(rt, example, layout, arms)),
        "fault_path" => Some(try_path(rt, example, layout, arms)),
        "json_fault_path" => Some(try_json_path(rt, example, layout, arms)),
        "text_fault_path" => Some(try_text_path(rt, example, layout, arms)),
        "all_breaches" => Some(try_breaches(rt, example, layout, arms)),
        _ => try_value_call(rt, call, example, layout, arms),
    }
}

/// What comes of a call under a layout; None where it is none of these.
pub(crate) fn try_layout_call(
    rt: &HostRuntime,
    call: &str,
    example: &Example,
    arms: bool,
) -> Option<CallOutcome> {
    match schema_of(rt.alloc(), example.schema) {
        Ok(layout) => try_under(rt, call, example, &layout, arms),
        Err(_) => Some(CallOutcome::Wrong),
    }
}
