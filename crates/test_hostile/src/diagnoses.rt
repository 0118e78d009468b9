//! The calls that say where a refusal is, and why. Each is compared with what it returns before growths are refused.
use crate::arming::{CallOutcome, arm, disarm};
use crate::examples::Example;
use crate::meanings::limits;
use fb_conform::all_breaches;
use fb_encode::text_fault_path;
use fb_explain::{COLUMNS, Source, Sources, explain};
use fb_json::{JsonContext, fault_path as json_fault_path};
use fb_layout::Layout;
use fb_read::{Entries, Framing, fault_path};
use flatc_tool::{ToolFault, check, conform_texts, schema_of, to_binary};
use serde_json::Value as Json;
use std::alloc::{AllocError, Global};

/// What an input is refused with, and the two texts or the text and the bytes.
#[derive(Clone, Copy)]
struct Refused<'e> {
    fault: ToolFault,
    schema: &'e [u8],
    input: &'e [u8],
}

/// An example's bytes without the last two, which all examples need.
fn cut_bytes(example: &Example) -> &'static [u8] {
    let bytes: &'static [u8] = example.bytes;
    match bytes {
        [front @ .., _, _] => front,
        _ => bytes,
    }
}

/// A count that is to be the one that is `known`, or that memory ran out.
fn of_count(known: Result<usize, AllocError>, answer: Result<usize, AllocError>) -> CallOutcome {
    let Ok(known) = known else {
        return CallOutcome::Wrong;
    };
    match answer {
        Ok(found) => CallOutcome::of(found == known && known > 0),
        Err(_) => CallOutcome::Short(0),
    }
}

/// How many steps lead to the least fault of bytes; 0 where there is none.
fn steps_in_bytes(alloc: Global, layout: &Layout, bytes: &[u8]) -> Result<usize, AllocError> {
    let mut entries = Entries::new();
    let framing = Framing {
        raw: false,
        prefixed: false,
    };
    match fault_path(alloc, layout, bytes, limits(), framing, &mut entries)? {
        Some(steps) => Ok(steps.len()),
        None => Ok(0),
    }
}

/// How many steps lead to the first fault of a JSON tree; 0 where there is none.
fn steps_in_tree(alloc: Global, layout: &Layout, tree: &Json) -> Result<usize, AllocError> {
    match json_fault_path(alloc, layout, tree, false, limits())? {
        Some(steps) => Ok(steps.len()),
        None => Ok(0),
    }
}

/// How many steps lead to the first fault of a JSON text that is read in pieces of a few bytes; 0 where there is none.
fn steps_in_text(alloc: Global, layout: &Layout, json: &[u8]) -> Result<usize, AllocError> {
    let source = JsonContext {
        alloc,
        layout,
        unknown: false,
    };
    match text_fault_path(source, json, limits(), 8)? {
        Some(steps) => Ok(steps.len()),
        None => Ok(0),
    }
}

fn count_breaches(alloc: Global, old: &Layout, new: &Layout) -> Result<usize, AllocError> {
    Ok(all_breaches(alloc, old, new)?.len())
}

pub(crate) fn try_path(
    rt: &HostRuntime,
    example: &Example,
    layout: &Layout,
    arms: bool,
) -> CallOutcome {
    let bytes = cut_bytes(example);
    let known = steps_in_bytes(rt.alloc(), layout, bytes);
    arm(rt, arms);
    let found = steps_in_bytes(rt.alloc(), layout, bytes);
    disarm(rt, arms);
    of_count(known, found)
}

pub(crate) fn try_json_path(
    rt: &HostRuntime,
    example: &Example,
    layout: &Layout,
    arms: bool,
) -> CallOutcome {
    let Ok(tree) = Json::from_slice(rt.alloc(), example.refused_json) else {
        return CallOutcome::Wrong;
    };
    let known = steps_in_tree(rt.alloc(), layout, &tree);
    arm(rt, arms);
    let found = steps_in_tree(rt.alloc(), layout, &tree);
    disarm(rt, arms);
    of_count(known, found)
}

pub(crate) fn try_text_path(
    rt: &HostRuntime,
    example: &Example,
    layout: &Layout,
    arms: bool,
) -> CallOutcome {
    let json = example.refused_json;
    let known = steps_in_text(rt.alloc(), layout, json);
    arm(rt, arms);
    let found = steps_in_text(rt.alloc(), layout, json);
    disarm(rt, arms);
    of_count(known, found)
}

pub(crate) fn try_breaches(
    rt: &HostRuntime,
    example: &Example,
    layout: &Layout,
    arms: bool,
) -> CallOutcome {
    let Ok(newer) = schema_of(rt.alloc(), example.breaking) else {
        return CallOutcome::Wrong;
    };
    let known = count_breaches(rt.alloc(), layout, &newer);
    arm(rt, arms);
    let found = count_breaches(rt.alloc(), layout, &newer);
    disarm(rt, arms);
    of_count(known, found)
}

fn explain_refusal(alloc: Global, refused: &Refused<'_>) -> Result<String, AllocError> {
    let sources = Sources {
        schema: Source {
            path: "s.fbs",
            bytes: refused.schema,
        },
        input: Source {
            path: "input",
            bytes: refused.input,
        },
        limits: limits(),
        unknown_json: false,
        raw_binary: false,
        size_prefixed: false,
        failure: None,
    };
    explain(alloc, refused.fault, &sources, COLUMNS)
}

/// What an example's JSON, its bytes that are cut, or a schema that doesn't conform to its own is refused with.
fn refusal_of<'e>(rt: &HostRuntime, call: &str, example: &'e Example) -> Option<Refused<'e>> {
    let schema = example.schema;
    let (input, fault) = match call {
        "explain_json" => {
            let input = example.refused_json;
            (
                input,
                to_binary(rt.alloc(), schema, input, limits(), false).err()?,
            )
        }
        "explain_bytes" => {
            let input = cut_bytes(example);
            (
                input,
                check(rt.alloc(), schema, Some(input), limits(), false).err()?,
            )
        }
        _ => (
            example.breaking,
            conform_texts(rt.alloc(), schema, example.breaking).err()?,
        ),
    };
    Some(Refused {
        fault,
        schema,
        input,
    })
}

fn try_refused(rt: &HostRuntime, refused: &Refused<'_>, arms: bool) -> CallOutcome {
    let Ok(known) = explain_refusal(rt.alloc(), refused) else {
        return CallOutcome::Wrong;
    };
    arm(rt, arms);
    let answer = explain_refusal(rt.alloc(), refused);
    disarm(rt, arms);
    match answer {
        Ok(found) => CallOutcome::of(found == known && !known.is_empty()),
        Err(_) => CallOutcome::Short(0),
    }
}

/// What comes of an explanation; None where the call is none.
pub(crate) fn try_explain(
    rt: &HostRuntime,
    call: &str,
    example: &Example,
    arms: bool,
) -> Option<CallOutcome> {
    if !matches!(call, "explain_json" | "explain_bytes" | "explain_schema") {
        return None;
    }
    match refusal_of(rt, call, example) {
        Some(refused) => Some(try_refused(rt, &refused, arms)),
        None => Some(CallOutcome::Wrong),
    }
}
