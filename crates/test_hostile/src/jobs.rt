//! The calls of the tool over texts and bytes.
use crate::arming::{CallOutcome, Matching, arm, disarm, of_bytes, of_done, of_text};
use crate::examples::Example;
use crate::meanings::limits;
use flatc_tool::{
    Noted, ToolFault, check, conform_names, conform_texts, print_to, to_binary, to_json,
};

fn try_binary(rt: &HostRuntime, example: &Example, arms: bool) -> CallOutcome {
    let (schema, json, limits) = (example.schema, example.json, limits());
    arm(rt, arms);
    let answer = to_binary(rt.alloc(), schema, json, limits, false);
    disarm(rt, arms);
    of_bytes(answer, example.bytes)
}

fn try_json(rt: &HostRuntime, example: &Example, arms: bool) -> CallOutcome {
    let (schema, bytes, limits) = (example.schema, example.bytes, limits());
    arm(rt, arms);
    let answer = to_json(rt.alloc(), schema, bytes, limits, false, false);
    disarm(rt, arms);
    of_text(answer, example.text)
}

/// What is printed of an example's bytes. A refusal comes before the first byte.
fn try_print(rt: &HostRuntime, example: &Example, arms: bool) -> CallOutcome {
    let mut out = Noted::over(Matching::either(example.text, ""));
    let (schema, bytes, limits) = (example.schema, example.bytes, limits());
    arm(rt, arms);
    let answer = print_to(rt.alloc(), schema, bytes, limits, false, false, &mut out);
    disarm(rt, arms);
    let out = out.into_inner();
    match answer {
        Ok(()) => CallOutcome::of(out.is_first()),
        Err(fault) if out.is_other() => CallOutcome::of_refusal(fault.number()),
        Err(_) => CallOutcome::Wrong,
    }
}

fn try_check(rt: &HostRuntime, example: &Example, arms: bool) -> CallOutcome {
    let (schema, bytes, limits) = (example.schema, example.bytes, limits());
    arm(rt, arms);
    let answer = check(rt.alloc(), schema, Some(bytes), limits, false);
    disarm(rt, arms);
    of_done(answer)
}

fn try_conform(rt: &HostRuntime, example: &Example, arms: bool) -> CallOutcome {
    arm(rt, arms);
    let answer = conform_texts(rt.alloc(), example.schema, example.newer);
    disarm(rt, arms);
    of_done(answer)
}

/// A name that is moved, or that memory ran out.
fn try_names(rt: &HostRuntime, example: &Example, arms: bool) -> CallOutcome {
    arm(rt, arms);
    let answer = conform_names(rt.alloc(), example.schema, example.moved);
    disarm(rt, arms);
    match answer {
        Ok(()) => CallOutcome::Wrong,
        Err(ToolFault::NameMoved(_)) => CallOutcome::Right,
        Err(fault) => CallOutcome::of_refusal(fault.number()),
    }
}

/// What comes of a call of the tool; None where it is none of these.
pub(crate) fn try_job(
    rt: &HostRuntime,
    call: &str,
    example: &Example,
    arms: bool,
) -> Option<CallOutcome> {
    match call {
        "to_binary" => Some(try_binary(rt, example, arms)),
        "to_json" => Some(try_json(rt, example, arms)),
        "print_to" => Some(try_print(rt, example, arms)),
        "check" => Some(try_check(rt, example, arms)),
        "conform_texts" => Some(try_conform(rt, example, arms)),
        "conform_names" => Some(try_names(rt, example, arms)),
        _ => None,
    }
}
