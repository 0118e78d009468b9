//! The calls of the command: its words, what it reads, and the line of a fault.
use crate::arming::{CallOutcome, Matching, arm, disarm, of_bytes};
use crate::examples::Example;
use clap::error::ErrorKind;
use flatc_cli::{Inputs, Request, Task, Verb, request_of};
use flatc_tool::command::{Heard, fault_line, report, report_noted, take_all};
use flatc_tool::{JsonFault, Noted, Place, ToolFault, TypeId};
use std::alloc::{AllocError, Global};

/// A fault with a place, and its line.
const FAULT: ToolFault = ToolFault::Json(JsonFault::MissingMember(Place {
    owner: TypeId(0),
    slot: Some(2),
}));

const LINE: &str = "75 MissingMember in type 0 slot 2";

const ENDED: &str = "75 MissingMember in type 0 slot 2\n";

/// The longest file that is read.
const MOST: u32 = 2_147_483_647;

fn try_take(rt: &HostRuntime, example: &Example, arms: bool) -> CallOutcome {
    let mut from = Heard::over(example.bytes);
    arm(rt, arms);
    let answer = take_all(rt.alloc(), &mut from, MOST);
    disarm(rt, arms);
    of_bytes(answer, example.bytes)
}

/// A line of words.
const WORDS: &str = "check --raw-binary s b";

fn words(alloc: Global) -> Result<Vec<String>, AllocError> {
    WORDS
        .split(' ')
        .map(|word| word.to_string(alloc))
        .try_collect(alloc)
}

fn is_asked(request: &Request) -> bool {
    match request {
        Request::Do(task, None) => is_check(task),
        _ => false,
    }
}

fn is_check(task: &Task) -> bool {
    match (task.verb, &task.inputs) {
        (Verb::Check { raw: true }, Inputs::One(bin)) => {
            task.schema.as_str() == "s" && bin.as_str() == "b"
        }
        _ => false,
    }
}

fn try_request_of(rt: &HostRuntime, arms: bool) -> CallOutcome {
    let Ok(words) = words(rt.alloc()) else {
        return CallOutcome::Wrong;
    };
    arm(rt, arms);
    let answer = request_of(rt.alloc(), words.as_slice());
    disarm(rt, arms);
    match answer {
        Ok(request) => CallOutcome::of(is_asked(&request)),
        Err(error) if error.kind() == ErrorKind::OutOfMemory => CallOutcome::Short(0),
        Err(_) => CallOutcome::Wrong,
    }
}

fn try_line(rt: &HostRuntime, arms: bool) -> CallOutcome {
    arm(rt, arms);
    let answer = fault_line(rt.alloc(), &FAULT);
    disarm(rt, arms);
    match answer {
        Ok(line) => CallOutcome::of(line.as_str() == LINE),
        Err(_) => CallOutcome::Short(0),
    }
}

/// Whether a report on a fault writes its line and returns 1; it takes no memory.
pub(crate) fn is_reported(alloc: Global) -> bool {
    let mut out = Matching::one("");
    let mut err = Matching::one(ENDED);
    report(alloc, Err(FAULT), &mut out, &mut err) == 1 && out.is_first() && err.is_first()
}

/// The same, to writers that remember whether their last write failed.
pub(crate) fn is_report_noted(alloc: Global) -> bool {
    let mut out = Noted::over(Matching::one(""));
    let mut err = Noted::over(Matching::one(ENDED));
    report_noted(alloc, Err(FAULT), &mut out, &mut err) == 1
        && out.into_inner().is_first()
        && err.into_inner().is_first()
}

/// What comes of a call of the command; None where it is none of these.
pub(crate) fn try_command_call(
    rt: &HostRuntime,
    call: &str,
    example: &Example,
    arms: bool,
) -> Option<CallOutcome> {
    match call {
        "take_all" => Some(try_take(rt, example, arms)),
        "request_of" => Some(try_request_of(rt, arms)),
        "fault_line" => Some(try_line(rt, arms)),
        _ => None,
    }
}
