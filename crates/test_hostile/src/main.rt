//! `hostile CALL EXAMPLE` makes one call of the crates, while growths of the heap may be refused;
//! `hostile soak` damages buffers under schemas that it reads; `hostile deep CALL LEVELS` makes a call
//! on what is nested deep; `hostile pieces` reads JSON texts in pieces and at once; without words each
//! call is made once on each example.
#![tactic(auto)]

mod arming;
mod commands;
mod deep;
mod diagnoses;
mod dice;
mod examples;
mod jobs;
mod layouts;
mod meanings;
mod memoryless;
mod pieces;
mod schemas;
mod soak;
mod values;

use crate::arming::CallOutcome;
use crate::commands::try_command_call;
use crate::deep::go_deep;
use crate::diagnoses::try_explain;
use crate::examples::{EXAMPLES, Example};
use crate::jobs::try_job;
use crate::layouts::try_layout_call;
use crate::pieces::tell_pieces;
use crate::schemas::try_schema_call;
use crate::soak::soak;
use std::process::ExitCode;
use std::{env, io};

const CALLS: &[&str] = &[
    "parse",
    "declare",
    "lay",
    "schema_of",
    "copy",
    "plan",
    "build",
    "read",
    "value_of",
    "text_of",
    "carry",
    "encode",
    "encode_plan",
    "encode_pieces",
    "decode",
    "to_binary",
    "to_json",
    "print_to",
    "check",
    "conform_texts",
    "conform_names",
    "take_all",
    "request_of",
    "fault_line",
    "fault_path",
    "json_fault_path",
    "text_fault_path",
    "all_breaches",
    "explain_json",
    "explain_bytes",
    "explain_schema",
    "memoryless",
];

/// What comes of a call, whose growths may be refused if it `arms`; None where there is no such call.
fn try_call(rt: &HostRuntime, call: &str, example: &Example, arms: bool) -> Option<CallOutcome> {
    if let Some(outcome) = try_schema_call(rt, call, example, arms) {
        return Some(outcome);
    }
    if let Some(outcome) = try_job(rt, call, example, arms) {
        return Some(outcome);
    }
    if let Some(outcome) = try_command_call(rt, call, example, arms) {
        return Some(outcome);
    }
    if let Some(outcome) = try_explain(rt, call, example, arms) {
        return Some(outcome);
    }
    try_layout_call(rt, call, example, arms)
}

fn print_outcome(rt: &HostRuntime, outcome: CallOutcome) -> io::Result<()> {
    match outcome {
        CallOutcome::Right => print!(rt; "right"),
        CallOutcome::Short(number) => print!(rt; "memory {number}"),
        CallOutcome::Wrong => print!(rt; "wrong"),
    }
}

/// Prints what comes of a call, and returns whether it is right in the end.
fn show(rt: &HostRuntime, call: &str, example: &Example) -> io::Result<bool> {
    let name = example.name;
    let Some(first) = try_call(rt, call, example, true) else {
        println!(rt; "{call} {name}: no such call")?;
        return Ok(false);
    };
    let again = try_call(rt, call, example, false).unwrap_or(CallOutcome::Wrong);
    print!(rt; "{call} {name}: ")?;
    print_outcome(rt, first)?;
    print!(rt; ", then ")?;
    print_outcome(rt, again)?;
    println!(rt; "")?;
    Ok(first != CallOutcome::Wrong && again == CallOutcome::Right)
}

/// Each call on each example.
fn show_all(rt: &HostRuntime) -> io::Result<bool> {
    let mut all = true;
    for call in CALLS {
        for example in EXAMPLES {
            all = show(rt, call, example)? && all;
        }
    }
    Ok(all)
}

fn show_one(rt: &HostRuntime, call: &str, name: &str) -> io::Result<bool> {
    for example in EXAMPLES {
        if example.name == name {
            return show(rt, call, example);
        }
    }
    Ok(false)
}

/// Soaks each line of the input, or tells its outcomes in pieces.
fn take_lines(rt: &HostRuntime, are_pieces: bool) -> io::Result<()> {
    let text = io::read_to_string(rt.alloc(), rt.reader())?;
    for line in text.lines() {
        if are_pieces {
            tell_pieces(rt, line)?;
        } else {
            soak(rt, line)?;
        }
    }
    Ok(())
}

/// Does what the words ask for, and returns whether all is right.
fn run(rt: &HostRuntime, words: &[String]) -> io::Result<bool> {
    match words {
        [] => show_all(rt),
        [call, name] => show_one(rt, call.as_str(), name.as_str()),
        [_, call, levels] => match levels.as_str().parse::<u64>() {
            Ok(levels) => go_deep(rt, call.as_str(), levels),
            Err(_) => Ok(false),
        },
        [word, ..] => {
            take_lines(rt, word.as_str() == "pieces")?;
            Ok(true)
        }
    }
}

fn main(rt: HostRuntime) -> io::Result<ExitCode> {
    let words: Vec<String> = env::args(&rt)?.skip(1).collect(rt.alloc())?;
    let is_right = run(&rt, words.as_slice())?;
    Ok(if is_right {
        ExitCode::SUCCESS
    } else {
        ExitCode::FAILURE
    })
}
