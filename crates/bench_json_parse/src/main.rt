//! Parses the JSON text of a file and does nothing else, so that its memory can be measured.
#![tactic(auto)]

use serde_json::Value;
use std::process::ExitCode;
use std::{env, fs, io};

/// Whether the file that the first argument names is a JSON text.
fn is_json(rt: &HostRuntime) -> io::Result<bool> {
    let words: Vec<String> = env::args(rt)?.skip(1).collect(rt.alloc())?;
    let Some(path) = words.first() else {
        return Ok(false);
    };
    let text = fs::read(rt, path.as_str())?;
    Ok(Value::from_slice(rt.alloc(), text.as_slice()).is_ok())
}

fn main(rt: HostRuntime) -> ExitCode {
    match is_json(&rt) {
        Ok(true) => ExitCode::SUCCESS,
        _ => ExitCode::FAILURE,
    }
}
