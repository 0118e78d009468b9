//! Rows of tests, one a line of the files that the arguments name: what a schema text gives, and what values come of
//! JSON texts and bytes under one, compared with what the row wants.
#![tactic(auto)]

mod cuts;
mod faults;
mod fields;
mod hex;
mod repeats;
mod schemas;
mod tally;
mod trial;
mod values;

use crate::trial::try_files;
use std::process::ExitCode;
use std::{env, io};

fn main(rt: HostRuntime) -> io::Result<ExitCode> {
    let paths: Vec<String> = env::args(&rt)?.skip(1).collect(rt.alloc())?;
    try_files(&rt, paths.as_slice())
}
