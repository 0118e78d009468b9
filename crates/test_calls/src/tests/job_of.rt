//! Lines of words that ask for one job over one file, and others.
use flatc_cli::{Job, job_of};
use std::alloc::{AllocError, Global};
use std::test::Fail;

/// A line that asks for one job.
const CHECK: &str = "check --raw-binary s b";

/// Lines that ask for something else, or for nothing.
const OTHERS: &[&str] = &[
    "check --explain s",
    "check s --terse",
    "explain 7",
    "check s b c",
    "json -o d s b",
    "json --lines s b",
    "json --compact s b",
    "inspect s b",
    "what",
];

fn words(alloc: Global, line: &str) -> Result<Vec<String>, AllocError> {
    line.split_whitespace()
        .map(|word| word.to_string(alloc))
        .try_collect(alloc)
}

#[test]
fn a_line_that_is_one_job(rt: HostRuntime) -> Result<(), Fail> {
    let words = words(rt.alloc(), CHECK)?;
    let job = job_of(rt.alloc(), words.as_slice());
    assert!(rt;
        matches!(&job, Ok(Job::Check { schema, bin: Some(bin), raw: true })
        if schema.as_str() == "s" && bin.as_str() == "b")
    );
    Ok(())
}

#[test]
fn lines_that_are_no_job(rt: HostRuntime) -> Result<(), Fail> {
    for line in OTHERS {
        let words = words(rt.alloc(), line)?;
        match job_of(rt.alloc(), words.as_slice()) {
            Ok(_) => assert!(rt; false, "{line} is a job"),
            Err(error) => assert_eq!(rt; error.exit_code(), 2, "at {line}"),
        }
    }
    Ok(())
}
