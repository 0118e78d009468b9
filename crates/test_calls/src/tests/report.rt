//! What is reported of an answer.
use super::writers::Front;
use flatc_tool::command::{report, report_noted};
use flatc_tool::{JsonFault, Noted, Place, ToolFault, TypeId};
use std::alloc::Global;

const TEXT: &str = "{\n  \"a\": 7\n}\n";

const FAULT: ToolFault = ToolFault::Json(JsonFault::MissingMember(Place {
    owner: TypeId(0),
    slot: Some(2),
}));

const LINE: &str = "75 MissingMember in type 0 slot 2\n";

/// The status, where the writers hold what they should.
fn reported(
    alloc: Global,
    answer: Result<&str, ToolFault>,
    mut out: Front<'_>,
    mut err: Front<'_>,
) -> Option<u8> {
    let status = report(alloc, answer, &mut out, &mut err);
    if out.is_written() && err.is_written() {
        Some(status)
    } else {
        None
    }
}

/// The same, with whether a write to each failed.
fn noted(
    alloc: Global,
    answer: Result<&str, ToolFault>,
    out: Front<'_>,
    err: Front<'_>,
) -> Option<(u8, bool, bool)> {
    let mut out = Noted::over(out);
    let mut err = Noted::over(err);
    let status = report_noted(alloc, answer, &mut out, &mut err);
    let failed = (status, out.failed(), err.failed());
    if out.into_inner().is_written() && err.into_inner().is_written() {
        Some(failed)
    } else {
        None
    }
}

#[test]
fn what_writers_take_is_whole(rt: HostRuntime) {
    let nothing = Front::of(b"", 1, true);
    let text = Front::of(TEXT.as_bytes(), 4096, true);
    let line = Front::of(LINE.as_bytes(), 4096, true);
    assert!(rt; reported(rt.alloc(), Ok(TEXT), text, nothing) == Some(0));
    assert!(rt; reported(rt.alloc(), Err(FAULT), nothing, line) == Some(1));
    assert!(rt; noted(rt.alloc(), Ok(TEXT), text, nothing) == Some((0, false, false)));
    assert!(rt; noted(rt.alloc(), Err(FAULT), nothing, line) == Some((1, false, false)));
}

#[test]
fn it_is_cut_where_a_write_fails_or_takes_nothing(rt: HostRuntime) {
    let nothing = Front::of(b"", 1, true);
    for fails in [true, false] {
        let text = Front::of(b"{\n  \"", 2, fails);
        assert!(rt; noted(rt.alloc(), Ok(TEXT), text, nothing) == Some((1, true, false)));
        let line = Front::of(b"75 Mi", 2, fails);
        assert!(rt; noted(rt.alloc(), Err(FAULT), nothing, line) == Some((1, false, true)));
    }
}
