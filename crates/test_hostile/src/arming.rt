//! The part of a run whose growths may be refused, and what came of a call there.
use flatc_tool::ToolFault;
use std::io::{self, Write};

/// What came of a call: the right answer, that memory ran out by the number of its layer, or anything else.
#[derive(Clone, Copy, PartialEq, Eq, Drop)]
pub(crate) enum CallOutcome {
    Right,
    /// 0 for an allocation error without a number.
    Short(u8),
    Wrong,
}

impl CallOutcome {
    pub(crate) fn of(is_right: bool) -> CallOutcome {
        if is_right {
            CallOutcome::Right
        } else {
            CallOutcome::Wrong
        }
    }

    /// Of a refusal: `Short` for a number that says that memory ran out.
    pub(crate) fn of_refusal(number: u8) -> CallOutcome {
        match number {
            7 | 23 | 32 | 41 | 64 | 80 | 84 | 114 => CallOutcome::Short(number),
            _ => CallOutcome::Wrong,
        }
    }
}

/// What came of a call that returns bytes.
pub(crate) fn of_bytes(answer: Result<Vec<u8>, ToolFault>, want: &[u8]) -> CallOutcome {
    match answer {
        Ok(bytes) => CallOutcome::of(bytes.as_slice() == want),
        Err(fault) => CallOutcome::of_refusal(fault.number()),
    }
}

/// What came of a call that returns a text.
pub(crate) fn of_text(answer: Result<String, ToolFault>, want: &str) -> CallOutcome {
    match answer {
        Ok(text) => CallOutcome::of(text.as_str() == want),
        Err(fault) => CallOutcome::of_refusal(fault.number()),
    }
}

/// What came of a call that returns nothing.
pub(crate) fn of_done(answer: Result<(), ToolFault>) -> CallOutcome {
    match answer {
        Ok(()) => CallOutcome::Right,
        Err(fault) => CallOutcome::of_refusal(fault.number()),
    }
}

/// From here on growths may be refused if a call `arms`, where the run is preloaded with what refuses them. A line
/// that can't be written shows: no growth is counted then.
pub(crate) fn arm(rt: &HostRuntime, arms: bool) {
    if arms {
        let _sent = rt.stdout().write_all(b"armed\n");
    }
}

/// From here on no growth is refused.
pub(crate) fn disarm(rt: &HostRuntime, arms: bool) {
    if arms {
        let _sent = rt.stdout().write_all(b"disarmed\n");
    }
}

/// A writer that takes all that it is brought, and knows whether it is one of two texts; no memory is
/// allocated.
#[derive(Clone, Copy, Drop)]
pub(crate) struct Matching<'t> {
    left: Option<&'t [u8]>,
    other_left: Option<&'t [u8]>,
}

fn rest_of<'t>(left: Option<&'t [u8]>, bytes: &[u8]) -> Option<&'t [u8]> {
    match left {
        Some(left) => left.strip_prefix(bytes),
        None => None,
    }
}

fn is_done(left: Option<&[u8]>) -> bool {
    match left {
        Some(left) => left.is_empty(),
        None => false,
    }
}

impl<'t> Matching<'t> {
    pub(crate) fn one(text: &'t str) -> Matching<'t> {
        Matching {
            left: Some(text.as_bytes()),
            other_left: None,
        }
    }

    pub(crate) fn either(text: &'t str, other: &'t str) -> Matching<'t> {
        Matching {
            left: Some(text.as_bytes()),
            other_left: Some(other.as_bytes()),
        }
    }

    /// Whether the first text was written, whole.
    pub(crate) fn is_first(&self) -> bool {
        is_done(self.left)
    }

    /// Whether the other text was written, whole.
    pub(crate) fn is_other(&self) -> bool {
        is_done(self.other_left)
    }
}

impl Write for Matching<'_> {
    ghost use Rattle.std.specs.Prelude.{None};

    ghost contents = { λ _. None };

    fn write(&mut self, buf: &[u8]) -> io::Result<usize> {
        self.left = rest_of(self.left, buf);
        self.other_left = rest_of(self.other_left, buf);
        Ok(buf.len())
    }

    fn flush(&mut self) -> io::Result<()> {
        Ok(())
    }
}
