//! How far a run over many files is, on a terminal.
use std::io::IsTerminal;
use std::time::{Duration, Instant};

// In milliseconds: shorter work isn't shown, and how long a line stays at least.
const QUIET: u64 = 1000;

const STEP: u64 = 100;

/// The files that are done, of all; shown on standard error where that is a terminal.
#[derive(Drop)]
pub struct Progress {
    total: usize,
    /// When the next line may come; none where nothing is shown.
    next: Option<Instant>,
    shown: bool,
}

impl Progress {
    /// Before the first file.
    pub fn new(rt: &HostRuntime, total: usize) -> Progress {
        let next = if rt.stderr().is_terminal() {
            later(rt, QUIET)
        } else {
            None
        };
        Progress {
            total,
            next,
            shown: false,
        }
    }

    /// Shows that so many are done, where it is time for that.
    pub fn show(&mut self, rt: &HostRuntime, done: usize) {
        let Some(next) = self.next else {
            return;
        };
        if !Instant::now(rt).is_ok_and(|now| now >= next) {
            return;
        }
        let total = self.total;
        let _shown = eprint!(rt; "\r{done} of {total}");
        self.shown = true;
        self.next = later(rt, STEP);
    }

    /// Clears the line that is shown.
    pub fn clear(&mut self, rt: &HostRuntime) {
        if self.shown {
            let _cleared = eprint!(rt; "\r\u{1b}[K");
            self.shown = false;
        }
    }
}

/// The instant `by` milliseconds from now; none if the clock can't be read.
fn later(rt: &HostRuntime, by: u64) -> Option<Instant> {
    Instant::now(rt)
        .ok()?
        .checked_add(Duration::from_millis(by))
}
