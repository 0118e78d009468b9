//! How many rows hold.
use crate::trial::RowVerdict;
use std::alloc::{AllocError, Global};
use std::io::{self, Write};
use std::process::ExitCode;

/// How many rows of each kind hold, and how many rows are wrong.
#[derive(Drop)]
pub(crate) struct RowTally {
    kinds: Vec<(&'static str, u64)>,
    wrong: u64,
}

impl RowTally {
    /// No row of any of these kinds.
    pub(crate) fn new(alloc: Global, names: &[&'static str]) -> Result<RowTally, AllocError> {
        let mut kinds = Vec::new(alloc);
        for name in names {
            kinds.push((*name, 0u64))?;
        }
        Ok(RowTally { kinds, wrong: 0 })
    }

    /// Counts a verdict, and writes what is wrong.
    pub(crate) fn count<W: Write>(&mut self, verdict: &RowVerdict, out: &mut W) -> io::Result<()> {
        match verdict {
            RowVerdict::Holds(kind) => {
                self.hold(kind);
                Ok(())
            }
            RowVerdict::Wrong(wrong) => {
                self.wrong = self.wrong.saturating_add(1);
                writeln!(out, "{wrong}")
            }
        }
    }

    /// Counts a row that holds. One of no kind that was named is wrong.
    fn hold(&mut self, name: &str) {
        for (kind, count) in self.kinds.iter_mut() {
            if *kind == name {
                *count = count.saturating_add(1);
                return;
            }
        }
        self.wrong = self.wrong.saturating_add(1);
    }

    /// Writes the counts in one line.
    pub(crate) fn write_to<W: Write>(&self, out: &mut W) -> io::Result<()> {
        for (kind, count) in &self.kinds {
            write!(out, "{count} {kind}, ")?;
        }
        writeln!(out, "{} wrong", self.wrong)
    }

    /// Success where no row is wrong.
    pub(crate) fn status(&self) -> ExitCode {
        if self.wrong == 0 {
            ExitCode::SUCCESS
        } else {
            ExitCode::FAILURE
        }
    }
}
