//! The status of a run over many files.
ghost use Rattle.std.specs.Prelude.{◌≡◌, ◌++◌, ◌∷◌, [], Bool, List};
ghost use Rattle.flatc_files.specs.Runs.{IsStatusOf, status_of};

/// Whether one of the files so far was refused.
#[derive(Clone, Copy, Debug, PartialEq, Eq, Drop)]
pub struct RunStatus {
    refused: bool,
}

impl RunStatus {
    /// Before the first file.
    pub fn new() -> RunStatus
        ensures { IsStatusOf result [] }
    {
        RunStatus { refused: false }
    }

    /// Notes one more file, which was done or refused.
    pub fn note(&mut self, is_done: bool)
        ensures { (before : List Bool) → IsStatusOf self.old before → IsStatusOf self.new (before ++ is_done ∷ []) }
    {
        self.refused = self.refused || !is_done;
    }

    /// The process's status: 1 where a file was refused, else 0.
    pub fn code(self) -> u8
        ensures { (done : List Bool) → IsStatusOf self done → result ≡ status_of done }
    {
        if self.refused { 1 } else { 0 }
    }
}
