//! A counter of parts that contracts see and no run holds.
ghost use Rattle.std.specs.Prelude.{◌≡◌, ℕ, ◌+◌, ◌-◌};
ghost use Rattle.std.specs.Borrow.{ftrue};

use std::marker::Model;

/// The part count: how many tables, vectors and texts a reader has entered. It takes no bytes at run time.
#[derive(Drop)]
pub struct Entries {
    pub ghost count: { ℕ },
}

impl Model for Entries {
    ghost also_owns = { λ _. ftrue };
}

impl Entries {
    /// A counter at 0.
    pub fn new() -> Entries
        ensures { result.count ≡ 0 }
    {
        Entries {}
    }

    fn next(&self) -> Entries
        ensures { result.count ≡ self.now.count + 1 }
    {
        Entries {}
    }

    /// Counts one entry.
    #[inline(always)]
    pub fn tick(&mut self)
        ensures { self.new.count ≡ self.old.count + 1 }
    {
        *self = self.next();
    }

    // What this one and another have counted beyond a third.
    fn with(&self, more: &Entries, less: &Entries) -> Entries
        ensures { result.count ≡ self.now.count + more.now.count - less.now.count }
    {
        Entries {}
    }

    /// A copy.
    #[inline(always)]
    pub(crate) fn copied(&self) -> Entries
        ensures { result.count ≡ self.now.count }
    {
        let none = Entries::new();
        self.with(&none, &none)
    }

    /// What was counted beyond another count.
    #[inline(always)]
    pub(crate) fn less(&self, other: &Entries) -> Entries
        ensures { result.count ≡ self.now.count - other.now.count }
    {
        let none = Entries::new();
        self.with(&none, other)
    }

    /// Counts what another counter has counted.
    #[inline(always)]
    pub(crate) fn add(&mut self, more: &Entries)
        ensures { self.new.count ≡ self.old.count + more.now.count }
    {
        let none = Entries::new();
        *self = self.with(more, &none);
    }
}

const _: () = prove!(size_of::<Entries>() == 0);
