//! The counter that one reading begins and its walk can't forge.
//!
//! What a walk enters is counted by the counter that it borrows. A walk that made a counter of its own
//! could enter each table twice and count it once. So only `visit_buffer` makes one. It can't be dropped: what it has
//! counted is added to the caller's part count, once, there.
ghost use Rattle.std.specs.Prelude.{◌≡◌, ◌+◌, ◌-◌, ◌≤◌, OnOk, IfErr, IsTrue, Some};
ghost use Rattle.fb_value.specs.Holds.{root_at, front_of};
ghost use Rattle.fb_value.specs.Faults.{fault_from};
ghost use Rattle.fb_read.specs.Entered.{EntersToFault};
ghost use Rattle.fb_read.specs.FaultPaths.{Hears};
ghost use Rattle.fb_read.specs.Values.{Finds};
ghost use Rattle.fb_read.specs.Walks.{limits_of, EntersAt};
ghost use Rattle.fb_read.specs.Whole.{WholeAt};

use crate::buffer::Buffer;
use crate::entries::Entries;
use crate::hearer::Hearer;
use crate::visit_tables::visit_table_behind;
use crate::walk::Walk;
use fb_value::{ReadFault, front_of};
use std::marker::Model;

/// Walks over all that is reached from the root of a buffer, which may be `prefixed`, and returns the hearer.
/// `entries` rises by one for each table, vector and text that is entered.
///
/// The flag is set where the walk has passed over no part and each union's code that it has met is known to the schema.
#[inline(always)]
pub fn visit_buffer<H: Hearer>(
    buffer: &Buffer,
    hearer: H,
    prefixed: bool,
    entries: &mut Entries,
) -> (H, Result<(), ReadFault>, bool)
    requires knows { H.knows hearer buffer.now }
    ensures finds { Finds result.1 (fault_from buffer.now.layout.now buffer.now.bytes.now (limits_of buffer.now)
        (root_at buffer.now.layout.now (front_of prefixed)) 0 0) }
    ensures hears { Hears H.told buffer.now (Some (root_at buffer.now.layout.now (front_of prefixed))) 0 0 hearer
        result.0 result.1 }
    ensures rises { entries.old.count ≤ entries.new.count }
    ensures counted { entries.new.count ≤ entries.old.count + (buffer.now.most_cells + 1) }
    ensures each { OnOk result.1 (EntersAt buffer.now (root_at buffer.now.layout.now (front_of prefixed))
        entries.old.count entries.new.count) }
    ensures refused { IfErr result.1 (λ f. EntersToFault buffer.now.layout.now buffer.now.bytes.now
        (limits_of buffer.now) (root_at buffer.now.layout.now (front_of prefixed)) f entries.old.count
        entries.new.count) }
    ensures whole { OnOk result.1 (IsTrue result.2 → WholeAt buffer.now (root_at buffer.now.layout.now
        (front_of prefixed))) }
{
    let mut walk = Walk {
        spent: 0,
        ticks: Ticks::new(),
        whole: true,
        hearer,
    };
    let root = buffer.layout.schema().root();
    let visited = visit_table_behind(buffer, &mut walk, root, front_of(prefixed), 0);
    let Walk {
        spent: _,
        ticks,
        whole,
        hearer,
    } = walk;
    ticks.add_to(entries);
    (hearer, visited, whole)
}

/// How many tables, vectors and texts a walk has entered. It takes no bytes at run time, and can't be dropped.
pub struct Ticks {
    entries: Entries,
}

impl Model for Ticks {
    ghost use Rattle.std.specs.Prelude.{ℕ};

    ghost Value = { ℕ };

    ghost view = { λ ticks. ticks.entries.count };
}

/// How many tables, vectors and texts a walk has entered at a part. Only a walk makes one, and it takes no bytes at run
/// time.
#[derive(Drop)]
pub struct Counted {
    entries: Entries,
}

impl Model for Counted {
    ghost use Rattle.std.specs.Prelude.{ℕ};

    ghost Value = { ℕ };

    ghost view = { λ counted. counted.entries.count };
}

impl Counted {
    /// A copy.
    #[inline(always)]
    pub fn copied(&self) -> Counted
        ensures { result ≡ self.now }
    {
        Counted {
            entries: self.entries.copied(),
        }
    }
}

impl Ticks {
    fn new() -> Ticks
        ensures { result ≡ 0 }
    {
        Ticks {
            entries: Entries::new(),
        }
    }

    /// Counts one entry.
    #[inline(always)]
    pub fn tick(&mut self)
        ensures { self.new ≡ self.old + 1 }
    {
        self.entries.tick();
    }

    /// What it has counted.
    #[inline(always)]
    pub(crate) fn counted(&self) -> Counted
        ensures { result ≡ self.now }
    {
        Counted {
            entries: self.entries.copied(),
        }
    }

    /// What it has counted since then.
    #[inline(always)]
    pub(crate) fn counted_since(&self, then: &Counted) -> Counted
        ensures { result ≡ self.now - then.now }
    {
        Counted {
            entries: self.entries.less(&then.entries),
        }
    }

    /// Counts what was entered at a part once more.
    #[inline(always)]
    pub(crate) fn count_again(&mut self, counted: &Counted)
        ensures { self.new ≡ self.old + counted.now }
    {
        self.entries.add(&counted.entries);
    }

    /// Ends the counter: what it has counted is counted by another.
    fn add_to(self, entries: &mut Entries)
        ensures { entries.new.count ≡ entries.old.count + self }
    {
        let Ticks { entries: counted } = self;
        entries.add(&counted);
    }
}

const _: () = prove!(size_of::<Ticks>() == 0);

const _: () = prove!(size_of::<Counted>() == 0);
