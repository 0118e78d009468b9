//! How much a reader takes.
ghost use Rattle.std.specs.Prelude.{◌≡◌, ◌≤◌};
ghost use Rattle.std.specs.Option.{SomeIff};

use std::marker::Model;

/// The maximum length of a buffer in bytes: the farthest that a signed offset of 32 bits reaches.
pub const MOST_BYTES: usize = 2_147_483_647;

/// The usual maximum nesting depth of tables.
pub const USUAL_DEPTH: u8 = 64;

/// The usual maximum number of cells.
pub const USUAL_CELLS: u32 = 100_000_000;

// The largest maximum nesting depth.
const MOST_DEPTH: u8 = 127;

/// The maximum nesting depth of tables, and the maximum number of cells.
#[derive(Clone, Copy, Debug)]
pub struct Limits {
    depth: u8,
    cells: u32,
}

impl Model for Limits {
    ghost use Rattle.std.specs.Prelude.{◌≤◌};
    ghost use Rattle.fb_value.specs.Bounds.{Bounds};

    ghost Value = { Bounds };

    ghost view = { λ a. record { depth = a.depth; cells = a.cells } };

    ghost invariant = { λ a. (1 ≤ a.depth) × (a.depth ≤ 127) };

    ghost inverse = { λ m. record { depth = m.depth; cells = m.cells } };
}

impl PartialEq for Limits {
    ghost use Rattle.std.specs.Prelude.{◌==◌};
    ghost use Rattle.std.proofs.Common.{rules};
    ghost use Rattle.std.specs.Cmp.Rules.{comparing};
    ghost use Rattle.std.specs.Ordering.{eq_of_both, on};

    ghost eq = { eq_of_both (on (λ m. m.depth) ◌==◌) (on (λ m. m.cells) ◌==◌) };

    ghost laws = { Prim.search (comparing, rules) };

    fn eq(&self, other: &Limits) -> bool {
        self.depth == other.depth && self.cells == other.cells
    }
}

impl Eq for Limits {
    ghost use Rattle.std.proofs.Common.{rules};
    ghost use Rattle.std.specs.Cmp.Rules.{comparing};

    ghost laws = { Prim.search (comparing, rules) };
}

impl Limits {
    /// These limits, exactly where the depth is 1 to 127.
    ///
    /// At depth 127 converting JSON to a buffer and printing it takes some 250 KiB of stack.
    pub fn new(depth: u8, cells: u32) -> Option<Limits>
        ensures { SomeIff result ((1 ≤ depth) × (depth ≤ 127)) (record { depth = depth; cells = cells }) }
    {
        if depth == 0 || depth > MOST_DEPTH {
            return None;
        }
        Some(Limits { depth, cells })
    }

    /// The maximum nesting depth of tables.
    pub fn most_depth(&self) -> u8
        ensures exact { result ≡ self.now.depth }
        ensures some { 1 ≤ result }
        ensures few { result ≤ 127 }
    {
        self.depth
    }

    /// The most cells.
    pub fn most_cells(&self) -> u32
        ensures { result ≡ self.now.cells }
    {
        self.cells
    }
}
