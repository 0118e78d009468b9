//! The operations of a tape.
ghost use Rattle.std.specs.Prelude.{◌≡◌, ◌≤◌};
ghost use Rattle.fb_tape.specs.Alignments.{aligned_to};

/// An alignment, a power of two that is 256 at most, in one byte: one less than it is.
#[derive(Clone, Copy, Debug, PartialEq, Eq)]
pub struct Alignment {
    less_one: u8,
}

impl Alignment {
    pub(crate) fn of(number: u16) -> Alignment
        requires some { 1 ≤ number }
        requires few { number ≤ 256 }
        ensures { aligned_to result ≡ number }
    {
        Alignment {
            less_one: (number - 1) as u8,
        }
    }

    /// How many bytes it is.
    pub fn bytes(self) -> usize
        ensures { result ≡ aligned_to self }
    {
        self.less_one as usize + 1
    }
}

/// What is laid next. An operation that refers to parts takes them from those that wait, of which it knows the count;
/// the part that it lays waits in turn.
#[derive(Clone, Copy, Debug, PartialEq, Eq)]
pub enum Op {
    /// A text, or a vector of numbers or structs: the tape's next bytes, of which the first four are the count.
    Data {
        /// What the bytes after the count are aligned to.
        align: Alignment,
        size: u32,
    },
    /// A vector of references to the parts that were laid last.
    References {
        count: u32,
    },
    /// A table with the tape's next fields, whose references are to the parts that were laid last.
    Table {
        /// What the end of its fields is aligned to.
        align: Alignment,
        fields: u16,
        vtable: u32,
    },
}

/// A field of a table, in the order of laying.
#[derive(Clone, Copy, Debug, PartialEq, Eq)]
pub enum NotedField {
    Reference,
    /// A number or a struct: so many of the tape's next bytes.
    Inline(u16),
}

const _: () = prove!(size_of::<Op>() == 8);

const _: () = prove!(size_of::<NotedField>() == 4);
