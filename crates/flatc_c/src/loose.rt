//! A box of the heap as its pointer.
ghost use Rattle.std.specs.Prelude.{◌≡◌};
ghost use Rattle.std_alloc.specs.Box.Ownership.{box_owns};
ghost use Rattle.flatc_c.specs.Owned.{freeable};

use std::alloc::Global;
use std::marker::Model;

/// The pointer of a box, with the value that it leads to and the right to free the block.
pub(crate) struct Loose<T> {
    pub(crate) at: *mut T,
    pub(crate) ghost value: { T },
}

impl<T> Model for Loose<T> {
    ghost also_owns = { λ loose. box_owns freeable T.row loose.at loose.value };
}

impl<T: Drop> Loose<T> {
    pub(crate) fn of(value: Box<T>) -> Loose<T>
        ensures { result.value ≡ value.value }
    {
        let at = Box::into_raw(value);
        Loose { at }
    }

    pub(crate) fn into_box(self, alloc: Global) -> Box<T>
        ensures { result.value ≡ self.value }
    {
        let Loose { at } = self;
        unsafe { Box::from_raw(alloc, at) }
    }
}
