//! The pointer that C keeps in a handle.
// It has no type parameter and names no type for what the pointer leads to, or it could not be passed to C.
ghost use Rattle.std.specs.Prelude.{◌≡◌, Option, Some, None, IsSome};
ghost use Rattle.flatc_c.specs.declared.kept.Kept.{Kept};
ghost use Rattle.flatc_c.specs.contracts.kept.Kept.{the_row};
ghost use Rattle.flatc_c.specs.Owned.{owned};

use crate::kept::Kept;
use crate::loose::Loose;
use std::marker::Model;

/// A pointer to what a handle holds, or to nothing.
#[repr(C)]
#[derive(Drop)]
pub struct Held {
    at: *mut u8,
    pub ghost value: { Option Kept },
}

impl Model for Held {
    ghost also_owns = { λ held. owned the_row held.at held.value };
}

impl Held {
    pub(crate) fn none() -> Held
        ensures { result.value ≡ None }
    {
        Held {
            at: std::ptr::null_mut(),
        }
    }

    pub(crate) fn of(loose: Loose<Kept>) -> Held
        ensures { result.value ≡ Some loose.value }
    {
        let Loose { at } = loose;
        Held { at: at as *mut u8 }
    }

    pub(crate) fn into_loose(self) -> Loose<Kept>
        requires { IsSome self.value }
        ensures { Some result.value ≡ self.value }
    {
        let Held { at } = self;
        Loose {
            at: at as *mut Kept,
        }
    }
}

// Layouts are shared by counts, and any thread may free the block.
unsafe impl Send for Held {}
