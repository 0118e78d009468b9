//! Why the value that a text means isn't noted.
ghost use Rattle.std.specs.Prelude.{◌≡◌};
ghost use Rattle.fb_encode.specs.Found.{IfFault};
ghost use Rattle.fb_encode.specs.declared.reader.Unread.TheVariants as the_unread;
ghost use Rattle.fb_encode.specs.declared.unnoted.Unnoted.TheVariants as the_unnoted;

use crate::reader::Unread;
use fb_json::JsonFault;
use std::alloc::AllocError;

/// Why the value that a text means isn't noted.
#[derive(Clone, Copy)]
pub(crate) enum Unnoted {
    /// The text is JSON, and this is the first fault of what it means.
    Fault(JsonFault),
    /// The text wasn't read.
    Unread(Unread),
}

impl From<JsonFault> for Unnoted {
    ghost from_gives = { λ fault unnoted. IfFault unnoted (λ f. f ≡ fault) };

    fn from(fault: JsonFault) -> Unnoted {
        match fault {
            JsonFault::Memory => Unnoted::Unread(Unread::Memory),
            _ => Unnoted::Fault(fault),
        }
    }
}

impl From<Unread> for Unnoted {
    ghost from_gives = { λ unread unnoted. unnoted ≡ the_unnoted.Unread unread };

    fn from(unread: Unread) -> Unnoted {
        Unnoted::Unread(unread)
    }
}

impl From<AllocError> for Unnoted {
    ghost from_gives = { λ _ unnoted. unnoted ≡ the_unnoted.Unread the_unread.Memory };

    fn from(_error: AllocError) -> Unnoted {
        Unnoted::Unread(Unread::Memory)
    }
}
