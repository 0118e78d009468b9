//! Unions whose codes name no member.
ghost use Rattle.std.specs.Prelude.{◌≡◌, Option};
ghost use Rattle.fb_layout.specs.Laid.{LaidSchema};
ghost use Rattle.fb_value.specs.Datum.{Datum};
ghost use Rattle.fb_text.specs.Printed.{first_in_entry};
ghost use Rattle.fb_text.specs.Shown.{IsTop};
ghost use Rattle.fb_text.specs.Unnamed.{child_place};

use crate::shown::{Shown, ValueHead};
use fb_json::Place;

/// The place of an entry of a table, and of what is in anything else its own. A value that fits no
/// type may have more entries than there are slots.
fn place_in(place: Place, found: ValueHead, i: usize) -> Place
    ensures { (o : Option Datum) → IsTop found.entry o → result ≡ child_place place o i }
{
    match found {
        ValueHead::Table(owner) => Place {
            owner,
            slot: Some(i.min(65535) as u16),
        },
        _ => place,
    }
}

/// The place of the first union, in the order of printing, whose code names no member.
pub fn first_unnamed<S: Shown>(place: Place, shown: S) -> Option<Place>
    ensures { (L : LaidSchema) (o : Option Datum) → S.shows shown L o → result ≡ first_in_entry place o }
{
    let found = shown.head();
    if let ValueHead::Unknown = found {
        return Some(place);
    }
    let end = shown.searched();
    let mut i = shown.next_searched(0, end);
    while i < end {
        if shown.is_searched(i) {
            let unnamed = first_unnamed(place_in(place, found, i), shown.child(i));
            if unnamed.is_some() {
                return unnamed;
            }
        }
        i = shown.next_searched(i + 1, end);
    }
    None
}
