//! Values in buffers, as a printer reads them.

ghost use Rattle.std.specs.Prelude.{◌≡◌};
ghost use Rattle.fb_text.specs.Unnamed.{may_have_unions};

use crate::shown::{Shown, ValueHead};
use fb_read::{Entry, NumberItems, TextItems};
use fb_schema::{Kind, Shape};

/// Whether what is stored under a shape may be a union or have one in it.
fn may_have_unions(shape: Shape) -> bool
    ensures { result ≡ may_have_unions shape }
{
    matches!(
        shape,
        Shape::One(Kind::Table(_) | Kind::Union(_)) | Shape::Many(Kind::Table(_))
    )
}

impl Shown for Entry<'_> {
    ghost use Rattle.fb_read.specs.Weights.{ShowsEntry};
    ghost use Rattle.fb_text.specs.Stored.{entry_weight, len_in};

    ghost shows = { λ e L o. ShowsEntry L e o };

    ghost weight = { entry_weight };

    ghost width = { len_in };

    #[inline]
    fn head(&self) -> ValueHead<'_> {
        match self {
            Entry::Absent => ValueHead::Absent,
            Entry::Number(number) => ValueHead::Number(*number),
            Entry::Text(text) => ValueHead::Text(text),
            Entry::Fixed(_) => ValueHead::Struct,
            Entry::Table(view) => ValueHead::Table(view.type_id()),
            Entry::Member(code, _) => ValueHead::Member(*code),
            Entry::Unknown(_) => ValueHead::Unknown,
            Entry::Vector(_) => ValueHead::Vector,
        }
    }

    #[inline]
    fn printed_slots(self, defaults: bool, all: usize) -> usize {
        match self {
            Entry::Table(_) if defaults => all,
            Entry::Table(view) => all.min(usize::from(view.stored_slots())),
            _ => 0,
        }
    }

    #[inline]
    fn next_printed(self, defaults: bool, from: usize, end: usize) -> usize {
        match self {
            Entry::Table(view) if !defaults => view.next_stored(from, end),
            _ => from,
        }
    }

    #[inline]
    fn count(self) -> usize {
        match self {
            Entry::Vector(items) => items.count() as usize,
            _ => 0,
        }
    }

    #[inline]
    fn numbers(&self) -> Option<NumberItems<'_>> {
        match self {
            Entry::Vector(items) => items.numbers(),
            _ => None,
        }
    }

    #[inline]
    fn texts(&self) -> Option<TextItems<'_>> {
        match self {
            Entry::Vector(items) => items.texts(),
            _ => None,
        }
    }

    #[inline]
    fn searched(&self) -> usize {
        match self {
            Entry::Table(view) => usize::from(view.stored_slots()),
            Entry::Member(_, _) => 1,
            Entry::Vector(items) => match items.kind {
                Kind::Table(_) => items.count() as usize,
                _ => 0,
            },
            Entry::Fixed(_) => 0,
            Entry::Absent | Entry::Number(_) | Entry::Text(_) | Entry::Unknown(_) => 0,
        }
    }

    #[inline]
    fn next_searched(&self, from: usize, end: usize) -> usize {
        match self {
            Entry::Table(view) => view.next_stored(from, end),
            _ => from,
        }
    }

    #[inline]
    fn is_searched(&self, i: usize) -> bool {
        let Entry::Table(view) = self else {
            return true;
        };
        let slots = view.layout().slots_of(view.type_id());
        if i >= slots.len() {
            return true;
        }
        may_have_unions(slots[i].shape)
    }

    #[inline(always)]
    fn child(self, i: usize) -> Self {
        match self {
            Entry::Table(view) => view.slot(i as u16),
            Entry::Fixed(view) => view.part(i as u16),
            Entry::Vector(items) => {
                if i < items.count() as usize {
                    items.item(i as u32)
                } else {
                    Entry::Absent
                }
            }
            Entry::Member(_, view) => {
                if i == 0 {
                    Entry::Table(view)
                } else {
                    Entry::Absent
                }
            }
            Entry::Absent | Entry::Number(_) | Entry::Text(_) | Entry::Unknown(_) => Entry::Absent,
        }
    }
}
