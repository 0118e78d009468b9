//! What stands in slots, in fields and as elements, read in place.
use crate::fixed_view::FixedView;
use crate::items::Items;
use crate::view::View;

/// What is in a slot of a table or a field of a struct, or is an element of a vector.
#[derive(Clone, Copy)]
pub enum Entry<'a> {
    Absent,
    Number(i128),
    Text(&'a str),
    Fixed(FixedView<'a>),
    Table(View<'a>),
    /// A union's member, under its code.
    Member(u8, View<'a>),
    /// A union's code that no member has.
    Unknown(u8),
    Vector(Items<'a>),
}
