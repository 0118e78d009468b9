//! Basic types and shapes, as a schema's text writes them.
use crate::note::Note;
use fb_schema::{Base, Shape};

/// Adds a field's type, of which one value's type has this name.
pub fn push_shape(note: &mut Note, shape: Shape, name: &str) {
    match shape {
        Shape::One(_) => note.push_str(name),
        Shape::Many(_) => {
            note.push_str("[");
            note.push_str(name);
            note.push_str("]")
        }
    }
}

/// The numbers of a basic type.
pub fn range_of_base(base: Base) -> &'static str {
    match base {
        Base::Bool => "true, false, 0 or 1",
        Base::I8 => "-128 to 127",
        Base::U8 => "0 to 255",
        Base::I16 => "-32768 to 32767",
        Base::U16 => "0 to 65535",
        Base::I32 => "-2147483648 to 2147483647",
        Base::U32 => "0 to 4294967295",
        Base::I64 => "-9223372036854775808 to 9223372036854775807",
        Base::U64 => "0 to 18446744073709551615",
    }
}
