//! Laws of printed texts.
ghost use Rattle.fb_text.specs.Laws.{NamesAreUtf8, SpacedTextsAreUtf8, TextsAreUtf8};

use fb_layout::Layout;

/// The names of a layout's fields, values and members are UTF-8, since each is a `String`.
pub fn names_are_utf8(layout: &Layout)
    ensures { NamesAreUtf8 layout.now.schema }
{
    let _types = layout.schema().types();
}

/// The indented text of a value that fits the root is UTF-8.
pub fn texts_are_utf8(layout: &Layout)
    ensures { TextsAreUtf8 layout.now }
{
    spaced_texts_are_utf8(layout);
}

/// The text of a value that fits the root is UTF-8, however it is spaced: its strings are, and the
/// layout's names are `String`s.
pub fn spaced_texts_are_utf8(layout: &Layout)
    ensures { SpacedTextsAreUtf8 layout.now }
{
    names_are_utf8(layout);
}
