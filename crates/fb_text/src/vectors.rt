//! Vectors of numbers and of texts in JSON texts.
ghost use Rattle.std.specs.Prelude.{Bool, false};
ghost use Rattle.fb_schema.specs.declared.kinds.Kind.{Kind};
ghost use Rattle.fb_layout.specs.Laid.{LaidSchema};
ghost use Rattle.fb_value.specs.Datum.{Parts};
ghost use Rattle.fb_read.specs.TypedItems.{AreNumbers, AreTexts};
ghost use Rattle.fb_text.specs.Indents.{blanks};
ghost use Rattle.fb_text.specs.Texts.{inside, items_text};
ghost use Rattle.fb_text.specs.Writes.{Prints};

use crate::indents::Indent;
use crate::lines::{put_closing, put_line};
use crate::noted::Noted;
use crate::numbers::NumberForm;
use crate::quotes::put_quoted;
use fb_layout::Layout;
use fb_read::{NumberItems, TextItems};
use fb_schema::Kind;
use std::io::Write;

/// Adds the elements of a vector of numbers, and its closing bracket.
pub(crate) fn put_numbers<W: Write>(
    out: &mut Noted<W>,
    layout: &Layout,
    indent: &Indent,
    kind: Kind,
    numbers: NumberItems,
)
    ensures { (defaults : Bool) (ds : Parts) → AreNumbers numbers.entry ds → Prints W.contents out.old out.new
        (items_text layout.now defaults (inside (blanks indent.now)) (blanks indent.now) kind false ds) }
{
    let inner = indent.inside();
    let form = NumberForm::of_many(layout.schema(), kind);
    let mut some = false;
    for i in 0..numbers.count() {
        if out.failed() {
            return; // no more of it is written
        }
        put_line(out, &inner, some);
        form.put(out, numbers.number(i));
        some = true;
    }
    put_closing(out, indent, some);
    out.put_str("]");
}

/// Adds the elements of a vector of texts, and its closing bracket.
pub(crate) fn put_texts<W: Write>(out: &mut Noted<W>, indent: &Indent, texts: TextItems)
    ensures { (L : LaidSchema) (defaults : Bool) (kind : Kind) (ds : Parts) → AreTexts texts.entry ds
        → Prints W.contents out.old out.new
        (items_text L defaults (inside (blanks indent.now)) (blanks indent.now) kind false ds) }
{
    let inner = indent.inside();
    let mut some = false;
    for i in 0..texts.count() {
        if out.failed() {
            return; // no more of it is written
        }
        put_line(out, &inner, some);
        put_quoted(out, texts.text(i));
        some = true;
    }
    put_closing(out, indent, some);
    out.put_str("]");
}
