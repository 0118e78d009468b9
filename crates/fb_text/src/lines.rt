//! The lines of a JSON text.
ghost use Rattle.std.specs.Prelude.{◌≡◌, ◌++◌, [], codes, Some, true, IfSome, if◌then◌else◌};
ghost use Rattle.std.specs.Option.{unwrap_or};
ghost use Rattle.fb_text.specs.Indents.{blanks, levels_blanks};
ghost use Rattle.fb_text.specs.Texts.{line, closing, colon, member_line, in_quotes};
ghost use Rattle.fb_text.specs.Writes.{Prints};

use crate::indents::Indent;
use crate::noted::Noted;
use std::io::Write;

/// Adds the blanks of so many levels, up to 32 of them in one piece.
fn put_levels<W: Write>(out: &mut Noted<W>, levels: u64)
    ensures { Prints W.contents out.old out.new (levels_blanks levels) }
{
    let blanks = b"                                                                ";
    let mut left = levels;
    while left > 32 {
        out.put(blanks);
        left -= 32;
    }
    out.put(&blanks[..2 * left as usize]);
}

/// Adds the blanks of an indent.
#[tactic(auto, using(crate::proofs::noted::PiecesAddUp::added_then))]
fn put_blanks<W: Write>(out: &mut Noted<W>, indent: &Indent)
    ensures { Prints W.contents out.old out.new (unwrap_or (blanks indent.now) []) }
{
    match indent {
        Indent::Compact => {}
        Indent::Levels(levels) => put_levels(out, *levels),
        Indent::Deeper(outer, levels) => {
            put_blanks(out, outer);
            put_levels(out, *levels);
        }
    }
}

/// Adds a comma, if something is in front, and a new line with its indent, if there are lines.
#[cold]
#[inline(never)]
fn put_far_line<W: Write>(out: &mut Noted<W>, indent: &Indent, some: bool)
    ensures { Prints W.contents out.old out.new (line (blanks indent.now) some) }
{
    if let Indent::Compact = indent {
        return out.put_str(if some { "," } else { "" });
    }
    out.put_str(if some { ",\n" } else { "\n" });
    put_blanks(out, indent);
}

/// Adds the comma, the line feed and the indent before a member or an element.
///
/// A piece of 16 bytes has room for those of seven levels.
#[inline(always)]
pub(crate) fn put_line<W: Write>(out: &mut Noted<W>, indent: &Indent, some: bool)
    ensures { Prints W.contents out.old out.new (line (blanks indent.now) some) }
{
    let Indent::Levels(levels) = indent else {
        return put_far_line(out, indent, some);
    };
    if *levels > 7 {
        return put_far_line(out, indent, some);
    }
    let blanks = 2 * *levels as usize;
    if some {
        out.put_front(b",\n              ", 2 + blanks);
    } else {
        out.put_front(b"\n               ", 1 + blanks);
    }
}

/// Adds what is in front of a closing bracket.
pub(crate) fn put_closing<W: Write>(out: &mut Noted<W>, indent: &Indent, some: bool)
    ensures { Prints W.contents out.old out.new (closing (blanks indent.now) some) }
{
    if some {
        put_line(out, indent, false);
    }
}

/// Adds the line of a member up to its value. That of a union's code is called `x_type` where its member is `x`.
#[tactic(auto, using(crate::proofs::noted::PiecesAddUp::added_then))]
pub(crate) fn put_member_line<W: Write>(
    out: &mut Noted<W>,
    indent: &Indent,
    some: bool,
    name: &str,
    is_code: bool,
)
    ensures { Prints W.contents out.old out.new
        (member_line (blanks indent.now) some name.now (if is_code then codes "_type" else [])) }
{
    put_line(out, indent, some);
    if let Indent::Compact = indent {
        let ending = if is_code { "_type\":" } else { "\":" };
        return out.put_three("\"", name, ending);
    }
    if is_code {
        return out.put_three("\"", name, "_type\": ");
    }
    out.put_three("\"", name, "\": ");
}

/// Adds a name in quotes.
pub(crate) fn put_name<W: Write>(out: &mut Noted<W>, name: &str)
    ensures { Prints W.contents out.old out.new (in_quotes name.now) }
{
    out.put_in_quotes(name);
}
