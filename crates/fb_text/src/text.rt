//! The JSON text of a value of the root table.
ghost use Rattle.std.specs.Prelude.{◌≡◌, ◌↔◌, Some, false, IsErr, IsTrue};
ghost use Rattle.fb_value.specs.Datum.{Datum};
ghost use Rattle.fb_read.specs.Shows.{Shows};
ghost use Rattle.fb_json.specs.Meant.{type_place};
ghost use Rattle.fb_text.specs.Texts.{json_text, spaced_text};
ghost use Rattle.fb_text.specs.Noted.{write_failed, writer_of};
ghost use Rattle.fb_text.specs.Printed.{IsPrinted, TellsFailure, IfUnnamed};
ghost use Rattle.fb_text.specs.Unnamed.{first_unnamed};
ghost use Rattle.fb_text.specs.Writes.{IsWritten};

use crate::faults::WriteFault;
use crate::indents::{Indent, Spacing};
use crate::lines::put_line;
use crate::noted::Noted;
use crate::shown::Shown;
use crate::unnamed::first_unnamed;
use crate::values::{Style, put_value};
use fb_json::Place;
use fb_read::{Entry, View};
use fb_schema::{Kind, Shape};
use std::io::Write;

/// Writes the text of a value of the root table, and the line feed at its end if it has lines, from
/// wherever it is read. It is JSON only where `first_unnamed` finds no union: none of that kind has a
/// text.
pub fn write_shown<W: Write, S: Shown>(
    shown: S,
    style: Style,
    spacing: Spacing,
    out: &mut Noted<W>,
) -> Result<(), WriteFault>
    requires { write_failed out.old ≡ false }
    ensures written { (d : Datum) → S.shows shown style.entry.layout.now (Some d)
        → IsWritten (W.contents (writer_of out.old)) (W.contents (writer_of out.new))
        (spaced_text spacing style.entry.layout.now style.entry.defaults d) result }
    ensures failed { IsErr result ↔ IsTrue (write_failed out.new) }
    ensures named { IfUnnamed result ⊥ }
{
    out.begin();
    let edge = Indent::edge(spacing);
    let shape = Shape::One(Kind::Table(style.layout.schema().root()));
    put_value(out, style, &edge, shape, shown);
    put_line(out, &edge, false);
    out.finish()
}

/// The place of the first union, in the order of printing, whose code names no member. A table that is known to be
/// whole has none, and isn't searched.
fn unnamed_in(view: &View) -> Option<Place>
    ensures { (d : Datum) → Shows view.now d → result ≡ first_unnamed (type_place view.now.table.0) d }
{
    if view.is_known_whole() {
        return None;
    }
    let place = Place {
        owner: view.type_id(),
        slot: None,
    };
    first_unnamed(place, Entry::Table(*view))
}

/// Writes the indented JSON text of a table, as `write_spaced` does.
pub fn write_text<W: Write>(
    view: &View,
    defaults: bool,
    out: &mut Noted<W>,
) -> Result<(), WriteFault>
    ensures printed { (d : Datum) → Shows view.now d → IsPrinted (type_place view.now.table.0) d
        (json_text view.now.layout.now defaults d)
        (W.contents (writer_of out.old)) (W.contents (writer_of out.new)) result }
    ensures failed { TellsFailure (write_failed out.new) result }
    ensures untouched { IfUnnamed result (out.new ≡ out.old) }
{
    write_spaced(view, defaults, Spacing::Indented, out)
}

/// Writes the JSON text of a table. `defaults` includes fields with default values.
///
/// No memory is allocated. A union's member without a name is reported before the first byte. Nothing is
/// written where the writer's last write failed.
pub fn write_spaced<W: Write>(
    view: &View,
    defaults: bool,
    spacing: Spacing,
    out: &mut Noted<W>,
) -> Result<(), WriteFault>
    ensures printed { (d : Datum) → Shows view.now d → IsPrinted (type_place view.now.table.0) d
        (spaced_text spacing view.now.layout.now defaults d)
        (W.contents (writer_of out.old)) (W.contents (writer_of out.new)) result }
    ensures failed { TellsFailure (write_failed out.new) result }
    ensures untouched { IfUnnamed result (out.new ≡ out.old) }
{
    if let Some(unnamed) = unnamed_in(view) {
        return Err(WriteFault::NoMemberName(unnamed));
    }
    if out.failed() {
        return Err(WriteFault::WriteFailed(0));
    }
    let style = Style {
        layout: view.layout(),
        defaults,
    };
    write_shown(Entry::Table(*view), style, spacing, out)
}
