//! What the numbers of schemas mean, in lines.
use super::push_times;
use fb_describe::description_of;
use flatc_tool::schema_of;
use std::alloc::{AllocError, Global};
use std::test::Fail;

const MONSTER: &[u8] = b"enum Color:byte { Red, Green }
    table Monster {
      name:string (required); hp:short = 100; colors:[Color]; equipped:Equipment;
      old:int (deprecated); gift:int = null;
    }
    struct Pos { x:int; y:int; }
    union Equipment { Weapon }
    table Weapon {}
    root_type Monster;
    file_identifier \"MONS\";";

const MONSTER_LINES: &str = "root type 1, Monster
file identifier \"MONS\"

type 0: enum Color, of byte (1 byte, aligned to 1)
  Red = 0
  Green = 1
type 1: table Monster
  slot 0: name, string, required
  slot 1: hp, short = 100 (2 bytes, aligned to 2)
  slot 2: colors, [Color]
  slot 3: equipped_type, code of union Equipment (1 byte, aligned to 1)
  slot 4: equipped, union Equipment
  slot 5: old, int = 0, deprecated (4 bytes, aligned to 4)
  slot 6: gift, optional int (4 bytes, aligned to 4)
type 2: struct Pos (8 bytes, aligned to 4)
  field 0: x, int, at byte 0
  field 1: y, int, at byte 4
type 3: union Equipment
  code 0: NONE
  code 1: Weapon, table of type 4
type 4: table Weapon
";

/// Flags, namespaces, structs in structs, and defaults.
const ITEMS: &[u8] = b"namespace Game.Items;
    enum Flag:ubyte (bit_flags) { Red, Green, Blue = 4 }
    enum Grade:int { Low = -2, High = 7 }
    struct Inner { a:byte; b:ulong; }
    struct Outer { flag:Flag; inner:Inner; grade:Grade; }
    namespace Game;
    table T {
      flag:Items.Flag = Green; flags:Items.Flag; grade:Items.Grade = High; maybe:Items.Grade = null;
      on:bool = true; off:bool; none:bool = null; outer:Items.Outer; inners:[Items.Inner];
      texts:[string]; next:T; all:[T]; most:ulong = 18446744073709551615; least:long = -9223372036854775808;
    }
    root_type T;";

const ITEMS_LINES: &str = "root type 4, Game.T

type 0: bit flags Game.Items.Flag, of ubyte (1 byte, aligned to 1)
  Red = 1
  Green = 2
  Blue = 16
type 1: enum Game.Items.Grade, of int (4 bytes, aligned to 4)
  Low = -2
  High = 7
type 2: struct Game.Items.Inner (16 bytes, aligned to 8)
  field 0: a, byte, at byte 0
  field 1: b, ulong, at byte 8
type 3: struct Game.Items.Outer (32 bytes, aligned to 8)
  field 0: flag, Game.Items.Flag, at byte 0
  field 1: inner, Game.Items.Inner, at byte 8
  field 2: grade, Game.Items.Grade, at byte 24
type 4: table Game.T
  slot 0: flag, Game.Items.Flag = Green (1 byte, aligned to 1)
  slot 1: flags, Game.Items.Flag = 0 (1 byte, aligned to 1)
  slot 2: grade, Game.Items.Grade = High (4 bytes, aligned to 4)
  slot 3: maybe, optional Game.Items.Grade (4 bytes, aligned to 4)
  slot 4: on, bool = true (1 byte, aligned to 1)
  slot 5: off, bool = false (1 byte, aligned to 1)
  slot 6: none, optional bool (1 byte, aligned to 1)
  slot 7: outer, Game.Items.Outer (32 bytes, aligned to 8)
  slot 8: inners, [Game.Items.Inner]
  slot 9: texts, [string]
  slot 10: next, Game.T
  slot 11: all, [Game.T]
  slot 12: most, ulong = 18446744073709551615 (8 bytes, aligned to 8)
  slot 13: least, long = -9223372036854775808 (8 bytes, aligned to 8)
";

/// Slots by id, members under other names, marks together, and a struct's own alignment.
const MARKS: &[u8] = b"namespace N; table C {} namespace;
    table A {} union U { A, B: A, N.C }
    struct S (force_align: 16) { a:ushort; b:ubyte; }
    table T {
      s:S (id: 3, required); u:U (id: 2, deprecated, required); n:uint = 4294967295 (id: 0);
    }
    root_type A;";

const MARKS_LINES: &str = "root type 1, A

type 0: table N.C
type 1: table A
type 2: union U
  code 0: NONE
  code 1: A, table of type 1
  code 2: B, table of type 1
  code 3: N_C, table of type 0
type 3: struct S (16 bytes, aligned to 16)
  field 0: a, ushort, at byte 0
  field 1: b, ubyte, at byte 2
type 4: table T
  slot 0: n, uint = 4294967295 (4 bytes, aligned to 4)
  slot 1: u_type, code of union U, deprecated (1 byte, aligned to 1)
  slot 2: u, union U, required, deprecated
  slot 3: s, S, required (16 bytes, aligned to 16)
";

/// A line that goes on in another, at its last space that fits into 48 columns.
const NARROW: &[u8] = b"table T { a_name_of_thirty_characters_is:int; } root_type T;";

const NARROW_LINES: &str = "root type 0, T

type 0: table T
  slot 0: a_name_of_thirty_characters_is, int =
    0 (4 bytes, aligned to 4)
";

/// Schema texts, how many columns lines have at most, and the lines.
const SCHEMAS: &[(&[u8], usize, &str)] = &[
    (MONSTER, 120, MONSTER_LINES),
    (ITEMS, 120, ITEMS_LINES),
    (MARKS, 120, MARKS_LINES),
    (NARROW, 48, NARROW_LINES),
    (NARROW, 0, NARROW_LINES),
];

fn is_described(alloc: Global, schema: &[u8], columns: usize, lines: &str) -> bool {
    let Ok(layout) = schema_of(alloc, schema) else {
        return false;
    };
    match description_of(alloc, &layout, columns) {
        Ok(text) => text.as_str() == lines,
        Err(_) => false,
    }
}

#[test]
fn schemas_are_described(rt: HostRuntime) {
    for (schema, columns, lines) in SCHEMAS {
        assert!(rt; is_described(rt.alloc(), schema, *columns, lines));
    }
}

/// A schema of a table with a long name, which its field refers to.
fn long_schema(alloc: Global, length: u32) -> Result<String, AllocError> {
    let mut text = String::new(alloc);
    text.push_str("table ")?;
    push_times(&mut text, "a", length)?;
    text.push_str(" { x:")?;
    push_times(&mut text, "a", length)?;
    text.push_str("; } root_type ")?;
    push_times(&mut text, "a", length)?;
    text.push_str(";")?;
    Ok(text)
}

/// Adds a line of 120 columns, a second one, and a third, where the name in them goes on.
fn push_long(
    text: &mut String,
    front: &str,
    lengths: [u32; 2],
    end: &str,
) -> Result<(), AllocError> {
    text.push_str(front)?;
    push_times(text, "a", lengths[0])?;
    text.push_str("\n    ")?;
    push_times(text, "a", 116)?;
    text.push_str("\n    ")?;
    push_times(text, "a", lengths[1])?;
    text.push_str(end)
}

/// Its lines, where the name has 106 characters in the first line of its type, 116 in the next, and the others after
/// them.
fn long_lines(alloc: Global, length: u32, referred: u32, end: &str) -> Result<String, AllocError> {
    let mut text = String::new(alloc);
    push_long(&mut text, "root type 0, ", [107, length], "\n\n")?;
    push_long(
        &mut text,
        "type 0: table ",
        [106, length.saturating_add(1)],
        "\n",
    )?;
    push_long(&mut text, "  slot 0: x, ", [107, referred], end)?;
    Ok(text)
}

#[test]
fn a_long_name_is_cut_where_a_field_refers_to_it(rt: HostRuntime) -> Result<(), Fail> {
    let alloc = rt.alloc();
    let schema = long_schema(alloc, 256)?;
    let lines = long_lines(alloc, 33, 33, "\n")?;
    assert!(rt; is_described(alloc, schema.as_bytes(), 120, lines.as_str()));
    let schema = long_schema(alloc, 257)?;
    let lines = long_lines(alloc, 34, 33, "...\n")?;
    assert!(rt; is_described(alloc, schema.as_bytes(), 120, lines.as_str()));
    Ok(())
}
