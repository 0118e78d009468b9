//! Values of buffers that are counted, copied and compared, and under other layouts than their own.
//!
//! Each is made of a JSON text under one schema, and read under the same or another.
ghost use Rattle.std.specs.Prelude.{◌≤◌, IfSome};
ghost use Rattle.fb_value.specs.View.{view};
ghost use Rattle.fb_value.specs.Counts.{nesting};

use super::{push_times, usual_limits};
use fb_owned::{cells, copy, depth, fits, read, room, same, whole};
use fb_value::Value;
use flatc_tool::{Entries, schema_of, to_binary};
use std::alloc::Global;

const INT: &[u8] = b"table T { a:int; } root_type T;";

const SHORT: &[u8] = b"table T { a:short; } root_type T;";

const UBYTE: &[u8] = b"table T { a:ubyte; } root_type T;";

const TEXT: &[u8] = b"table T { s:string; } root_type T;";

const TEXTS: &[u8] = b"table T { v:[string]; } root_type T;";

const STRUCT: &[u8] =
    b"struct Q { x:byte; } struct P { x:byte; q:Q; } table T { p:P; } root_type T;";

const TABLES: &[u8] = b"table P { x:int; } table T { ps:[P]; } root_type T;";

const WIDE_STRUCTS: &[u8] =
    b"struct S (force_align: 16) { a:ubyte; } table T { s:string; v:[S]; n:int; } root_type T;";

const UNION: &[u8] = b"table A {} table B {} union U { A, B } table T { u:U; } root_type T;";

/// The same with its members the other way round, with a third member, and with the first alone.
const TURNED: &[u8] = b"table A {} table B {} union U { B, A } table T { u:U; } root_type T;";

const WIDER: &[u8] = b"table A {} table B {} union U { A, X: A, B } table T { u:U; } root_type T;";

const NARROWER: &[u8] = b"table A {} table B {} union U { A } table T { u:U; } root_type T;";

/// A member with texts.
const MEMBERS: &[u8] =
    b"table A { x:int; v:[string]; } union U { A } table T { u:U; } root_type T;";

/// A table after another.
const LATER: &[u8] = b"table A {} table T { a:int; } root_type T;";

/// Numbers and unions in the second slot of a first table.
const SECOND: &[u8] = b"table T { a:int = null; b:int; } table A {} root_type T;";

const SECOND_UNION: &[u8] = b"table T { u:U; } table A {} union U { A, B: A, C: A } root_type T;";

const SECOND_NONE: &[u8] = b"table T { u:U; } table A {} union U { A, B: A } root_type T;";

// Twelve structs, each of two fields of the one before: the last takes 32,768 bytes. The table's
// struct is never stored here, but counts for the table's greatest size.
const WIDE_TABLES: &[u8] = b"struct S0 { a:ulong; b:ulong; } struct S1 { a:S0; b:S0; } \
    struct S2 { a:S1; b:S1; } struct S3 { a:S2; b:S2; } struct S4 { a:S3; b:S3; } \
    struct S5 { a:S4; b:S4; } struct S6 { a:S5; b:S5; } struct S7 { a:S6; b:S6; } \
    struct S8 { a:S7; b:S7; } struct S9 { a:S8; b:S8; } struct S10 { a:S9; b:S9; } \
    struct S11 { a:S10; b:S10; } table N { v:[N]; s:S11; } root_type N;";

/// A schema text, a JSON text under it, and the schema text under which its buffer is read.
type Sample = (&'static [u8], &'static str, &'static [u8]);

/// What is known of a value.
#[derive(Clone, Copy)]
enum KnownFact {
    /// Its cells, its depth, and whether it is whole.
    Counts(u32, u8, bool),
    /// Its room.
    Room(u32),
    /// Whether it fits the root of a schema.
    Fits(&'static [u8], bool),
    /// Another value, from which it differs.
    Other(Sample),
}

const PAIR: &str = "{\"ps\":[{\"x\":1},{\"x\":2}]}";

const FIRST: &str = "{\"u_type\":\"A\",\"u\":{}}";

const SECOND_MEMBER: &str = "{\"u_type\":\"B\",\"u\":{}}";

const COUNTED: &[(Sample, KnownFact)] = &[
    ((INT, "{\"a\":7}", INT), KnownFact::Counts(1, 1, true)),
    (
        (TEXT, "{\"s\":\"hi\"}", TEXT),
        KnownFact::Counts(4, 1, true),
    ),
    (
        (TEXT, "{\"s\":\"héllo\"}", TEXT),
        KnownFact::Counts(8, 1, true),
    ),
    (
        (TEXTS, "{\"v\":[\"a\",\"\"]}", TEXTS),
        KnownFact::Counts(7, 1, true),
    ),
    (
        (STRUCT, "{\"p\":{\"x\":-1,\"q\":{\"x\":1}}}", STRUCT),
        KnownFact::Counts(1, 1, true),
    ),
    (
        (
            MEMBERS,
            "{\"u_type\":\"A\",\"u\":{\"v\":[\"é\",\"b\"]}}",
            MEMBERS,
        ),
        KnownFact::Counts(10, 2, true),
    ),
    ((TABLES, PAIR, TABLES), KnownFact::Counts(6, 2, true)),
    (
        (UNION, SECOND_MEMBER, NARROWER),
        KnownFact::Counts(1, 1, false),
    ),
];

const SIZED: &[(Sample, KnownFact)] = &[
    ((INT, "{\"a\":7}", INT), KnownFact::Room(28)),
    ((TABLES, PAIR, TABLES), KnownFact::Room(77)),
    (
        (
            WIDE_STRUCTS,
            "{\"s\":\"hi\",\"v\":[{\"a\":1},{\"a\":2}],\"n\":5}",
            WIDE_STRUCTS,
        ),
        KnownFact::Room(113),
    ),
    ((UNION, SECOND_MEMBER, UNION), KnownFact::Room(45)),
];

const FITTING: &[(Sample, KnownFact)] = &[
    ((TEXT, "{\"s\":\"hi\"}", TEXT), KnownFact::Fits(TEXT, true)),
    ((SHORT, "{\"a\":0}", SHORT), KnownFact::Fits(UBYTE, true)),
    ((SHORT, "{\"a\":255}", SHORT), KnownFact::Fits(UBYTE, true)),
    ((SHORT, "{\"a\":256}", SHORT), KnownFact::Fits(UBYTE, false)),
    ((SHORT, "{\"a\":-1}", SHORT), KnownFact::Fits(UBYTE, false)),
    ((UNION, SECOND_MEMBER, UNION), KnownFact::Fits(UNION, true)),
    ((TURNED, FIRST, TURNED), KnownFact::Fits(UNION, false)),
    ((WIDER, SECOND_MEMBER, WIDER), KnownFact::Fits(UNION, false)),
];

/// Two values that differ: in a number, in their type, and in that one is a code without a member.
const DIFFERENT: &[(Sample, KnownFact)] = &[
    (
        (INT, "{\"a\":5}", INT),
        KnownFact::Other((INT, "{\"a\":6}", INT)),
    ),
    (
        (INT, "{\"a\":5}", INT),
        KnownFact::Other((LATER, "{\"a\":5}", LATER)),
    ),
    (
        (SECOND, "{\"b\":3}", SECOND),
        KnownFact::Other((SECOND_UNION, "{\"u_type\":\"C\",\"u\":{}}", SECOND_NONE)),
    ),
];

/// The value that a JSON text means under a schema, where its buffer is read under the same or another.
fn value_of(alloc: Global, schema: &[u8], json: &str, read_as: &[u8]) -> Option<Value>
    ensures { IfSome result (λ v. nesting (view v) ≤ 300) }
{
    let bytes = to_binary(alloc, schema, json.as_bytes(), usual_limits(), false).ok()?;
    let layout = schema_of(alloc, read_as).ok()?;
    let mut entries = Entries::new();
    read(
        alloc,
        &layout,
        bytes.as_slice(),
        usual_limits(),
        false,
        &mut entries,
    )
    .ok()
}

fn is_counted(alloc: Global, value: &Value, counts: (u32, u8, bool)) -> Option<bool>
    requires { nesting (view value.now) ≤ 300 }
{
    let copied = copy(alloc, value).ok()?;
    let is_known = (cells(value)?, depth(value)?, whole(value)) == counts;
    Some(is_known && same(&copied, value))
}

/// Whether a value fits the root of a schema; where it does, its room.
fn room_under(alloc: Global, schema: &[u8], value: &Value) -> Option<(bool, Option<u32>)>
    requires { nesting (view value.now) ≤ 300 }
{
    let layout = schema_of(alloc, schema).ok()?;
    if fits(&layout, layout.schema().root(), value) {
        Some((true, room(&layout, value)))
    } else {
        Some((false, None))
    }
}

/// Whether a value is as it is known; none where it can't be read.
fn is_as_known(alloc: Global, sample: &Sample, known: KnownFact) -> Option<bool> {
    let (schema, json, read_as) = *sample;
    let value = value_of(alloc, schema, json, read_as)?;
    match known {
        KnownFact::Counts(cells, depth, is_whole) => is_counted(
            alloc,
            &value,
            (cells, depth, is_whole),
        ),
        KnownFact::Room(most) => Some(room_under(alloc, read_as, &value)? == (true, Some(most))),
        KnownFact::Fits(under, does) => Some(room_under(alloc, under, &value)?.0 == does),
        KnownFact::Other((schema, json, read_as)) => {
            let other = value_of(alloc, schema, json, read_as)?;
            Some(!same(&value, &other))
        }
    }
}

#[test]
fn values_are_counted_compared_and_copied(rt: HostRuntime) {
    for rows in [COUNTED, SIZED, FITTING, DIFFERENT] {
        for (sample, known) in rows {
            assert!(rt;
                is_as_known(rt.alloc(), sample, *known) == Some(true),
                "of {}",
                sample.1
            );
        }
    }
}

/// The room of a table with so many tables in its vector, each of which might hold a wide struct.
fn wide_room(alloc: Global, count: u32) -> Option<u32> {
    let mut json = String::from_str(alloc, "{\"v\":[{}").ok()?;
    push_times(&mut json, ",{}", count.saturating_sub(1)).ok()?;
    json.push_str("]}").ok()?;
    let value = value_of(alloc, WIDE_TABLES, json.as_str(), WIDE_TABLES)?;
    room_under(alloc, WIDE_TABLES, &value)?.1
}

// A table more has no room: tests/command.py has it.
#[test]
fn the_greatest_room(rt: HostRuntime) {
    assert!(rt; wide_room(rt.alloc(), 65_481) == Some(2_147_482_208));
}
