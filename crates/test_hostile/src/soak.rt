//! Buffers of values under a schema, each damaged many times: both readers agree on each, and what still
//! holds a value prints as a text that means it.
use crate::dice::Dice;
use crate::meanings::meaning;
use fb_layout::Layout;
use fb_owned::{build, read, text_of, whole};
use fb_read::{Entries, View, verify};
use fb_text::{Noted, TextFault, WriteFault, write_text};
use fb_value::{Limits, Value};
use flatc_tool::{schema_of, to_binary, to_json};
use std::alloc::{AllocError, Global};
use std::io;

/// What comes of one buffer.
#[derive(Clone, Copy, PartialEq, Eq, Drop)]
enum BufferVerdict {
    /// It holds a value, whose text means it again.
    Held,
    /// It holds a value with a union code that has no name.
    Unnamed,
    /// Both readers refuse it alike.
    Refused,
    Wrong,
}

/// How many buffers came to each verdict, and the first that is wrong.
#[derive(Drop)]
struct BufferTally {
    held: u64,
    unnamed: u64,
    refused: u64,
    wrong: Option<Vec<u8>>,
}

impl BufferTally {
    fn new() -> BufferTally {
        BufferTally {
            held: 0,
            unnamed: 0,
            refused: 0,
            wrong: None,
        }
    }

    fn count(&mut self, verdict: BufferVerdict, bytes: &Vec<u8>) -> Result<(), AllocError> {
        match verdict {
            BufferVerdict::Held => self.held = self.held.saturating_add(1),
            BufferVerdict::Unnamed => self.unnamed = self.unnamed.saturating_add(1),
            BufferVerdict::Refused => self.refused = self.refused.saturating_add(1),
            BufferVerdict::Wrong => self.wrong = Some(bytes.clone()?),
        }
        Ok(())
    }

    fn print(&self, rt: &HostRuntime) -> io::Result<()> {
        let (held, unnamed, refused) = (self.held, self.unnamed, self.refused);
        match &self.wrong {
            None => println!(rt; "{held} held, {unnamed} unnamed, {refused} refused"),
            Some(bytes) => println!(rt; "wrong: {bytes:?}"),
        }
    }
}

/// Of a damaged buffer: few cells, so that tables that are reached again and again take little time, and
/// few levels, so that its text nests less deep than JSON may.
fn limits() -> Limits {
    let Some(limits) = Limits::new(30, 100_000) else {
        unreachable!()
    };
    limits
}

fn holds(alloc: Global, layout: &Layout, bytes: &[u8], value: &Value) -> bool {
    let mut entries = Entries::new();
    match read(alloc, layout, bytes, limits(), false, &mut entries) {
        Ok(found) => found == *value,
        Err(_) => false,
    }
}

/// Whether a text means a value, and its buffer holds it.
fn means(alloc: Global, layout: &Layout, text: &[u8], value: &Value) -> bool {
    let Some(again) = meaning(alloc, layout, text) else {
        return false;
    };
    match build(alloc, layout, &again) {
        Ok(bytes) => again == *value && holds(alloc, layout, bytes.as_slice(), value),
        Err(_) => false,
    }
}

/// Judges a value beside the view of its bytes.
fn judge_value(alloc: Global, layout: &Layout, view: View, value: &Value) -> BufferVerdict {
    let mut out = Noted::over(Vec::new(alloc));
    let written = write_text(&view, false, &mut out);
    let out = out.into_inner();
    let is_right = match text_of(alloc, layout, value, false) {
        Ok(text) => {
            let is_same = written.is_ok() && out.as_slice() == text.as_bytes();
            is_same && means(alloc, layout, text.as_bytes(), value)
        }
        Err(TextFault::NoMemberName(place)) => {
            if matches!(written, Err(WriteFault::NoMemberName(at)) if at == place)
                && out.is_empty()
            {
                return BufferVerdict::Unnamed;
            }
            false
        }
        Err(TextFault::Memory) => false,
    };
    if is_right {
        BufferVerdict::Held
    } else {
        BufferVerdict::Wrong
    }
}

fn judge<'a>(alloc: Global, layout: &'a Layout, bytes: &'a [u8]) -> BufferVerdict {
    let mut entries = Entries::new();
    let found = read(alloc, layout, bytes, limits(), false, &mut entries);
    let mut entries = Entries::new();
    let view = match verify(layout, bytes, limits(), false, &mut entries) {
        Ok(view) => view,
        Err(fault) => return if found.err() == Some(fault) {
            BufferVerdict::Refused
        } else {
            BufferVerdict::Wrong
        },
    };
    match found {
        Ok(value) => judge_value(alloc, layout, view, &value),
        Err(_) => BufferVerdict::Wrong,
    }
}

/// Whether the value that a buffer holds, whose entries came in one by one, is built as the same bytes.
fn is_built_again(alloc: Global, layout: &Layout, bytes: &[u8]) -> bool {
    let mut entries = Entries::new();
    match read(alloc, layout, bytes, limits(), false, &mut entries) {
        Ok(value) if whole(&value) => match build(alloc, layout, &value) {
            Ok(again) => again.as_slice() == bytes,
            Err(_) => false,
        },
        _ => false,
    }
}

/// Judges a buffer as it is, and so many times damaged.
fn judge_damages(
    alloc: Global,
    layout: &Layout,
    bytes: &Vec<u8>,
    seed: u64,
    count: u64,
) -> Result<BufferTally, AllocError> {
    let mut dice = Dice::new(seed);
    let mut tally = BufferTally::new();
    let is_held = judge(alloc, layout, bytes.as_slice()) == BufferVerdict::Held;
    let is_sound = is_held && is_built_again(alloc, layout, bytes.as_slice());
    tally.count(
        if is_sound {
            BufferVerdict::Held
        } else {
            BufferVerdict::Wrong
        },
        bytes,
    )?;
    for _ in 0..count {
        let mut damaged = bytes.clone()?;
        dice.damage(&mut damaged);
        let verdict = judge(alloc, layout, damaged.as_slice());
        tally.count(verdict, &damaged)?;
    }
    Ok(tally)
}

/// Prints the text of a buffer.
fn print_text(rt: &HostRuntime, schema: &str, bytes: &[u8]) -> io::Result<()> {
    match to_json(rt.alloc(), schema.as_bytes(), bytes, limits(), false, false) {
        Ok(text) => println!(rt; "{text}"),
        Err(_) => println!(rt; "no text"),
    }
}

fn judge_buffer(
    rt: &HostRuntime,
    schema: &str,
    bytes: &Vec<u8>,
    seed: u64,
    count: u64,
) -> io::Result<()> {
    match schema_of(rt.alloc(), schema.as_bytes()) {
        Ok(layout) => judge_damages(rt.alloc(), &layout, bytes, seed, count)?.print(rt),
        Err(_) => println!(rt; "the schema is refused"),
    }
}

/// Prints what comes of the buffer of a JSON text and of its damages, and the buffer's text.
fn soak_row(rt: &HostRuntime, schema: &str, json: &str, seed: u64, count: u64) -> io::Result<()> {
    match to_binary(
        rt.alloc(),
        schema.as_bytes(),
        json.as_bytes(),
        limits(),
        false,
    ) {
        Ok(bytes) => {
            judge_buffer(rt, schema, &bytes, seed, count)?;
            print_text(rt, schema, bytes.as_slice())
        }
        Err(fault) => {
            let number = fault.number();
            println!(rt; "refused with {number}")
        }
    }
}

/// The two numbers of a text, with a tab between the two.
fn numbers_of(text: &str) -> Option<(u64, u64)> {
    let (seed, count) = text.split_once('\t')?;
    Some((seed.parse().ok()?, count.parse().ok()?))
}

/// Soaks a line, which has a schema text, a JSON text, a seed and how often its buffer is damaged, with a tab between
/// two of them.
pub(crate) fn soak(rt: &HostRuntime, line: &str) -> io::Result<()> {
    let (schema, rest) = line.split_once('\t').unwrap_or((line, ""));
    let (json, numbers) = rest.split_once('\t').unwrap_or((rest, ""));
    match numbers_of(numbers) {
        Some((seed, count)) => soak_row(rt, schema, json, seed, count),
        None => println!(rt; "no row"),
    }
}
