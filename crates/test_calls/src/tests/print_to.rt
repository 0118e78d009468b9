//! Buffers that are printed to writers.
use super::writers::Front;
use super::{push_times, usual_limits};
use flatc_tool::{Noted, print_to, to_binary};
use std::alloc::{AllocError, Global};
use std::test::Fail;

const UNION: &[u8] = b"table A { x:int; } union U { A } table T { u:U; s:string; } root_type T;";

const UNION_TEXT: &str = "{
  \"u_type\": \"A\",
  \"u\": {
    \"x\": 1
  },
  \"s\": \"a\\n\"
}
";

const TABLES: &[u8] = b"table P { x:int; } table T { ps:[P]; } root_type T;";

const TABLES_TEXT: &str = "{
  \"ps\": [
    {
      \"x\": 1
    },
    {
      \"x\": 2
    }
  ]
}
";

const TEXTS: &[u8] = b"table T { v:[string]; } root_type T;";

/// How many bytes a writer takes a call, and whether it fails once it takes no more.
const WRITERS: &[(usize, bool)] = &[
    (1, true),
    (1, false),
    (3, true),
    (4096, true),
    (4096, false),
];

/// Whether bytes are printed to a writer of `WRITERS` that takes these bytes and no more, where they are the whole text
/// or else its front.
fn is_printed(
    alloc: Global,
    schema: &[u8],
    bytes: &[u8],
    front: &[u8],
    is_whole: bool,
    writer: (usize, bool),
) -> bool {
    let mut out = Noted::over(Front::of(front, writer.0, writer.1));
    let answer = print_to(alloc, schema, bytes, usual_limits(), false, false, &mut out);
    let is_told = match answer {
        Ok(()) => is_whole,
        Err(fault) => !is_whole
            && fault.number() == 82
            && fault.written() == Some(front.len() as u64),
    };
    is_told && out.failed() != is_whole && out.into_inner().is_written()
}

/// Whether bytes are printed to each writer, after each number of bytes up to the whole text.
fn is_each_front_printed(alloc: Global, schema: &[u8], bytes: &[u8], text: &[u8]) -> bool {
    for left in 0..=text.len() {
        for writer in WRITERS {
            let is_whole = left == text.len();
            if !is_printed(alloc, schema, bytes, &text[..left], is_whole, *writer) {
                return false;
            }
        }
    }
    true
}

#[test]
fn a_text_of_which_each_front_is_written(rt: HostRuntime) -> Result<(), Fail> {
    for (schema, text) in [(UNION, UNION_TEXT), (TABLES, TABLES_TEXT)] {
        let text = text.as_bytes();
        let bytes = to_binary(rt.alloc(), schema, text, usual_limits(), false)?;
        assert!(rt; is_each_front_printed(rt.alloc(), schema, bytes.as_slice(), text));
    }
    Ok(())
}

/// A text with 20,000 short strings, and a long one after them.
fn long_text(alloc: Global) -> Result<String, AllocError> {
    let mut text = String::from_str(alloc, "{\n  \"v\": [\n")?;
    push_times(&mut text, "    \"abc\",\n", 20_000)?;
    text.push_str("    \"")?;
    push_times(&mut text, "x", 100_000)?;
    text.push_str("\"\n  ]\n}\n")?;
    Ok(text)
}

#[test]
fn a_long_text_is_written_to_a_slow_writer(rt: HostRuntime) -> Result<(), Fail> {
    let text = long_text(rt.alloc())?;
    let text = text.as_bytes();
    let bytes = to_binary(rt.alloc(), TEXTS, text, usual_limits(), false)?;
    assert!(rt;
        is_printed(
            rt.alloc(),
            TEXTS,
            bytes.as_slice(),
            text,
            true,
            (5_000, true)
        )
    );
    Ok(())
}
