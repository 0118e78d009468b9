//! Texts in quotes.
ghost use Rattle.std.specs.Prelude.{◌≡◌, ◌<◌, ◌≤◌, false, length};
ghost use Rattle.std.specs.List.{prefix_len};
ghost use Rattle.std.specs.Char.{digit_char};
ghost use Rattle.json.specs.Print.{quoted, escape, escape_byte};
ghost use Rattle.fb_text.specs.Escapes.{is_plain};
ghost use Rattle.fb_text.specs.Writes.{Prints};

use crate::noted::Noted;
use crate::plain::needs_no_escape;
use std::io::Write;

/// Adds a text in quotes, escaped.
pub(crate) fn put_quoted<W: Write>(out: &mut Noted<W>, content: &str)
    ensures { Prints W.contents out.old out.new (quoted content.now) }
{
    if needs_no_escape(content.as_bytes()) {
        return out.put_in_quotes(content); // as most texts are
    }
    put_escaped_in_quotes(out, content.as_bytes());
}

/// Adds a text in quotes that may have escapes.
#[inline(never)]
fn put_escaped_in_quotes<W: Write>(out: &mut Noted<W>, content: &[u8])
    ensures { Prints W.contents out.old out.new (quoted content.now) }
{
    out.put(b"\"");
    put_escaped(out, content);
    out.put(b"\"");
}

/// Whether a byte is written in a JSON string as it is.
fn is_plain(byte: u8) -> bool
    ensures { result ≡ is_plain byte }
{
    byte >= 0x20 && byte != b'"' && byte != b'\\'
}

/// How many bytes at the front are written as they are.
fn plain_run(text: &[u8]) -> usize
    ensures run { result ≡ prefix_len is_plain text.now }
    ensures within { result ≤ length text.now }
{
    text.iter().take_while(|byte| is_plain(**byte)).count()
}

/// Adds bytes of a text without its quotes: each stretch without escapes in one piece.
fn put_escaped<W: Write>(out: &mut Noted<W>, content: &[u8])
    ensures { Prints W.contents out.old out.new (escape content.now) }
{
    let mut left = content;
    while !left.is_empty() {
        let (plain, behind) = left.split_at(plain_run(left));
        out.put(plain);
        let Some((byte, rest)) = behind.split_first() else {
            return;
        };
        put_escape(out, *byte);
        left = rest;
    }
}

/// The digit of a number under 16.
fn digit(number: u8) -> u8
    requires { number < 16 }
    ensures { result ≡ digit_char number }
{
    if number < 10 {
        b'0' + number
    } else {
        b'a' + (number - 10)
    }
}

/// Adds the escape of a byte that isn't written as it is.
fn put_escape<W: Write>(out: &mut Noted<W>, byte: u8)
    requires { is_plain byte ≡ false }
    ensures { Prints W.contents out.old out.new (escape_byte byte) }
{
    match byte {
        b'"' => out.put(b"\\\""),
        b'\\' => out.put(b"\\\\"),
        0x08 => out.put(b"\\b"),
        0x0c => out.put(b"\\f"),
        b'\n' => out.put(b"\\n"),
        b'\r' => out.put(b"\\r"),
        b'\t' => out.put(b"\\t"),
        _ => {
            out.put(b"\\u00");
            out.put(&[digit(byte / 16), digit(byte % 16)]);
        }
    }
}
