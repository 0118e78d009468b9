//! The texts, numbers and words of JSON, and what is wrong with one.
use crate::places::rest_of;
use fb_findings::{WORD_BYTES, front_len};

const DIGITS: &[u8] = b"0123456789";

/// Where a text stops being JSON, and what its writer has to know of that place.
#[derive(Clone, Copy)]
pub(crate) struct Flaw {
    pub(crate) offset: usize,
    pub(crate) sentence: &'static str,
}

impl Flaw {
    pub(crate) fn at(offset: usize, sentence: &'static str) -> Flaw {
        Flaw { offset, sentence }
    }
}

/// The number of four hexadecimal digits.
fn unit_at(text: &str, at: usize) -> Option<u32> {
    let digits = text.get(at..at.saturating_add(4))?;
    if !digits.bytes().all(|byte| byte.is_ascii_hexdigit()) {
        return None;
    }
    u32::from_str_radix(digits, 16).ok()
}

/// The length of an escape that begins with a `u` after its backslash.
fn unit_escape_len(text: &str, at: usize) -> Result<usize, Flaw> {
    let Some(unit) = unit_at(text, at.saturating_add(2)) else {
        return Err(Flaw::at(at, "the escape \\u has four hexadecimal digits after it"));
    };
    match unit {
        0xd800..=0xdbff => {
            let second = at.saturating_add(6);
            let is_escape = rest_of(text, second).starts_with("\\u");
            match unit_at(text, second.saturating_add(2)) {
                Some(0xdc00..=0xdfff) if is_escape => Ok(12),
                _ => Err(Flaw::at(at, HALF)),
            }
        }
        0xdc00..=0xdfff => Err(Flaw::at(at, HALF)),
        _ => Ok(6),
    }
}

const HALF: &str =
    "half of a pair of escapes is no character: both are needed, as in \\ud83d\\ude00";

/// The length of the escape at an offset.
fn escape_len(text: &str, at: usize) -> Result<usize, Flaw> {
    match text.as_bytes().get(at.saturating_add(1)) {
        Some(b'"' | b'\\' | b'/' | b'b' | b'f' | b'n' | b'r' | b't') => Ok(2),
        Some(b'u') => unit_escape_len(text, at),
        Some(b'x') => Err(Flaw::at(
            at,
            "JSON has no escape \\x: write \\u and four hexadecimal digits",
        )),
        Some(b'\'') => Err(Flaw::at(at, "JSON has no escape \\': a single quote needs none")),
        Some(_) => Err(Flaw::at(
            at,
            "JSON has no such escape: a backslash itself is written \\\\",
        )),
        None => Err(Flaw::at(text.len(), "this text has no closing quote")),
    }
}

/// What a text has where it may have no control character.
fn control_sentence(byte: u8) -> &'static str {
    match byte {
        b'\n' | b'\r' => {
            "the line ends inside a text: close it with a quote, or write the line's end as \\n"
        }
        b'\t' => "a tab in a text is written \\t",
        _ => "a control character in a text is written \\u and four hexadecimal digits",
    }
}

/// Where the text ends that begins with the quote at an offset.
pub(crate) fn string_end(text: &str, quote: usize) -> Result<usize, Flaw> {
    let mut at = quote.saturating_add(1);
    for _ in 0..text.len() {
        let rest = rest_of(text, at).as_bytes();
        // A text goes on up to its quote, a backslash or a control character.
        let plain = rest
            .iter()
            .position(|byte| matches!(byte, b'"' | b'\\' | 0..=31));
        at = at.saturating_add(plain.unwrap_or(rest.len()));
        match text.as_bytes().get(at) {
            Some(b'"') => return Ok(at.saturating_add(1)),
            Some(b'\\') => at = at.saturating_add(escape_len(text, at)?),
            Some(byte) => return Err(Flaw::at(at, control_sentence(*byte))),
            None => break,
        }
    }
    Err(Flaw::at(text.len(), "this text has no closing quote"))
}

/// Whether a byte may be in a number, also in a wrong one.
fn is_of_number(byte: u8) -> bool {
    byte.is_ascii_alphanumeric() || matches!(byte, b'+' | b'-' | b'.' | b'_')
}

/// The number at the front, also a wrong one, or the word.
pub(crate) fn number_of(text: &str) -> &str {
    let end = text.bytes().position(|byte| !is_of_number(byte));
    text.get(..end.unwrap_or(text.len())).unwrap_or(text)
}

/// What is wrong with a number after its point and its exponent's sign.
fn exponent_sentence(exponent: &str) -> Option<&'static str> {
    let mark = exponent.as_bytes().first();
    if !matches!(mark, Some(b'e' | b'E')) {
        return Some("this isn't a number as JSON writes it");
    }
    let sign = exponent.as_bytes().get(1);
    let digits = rest_of(
        exponent,
        if matches!(sign, Some(b'+' | b'-')) {
            2
        } else {
            1
        },
    );
    if digits.is_empty() || front_len(digits.as_bytes(), DIGITS) < digits.len() {
        return Some("the exponent of a number has digits alone");
    }
    None
}

/// What is wrong with a number after its whole digits.
fn fraction_sentence(rest: &str) -> Option<&'static str> {
    let Some(digits) = rest.strip_prefix('.') else {
        return if rest.is_empty() {
            None
        } else {
            exponent_sentence(rest)
        };
    };
    let len = front_len(digits.as_bytes(), DIGITS);
    if len == 0 {
        return Some("a number has a digit after its point");
    }
    match rest_of(digits, len) {
        "" => None,
        exponent => exponent_sentence(exponent),
    }
}

/// What is wrong with a number.
fn number_sentence(number: &str) -> Option<&'static str> {
    let digits = number.strip_prefix('-').unwrap_or(number);
    let len = front_len(digits.as_bytes(), DIGITS);
    match digits.as_bytes() {
        [b'N' | b'I' | b'n' | b'i', ..] => return Some("JSON has no NaN and no Infinity"),
        [b'0', b'x' | b'X', ..] => return Some("numbers of JSON are decimal"),
        [b'0', ..] if len > 1 => return Some("a number has no zero before its other digits"),
        _ if len == 0 => return Some("a number has a digit after its sign"),
        _ => {}
    }
    fraction_sentence(rest_of(digits, len))
}

/// Where the number ends that begins at an offset.
pub(crate) fn number_end(text: &str, at: usize) -> Result<usize, Flaw> {
    let number = number_of(rest_of(text, at));
    if let Some(sentence) = number_sentence(number) {
        return Err(Flaw::at(at, sentence));
    }
    match number.parse::<f64>() {
        Ok(value) if value.is_finite() => Ok(at.saturating_add(number.len())),
        _ => Err(Flaw::at(
            at,
            "this number is too large: none of JSON here is above 1.8e308",
        )),
    }
}

/// What is wrong with a word.
fn word_sentence(word: &str) -> Option<&'static str> {
    match word {
        "true" | "false" | "null" => None,
        "True" | "False" | "Null" | "TRUE" | "FALSE" | "NULL" => {
            Some("true, false and null are written in small letters")
        }
        "None" | "nil" | "undefined" => Some("what is absent is written null"),
        "NaN" | "nan" | "Infinity" | "inf" => Some("JSON has no NaN and no Infinity"),
        _ => Some("a word may only be true, false or null; a text is written in double quotes"),
    }
}

/// Where the word ends that begins at an offset.
pub(crate) fn word_end(text: &str, at: usize) -> Result<usize, Flaw> {
    let rest = rest_of(text, at);
    let len = front_len(rest.as_bytes(), WORD_BYTES);
    match word_sentence(rest.get(..len).unwrap_or(rest)) {
        Some(sentence) => Err(Flaw::at(at, sentence)),
        None => Ok(at.saturating_add(len)),
    }
}

/// What is wrong with a character that begins nothing in JSON.
pub(crate) fn sentence_of(text: &str, at: usize) -> &'static str {
    match rest_of(text, at).chars().next() {
        Some('/' | '#') => "JSON has no comments",
        Some('\'' | '\u{2018}' | '\u{2019}' | '\u{201c}' | '\u{201d}') => {
            "a text is written in double quotes"
        }
        Some('+') => "a number has no plus sign",
        Some('.') => "a number has a digit before its point",
        Some('\u{200b}'..='\u{200d}' | '\u{feff}') =>
            "this character can't be seen, and may not be here",
        Some(character) if character.is_whitespace() => {
            "blanks between values are spaces, tabs and line ends alone"
        }
        Some(character) if character.is_control() => "a control character may not be here",
        _ => "this isn't allowed here",
    }
}
