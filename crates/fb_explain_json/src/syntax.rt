//! Where a text stops being JSON, and why.
use crate::tokens::{Flaw, number_end, sentence_of, string_end, word_end};
use fb_findings::front_len;
use fb_pieces::MOST_BRACKETS;

/// What may come next in a text.
#[derive(Clone, Copy)]
enum Next {
    /// The whole value, or a member's.
    Value,
    FirstElement,
    /// An element after a comma.
    Element,
    FirstName,
    /// A name after a comma.
    Name,
    Colon,
    /// What may be after a value: a comma or a bracket, and nothing after the whole one.
    Rest,
}

/// The brackets that are open.
#[derive(Clone, Copy)]
struct Brackets {
    depth: u8,
    /// A bit for each, the lowest for the innermost: 1 of an object.
    objects: u128,
}

impl Brackets {
    fn opened(self, is_object: bool) -> Brackets {
        Brackets {
            depth: self.depth.saturating_add(1),
            objects: self.objects << 1 | if is_object { 1 } else { 0 },
        }
    }

    fn closed(self) -> Brackets {
        Brackets {
            depth: self.depth.saturating_sub(1),
            objects: self.objects >> 1,
        }
    }

    fn is_in_object(self) -> bool {
        self.depth > 0 && self.objects & 1 == 1
    }
}

/// How far a text is JSON.
#[derive(Clone, Copy)]
struct Scan {
    at: usize,
    next: Next,
    open: Brackets,
}

fn blanks_end(text: &str, at: usize) -> usize {
    let rest = text.as_bytes().get(at..).unwrap_or(&[]);
    at.saturating_add(front_len(rest, b" \t\n\r"))
}

fn begins_a_value(byte: u8) -> bool {
    matches!(byte, b'"' | b'{' | b'[' | b'-' | b'_') || byte.is_ascii_alphanumeric()
}

const COMMA_BEFORE_BRACKET: &str = "a comma may not be before a closing bracket";

const SECOND_VALUE: &str =
    "a JSON text is one value, and this is after it: --lines reads one value a line, as jq -c . or jq -c '.[]' writes \
     them";

/// What is wrong with a byte after the text's value.
fn second_value_sentence(byte: u8) -> &'static str {
    if byte == b',' || begins_a_value(byte) {
        SECOND_VALUE
    } else {
        "a JSON text is one value, and this is after it"
    }
}

const NO_NAME: &str = "a name in double quotes is missing before this";

/// What is wrong where a value must be.
fn value_sentence(text: &str, at: usize, byte: u8, after_comma: bool) -> &'static str {
    match byte {
        b']' | b'}' if after_comma => COMMA_BEFORE_BRACKET,
        b']' | b'}' | b',' | b':' => "a value is missing before this",
        _ => sentence_of(text, at),
    }
}

/// Where the text, number or word ends that is at an offset.
fn value_end(text: &str, at: usize, byte: u8, after_comma: bool) -> Result<usize, Flaw> {
    match byte {
        b'"' => string_end(text, at),
        b'-' | b'0'..=b'9' => number_end(text, at),
        b'a'..=b'z' | b'A'..=b'Z' | b'_' => word_end(text, at),
        _ => Err(Flaw::at(at, value_sentence(text, at, byte, after_comma))),
    }
}

/// What is wrong where a member's name must be.
fn name_sentence(text: &str, at: usize, byte: u8, after_comma: bool) -> &'static str {
    match byte {
        b']' | b'}' if after_comma => COMMA_BEFORE_BRACKET,
        b']' | b',' | b':' => NO_NAME,
        _ if byte == b'_' || byte.is_ascii_alphabetic() => {
            "a name is written in double quotes, and so is a text"
        }
        _ if begins_a_value(byte) => NO_NAME,
        _ => sentence_of(text, at),
    }
}

impl Scan {
    fn refused(self, sentence: &'static str) -> Result<Scan, Flaw> {
        Err(Flaw::at(self.at, sentence))
    }

    fn moved_to(self, at: usize, next: Next) -> Result<Scan, Flaw> {
        Ok(Scan { at, next, ..self })
    }

    fn after_sign(self, next: Next) -> Result<Scan, Flaw> {
        self.moved_to(self.at.saturating_add(1), next)
    }

    fn opened(self, is_object: bool, next: Next) -> Result<Scan, Flaw> {
        if self.open.depth >= MOST_BRACKETS {
            return self.refused("objects and arrays are nested deeper than 127");
        }
        Scan {
            open: self.open.opened(is_object),
            ..self
        }
        .after_sign(next)
    }

    fn closed(self) -> Result<Scan, Flaw> {
        Scan {
            open: self.open.closed(),
            ..self
        }
        .after_sign(Next::Rest)
    }

    /// Passes a value, or the bracket that opens one.
    fn value(self, text: &str, byte: u8, after_comma: bool) -> Result<Scan, Flaw> {
        match byte {
            b'{' => self.opened(true, Next::FirstName),
            b'[' => self.opened(false, Next::FirstElement),
            _ => self.moved_to(value_end(text, self.at, byte, after_comma)?, Next::Rest),
        }
    }

    /// Passes a member's name.
    fn name(self, text: &str, byte: u8, after_comma: bool) -> Result<Scan, Flaw> {
        match byte {
            b'"' => self.moved_to(string_end(text, self.at)?, Next::Colon),
            _ => self.refused(name_sentence(text, self.at, byte, after_comma)),
        }
    }

    /// Passes what is after an element or a member's value.
    fn rest(self, text: &str, byte: u8) -> Result<Scan, Flaw> {
        let in_object = self.open.is_in_object();
        match byte {
            _ if self.open.depth == 0 => self.refused(second_value_sentence(byte)),
            b',' => self.after_sign(if in_object { Next::Name } else { Next::Element }),
            b'}' if in_object => self.closed(),
            b']' if !in_object => self.closed(),
            b'}' => self.refused("an array is open here, and ']' closes it"),
            b']' => self.refused("an object is open here, and '}' closes it"),
            b':' => self.refused("a colon is only after a member's name"),
            _ if begins_a_value(byte) => self.refused("a comma is missing before this"),
            _ => self.refused(sentence_of(text, self.at)),
        }
    }

    /// Passes what is next.
    fn step(self, text: &str, byte: u8) -> Result<Scan, Flaw> {
        match self.next {
            Next::FirstElement if byte == b']' => self.closed(),
            Next::FirstName if byte == b'}' => self.closed(),
            Next::Value | Next::FirstElement => self.value(text, byte, false),
            Next::Element => self.value(text, byte, true),
            Next::FirstName => self.name(text, byte, false),
            Next::Name => self.name(text, byte, true),
            Next::Colon if byte == b':' => self.after_sign(Next::Value),
            Next::Colon => self.refused("a colon is missing between a name and its value"),
            Next::Rest => self.rest(text, byte),
        }
    }

    /// What is wrong where the text ends.
    fn at_end(self, text: &str) -> Option<Flaw> {
        match self.next {
            Next::Rest if self.open.depth == 0 => None,
            Next::Value if self.open.depth == 0 => Some(Flaw::at(
                text.len(),
                "the text has no value",
            )),
            _ => Some(Flaw::at(text.len(), "the text ends here, in the middle of a value")),
        }
    }
}

/// Where a text stops being JSON; nothing where it is JSON.
pub(crate) fn flaw_of(text: &str) -> Option<Flaw> {
    if text.starts_with('\u{feff}') {
        return Some(Flaw::at(
            0,
            "a byte order mark may not be before JSON: save the file without one",
        ));
    }
    let mut scan = Scan {
        at: 0,
        next: Next::Value,
        open: Brackets {
            depth: 0,
            objects: 0,
        },
    };
    for _ in 0..text.len().saturating_add(1) {
        let at = blanks_end(text, scan.at);
        let Some(byte) = text.as_bytes().get(at) else {
            return scan.at_end(text);
        };
        match (Scan { at, ..scan }).step(text, *byte) {
            Ok(further) => scan = further,
            Err(flaw) => return Some(flaw),
        }
    }
    None
}
