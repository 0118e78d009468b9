//! Sentences for people.
use bstr::decode_utf8;
use itoa::Buffer;
use std::alloc::{AllocError, Global};

// How many columns a tab takes.
const TAB: usize = 4;

// How many bytes of a name are shown.
const LONGEST_NAME: usize = 60;

const DIGITS: [char; 16] = [
    '0', '1', '2', '3', '4', '5', '6', '7', '8', '9', 'a', 'b', 'c', 'd', 'e', 'f',
];

/// Words that are added one after another; bytes that aren't UTF-8 are escaped.
///
/// Once memory ran out nothing is added any more.
#[derive(Drop)]
pub struct Note {
    alloc: Global,
    text: String,
    /// The first growth that was refused.
    failed: Option<AllocError>,
}

impl Note {
    /// A note without words.
    pub fn new(alloc: Global) -> Note {
        Note {
            alloc,
            text: String::new(alloc),
            failed: None,
        }
    }

    /// Where the note takes its memory from.
    pub fn alloc(&self) -> Global {
        self.alloc
    }

    pub fn as_str(&self) -> &str {
        self.text.as_str()
    }

    pub fn is_empty(&self) -> bool {
        self.text.is_empty()
    }

    /// The first growth that was refused, where one was.
    pub fn failed(&self) -> Option<AllocError> {
        self.failed
    }

    /// The words, unless memory ran out.
    pub fn into_text(self) -> Result<String, AllocError> {
        let Self {
            alloc: _,
            text,
            failed,
        } = self;
        match failed {
            Some(error) => Err(error),
            None => Ok(text),
        }
    }

    /// Takes the words out again.
    pub fn clear(&mut self) {
        self.text.clear();
    }

    /// What was allocated; a first failure is kept.
    pub fn keep<T>(&mut self, allocated: Result<T, AllocError>) -> Option<T> {
        match allocated {
            Ok(value) => Some(value),
            Err(error) => {
                self.failed.get_or_insert(error);
                None
            }
        }
    }

    /// Notes that memory ran out elsewhere, so that there are no words either.
    pub fn run_out(&mut self) {
        self.failed.get_or_insert(AllocError);
    }

    fn push(&mut self, character: char) {
        if self.failed.is_none() {
            let pushed = self.text.push(character);
            self.keep(pushed);
        }
    }

    /// Adds `count` spaces.
    pub fn push_spaces(&mut self, count: usize) {
        for _ in 0..count {
            self.push(' ');
        }
    }

    /// Adds a character; a tab as spaces.
    fn push_character(&mut self, character: char) {
        if character == '\t' {
            self.push_spaces(TAB);
        } else {
            self.push(character);
        }
    }

    /// Adds bytes that are no character.
    fn push_escaped(&mut self, bytes: &[u8]) {
        for byte in bytes {
            self.push_str("\\x");
            self.push_hex(*byte);
        }
    }

    /// Adds a byte as two hexadecimal digits.
    pub fn push_hex(&mut self, byte: u8) {
        self.push(DIGITS[usize::from(byte / 16)]);
        self.push(DIGITS[usize::from(byte % 16)]);
    }

    /// Adds a text as it is shown.
    pub fn push_shown(&mut self, bytes: &[u8]) {
        let mut rest = bytes;
        for _ in 0..bytes.len() {
            let (character, size) = decode_utf8(rest);
            match character {
                Some(character) => self.push_character(character),
                None => self.push_escaped(rest.get(..size).unwrap_or(&[])),
            }
            rest = rest.get(size..).unwrap_or(&[]);
            if rest.is_empty() {
                break;
            }
        }
    }

    /// Adds a text, with each tab as spaces.
    pub fn push_str(&mut self, text: &str) {
        for character in text.chars() {
            self.push_character(character);
        }
    }

    /// Adds a name of the user's in quotes, cut where it is long.
    pub fn push_name(&mut self, name: &[u8]) {
        self.push_str("'");
        self.push_cut(name);
        self.push_str("'");
    }

    /// Adds the front of a text of the user's.
    pub fn push_cut(&mut self, text: &[u8]) {
        match text.get(..LONGEST_NAME) {
            Some(front) => {
                self.push_shown(front);
                self.push_str("...");
            }
            None => self.push_shown(text),
        }
    }

    /// Adds a number in decimal.
    pub fn push_number(&mut self, number: u64) {
        self.push_str(Buffer::new().format(number));
    }

    /// Adds a number in decimal, which may have a sign.
    pub fn push_integer(&mut self, number: i128) {
        self.push_str(Buffer::new().format(number));
    }
}
