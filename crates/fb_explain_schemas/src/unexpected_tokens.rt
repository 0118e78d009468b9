//! Why a token isn't expected in a schema text: what was meant by it, or what is expected in its place.
use crate::missing_signs::sign_after;
use crate::schema_tokens::{is_word, token_after};
use crate::statements::{DECLARING_WORDS, Statement, statement_at};
use fb_findings::{Note, Position, is_one_of, nearest, push_meant, push_names, value_of};
use std::str;

/// The first words of declarations in other languages, and what FlatBuffers has in their place.
const FOREIGN_WORDS: &[(&str, &str)] = &[
    (
        "syntax",
        ": this looks like Protocol Buffers; a schema of FlatBuffers has tables, and no such line",
    ),
    (
        "message",
        ": this looks like Protocol Buffers; a message is a 'table' in FlatBuffers",
    ),
    (
        "package",
        ": this looks like Protocol Buffers; a package is a 'namespace' in FlatBuffers",
    ),
    (
        "option",
        ": this looks like Protocol Buffers; a schema of FlatBuffers has no options",
    ),
    (
        "service",
        ": this looks like Protocol Buffers; services aren't supported",
    ),
    (
        "import",
        ": other files can't be included: put all declarations into one text",
    ),
    ("object", ": what has fields is a 'table' or a 'struct'"),
    ("class", ": what has fields is a 'table' or a 'struct'"),
    ("record", ": what has fields is a 'table' or a 'struct'"),
    ("interface", ": what has fields is a 'table' or a 'struct'"),
    ("type", ": what has fields is a 'table' or a 'struct'"),
];

/// The first words of declarations that have a text in quotes after them.
const BEFORE_TEXTS: &[&str] = &["file_identifier", "file_extension"];

/// The declaring word that was meant by a word, where one is near it.
fn word_meant(note: &mut Note, word: &[u8]) -> Option<&'static str> {
    let word = match str::from_utf8(word) {
        Ok(word) => word,
        Err(_) => return None,
    };
    let at = nearest(note, DECLARING_WORDS, word)?;
    DECLARING_WORDS.get(at).copied()
}

/// Adds what a declaration begins with, after a word that begins none.
fn push_first_words(note: &mut Note, word: &[u8]) {
    if let Some(sentence) = value_of(FOREIGN_WORDS, word) {
        note.push_str(sentence);
        return;
    }
    match word_meant(note, word) {
        Some(meant) => push_meant(note, meant),
        None => {
            note.push_str(": declarations begin with ");
            push_names(note, DECLARING_WORDS);
        }
    }
}

/// Adds what is expected after the first word of a declaration.
fn push_needed_name(note: &mut Note, first: &[u8], token: &[u8], next: &[u8]) {
    if is_one_of(BEFORE_TEXTS, first) {
        note.push_str(": a text in double quotes is expected");
    } else if matches!(token.first(), Some(b'"')) {
        note.push_str(": the name is written without quotes");
    } else if first == "root_type".as_bytes() && is_word(next) {
        note.push_str(": a type's name is expected: 'root_type ");
        note.push_cut(next);
        note.push_str(";'");
    } else {
        note.push_str(": a name is expected");
    }
}

/// Why a sign may not be in a statement.
fn misplaced_sign(statement: Statement<'_>, sign: &[u8]) -> Option<&'static str> {
    match sign.first()? {
        b'{' if statement.first == "namespace".as_bytes() => {
            Some(": a namespace has no braces, and ends with ';'")
        }
        b';' if statement.has_values() => { Some(": values and members are separated by commas") }
        b'=' if statement.owner == "union".as_bytes() => {
            Some(": a union's members have no numbers here, and are counted from 1 on")
        }
        _ => None,
    }
}

/// Adds why a token isn't expected at an offset, where the tokens around it show that.
pub(crate) fn push_reason(note: &mut Note, text: &[u8], token: &[u8], offset: usize) {
    let statement = statement_at(text, offset);
    if let Some(at) = statement.unclosed_brace(token) {
        note.push_str(": the '{' of line ");
        note.push_number(Position::of(text, at).line as u64);
        note.push_str(" isn't closed");
        return;
    }
    if statement.owner.is_empty() && statement.count == 0 && is_word(token) {
        push_first_words(note, token);
        return;
    }
    if statement.owner.is_empty() && statement.count == 1 {
        push_needed_name(note, statement.first, token, token_after(text, offset));
        return;
    }
    let reason = match misplaced_sign(statement, token) {
        Some(reason) => Some(reason),
        None => sign_after(statement),
    };
    note.push_str(reason.unwrap_or(""));
}
