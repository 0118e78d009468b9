//! What is wrong with the tokens and the grammar of a schema text.
use crate::file_kinds::{FileKind, kind_of_file};
use crate::refusals::Which;
use crate::schema_tokens::{is_word, token_after, token_at};
use crate::type_names::is_base;
use crate::unexpected_tokens::push_reason;
use crate::unsupported::{Before, before_at, unsupported_at};
use fb_findings::{Note, is_one_of};
use fb_syntax::SyntaxFault;

/// The last tokens of types whose fields may always be absent.
const OPTIONAL_ALREADY: &[&str] = &["string", "]"];

/// What to say after a sign that begins no token, where another language has it.
fn question_sentence(last: &[u8]) -> &'static str {
    if is_one_of(OPTIONAL_ALREADY, last) {
        return " may not be here: such a field is optional already";
    }
    if is_base(last) {
        return " may not be here: a number is optional with '= null' after its type";
    }
    " may not be here: a table's field is optional already, and an enum with '= null' after its type"
}

/// What other languages call a map.
const MAPS: &[&str] = &[
    "map",
    "Map",
    "unordered_map",
    "HashMap",
    "dict",
    "Dict",
    "Dictionary",
];

/// What other languages call a vector.
const VECTORS: &[&str] = &["vector", "Vector", "Vec", "list", "List", "array", "Array"];

/// Adds how a vector of a type is written.
fn push_vector(note: &mut Note, element: &[u8]) {
    note.push_str("a vector of ");
    note.push_name(element);
    note.push_str(" is written [");
    note.push_cut(element);
    note.push_str("]")
}

/// What to say of a sign that begins no token, by itself and the token before it.
fn bad_byte_sentence(token: &[u8], last: &[u8]) -> &'static str {
    match token.first() {
        Some(b'?') => question_sentence(last),
        Some(b'#') => " may not be here: comments begin with //",
        Some(b'<') if is_one_of(MAPS, last) => {
            " may not be here: a map is written as a vector of tables, each with a key and a value"
        }
        Some(b'-') if is_word(last) => " may not be here: a name has letters, digits and '_'",
        _ => " may not be here: no word, number or sign of the language begins with it",
    }
}

fn push_bad_byte(note: &mut Note, text: &[u8], offset: usize) {
    let token = token_at(text, offset);
    let last = before_at(text, offset).last;
    let next = token_after(text, offset);
    note.push_name(token);
    if matches!(token.first(), Some(b'<')) && is_one_of(VECTORS, last) && is_word(next) {
        note.push_str(" may not be here: ");
        push_vector(note, next);
        return;
    }
    note.push_str(bad_byte_sentence(token, last));
}

/// Whether a bracket is opened here after a type's name, as other languages write vectors.
fn is_array_of(token: &[u8], before: Before<'_>) -> bool {
    matches!(token.first(), Some(b'['))
        && is_word(before.last)
        && matches!(before.second.first(), Some(b':'))
}

fn push_unexpected(note: &mut Note, text: &[u8], offset: usize) {
    if let Some(what) = unsupported_at(text, offset) {
        note.push_str(what.sentence);
        return;
    }
    let token = token_at(text, offset);
    if token.is_empty() {
        note.push_str("the text ends here, in the middle of a declaration");
        return;
    }
    note.push_name(token);
    note.push_str(" isn't expected here");
    let before = before_at(text, offset);
    if is_array_of(token, before) {
        note.push_str(": ");
        push_vector(note, before.last);
        return;
    }
    push_reason(note, text, token, offset);
}

/// Adds what is wrong with a schema text that can't be parsed.
pub(crate) fn push_syntax_sentence(
    note: &mut Note,
    text: &[u8],
    offset: usize,
    fault: SyntaxFault,
) {
    match fault {
        SyntaxFault::NotUtf8(_) => note.push_str("the text isn't UTF-8 from here on"),
        SyntaxFault::BadByte(_) => push_bad_byte(note, text, offset),
        SyntaxFault::Unterminated(_) if text.get(offset) == Some(&b'"') => {
            note.push_str("this text has no closing quote")
        }
        SyntaxFault::Unterminated(_) => note.push_str("this comment has no end"),
        SyntaxFault::NumberTooBig(_) => {
            note.push_str("the number ");
            note.push_cut(token_at(text, offset));
            note.push_str(" is too large for 64 bits")
        }
        SyntaxFault::Unexpected(_) => push_unexpected(note, text, offset),
        SyntaxFault::NestedVector(_) => {
            note.push_str("a vector of vectors isn't supported: put the inner one into a table")
        }
        SyntaxFault::Memory => {}
    }
}

/// What a file is that isn't a schema at all.
pub(crate) fn another_kind(text: &[u8], which: Which) -> Option<&'static str> {
    match (kind_of_file(text)?, which) {
        (FileKind::Json, Which::Only) => Some("this looks like JSON: SCHEMA comes first"),
        (FileKind::Json, _) => Some("this looks like JSON: conform compares two schemas"),
        (FileKind::Buffer, Which::Only) => Some("this looks like a buffer: SCHEMA comes first"),
        (FileKind::Buffer, _) => Some("this looks like a buffer: conform compares two schemas"),
        (FileKind::Schema, _) => None,
    }
}
