//! What of a schema text is before a token: the statement so far, and what it is in.
use crate::schema_tokens::{Token, Tokens, is_word};
use fb_findings::is_one_of;

/// The words that declarations begin with.
pub(crate) const DECLARING_WORDS: &[&str] = &[
    "table",
    "struct",
    "enum",
    "union",
    "namespace",
    "root_type",
    "attribute",
    "file_identifier",
    "file_extension",
];

/// What has values or members, with commas between them.
const OWNERS_OF_VALUES: &[&str] = &["enum", "union"];

/// Whether a token is a word or a quoted text.
fn begins_a_name(token: &[u8]) -> bool {
    is_word(token) || matches!(token.first(), Some(b'"'))
}

/// What is before a token.
#[derive(Clone, Copy)]
pub(crate) struct Statement<'t> {
    /// The first word of what encloses the statement, as `table`.
    pub(crate) owner: &'t [u8],
    /// The offset of the brace that opened the owner.
    opened_at: usize,
    pub(crate) first: &'t [u8],
    pub(crate) last: &'t [u8],
    pub(crate) count: usize,
    is_in_brackets: bool,
}

impl<'t> Statement<'t> {
    fn of(owner: &'t [u8], opened_at: usize) -> Statement<'t> {
        Statement {
            owner,
            opened_at,
            first: b"",
            last: b"",
            count: 0,
            is_in_brackets: false,
        }
    }

    fn followed_by(self, token: Token<'t>) -> Statement<'t> {
        match token.bytes.first() {
            Some(b'{') => Statement::of(self.first, token.at),
            Some(b'}') => Statement::of(b"", 0),
            Some(b';') => Statement::of(self.owner, self.opened_at),
            _ => self.continued_by(token.bytes),
        }
    }

    fn continued_by(self, word: &'t [u8]) -> Statement<'t> {
        Statement {
            owner: self.owner,
            opened_at: self.opened_at,
            first: if self.count == 0 { word } else { self.first },
            last: word,
            count: self.count.saturating_add(1),
            is_in_brackets: match word.first() {
                Some(b'(' | b'[') => true,
                Some(b')' | b']') => false,
                _ => self.is_in_brackets,
            },
        }
    }

    /// Whether a word, number or closing bracket is last, outside of brackets.
    pub(crate) fn ends_a_value(&self) -> bool {
        if self.is_in_brackets {
            return false;
        }
        match self.last {
            [b')' | b']'] => true,
            [first, ..] => first.is_ascii_alphanumeric() || matches!(first, b'_' | b'"'),
            [] => false,
        }
    }

    /// The offset of the owner's brace, where a word of a next declaration shows that it isn't closed.
    pub(crate) fn unclosed_brace(&self, token: &[u8]) -> Option<usize> {
        if self.owner.is_empty() {
            return None;
        }
        let is_next = if is_one_of(DECLARING_WORDS, self.last) {
            begins_a_name(token) && (self.count == 1 || self.has_values())
        } else {
            is_one_of(DECLARING_WORDS, token) && self.has_values()
        };
        if is_next { Some(self.opened_at) } else { None }
    }

    /// Whether the owner is an enum or a union.
    pub(crate) fn has_values(&self) -> bool {
        is_one_of(OWNERS_OF_VALUES, self.owner)
    }
}

/// What is before an offset.
pub(crate) fn statement_at(text: &[u8], offset: usize) -> Statement<'_> {
    let mut statement = Statement::of(b"", 0);
    for token in Tokens::of(text) {
        if token.at >= offset {
            return statement;
        }
        statement = statement.followed_by(token);
    }
    statement
}
