//! Tokens and where they stand.
use crate::faults::SyntaxFault;

/// What a token is (Grammar: identifiers, integer constants, string constants, and the grammar's signs).
#[derive(Clone, Copy, Debug, PartialEq, Eq, Drop)]
pub enum TokenKind {
    Word,
    Integer,
    Quoted,
    /// One of `{ } ( ) [ ] : ; , . =`.
    Punct(u8),
}

/// A token: its kind, its offset and its length in bytes.
#[derive(Clone, Copy, Debug, PartialEq, Eq, Drop)]
pub struct Token {
    pub kind: TokenKind,
    pub at: u64,
    pub len: u64,
}

/// Bytes of a text that are no token: why, their offset and their length in bytes.
#[derive(Clone, Copy, Debug, PartialEq, Eq, Drop)]
pub struct BadToken {
    pub fault: SyntaxFault,
    pub at: u64,
    pub len: u64,
}

impl From<BadToken> for SyntaxFault {
    ghost use Rattle.std.specs.Prelude.{◌≡◌};

    ghost from_gives = { λ bad e. e ≡ bad.fault };

    fn from(bad: BadToken) -> SyntaxFault {
        bad.fault
    }
}
