//! The grammar, one token ahead.
mod enums;
mod fields;
mod lists;
mod metadata;
mod schema;
mod unions;

ghost use Rattle.std.specs.Prelude.{◌≡◌, ◌<◌, ◌≤◌, length, drop, Some, None, IfOk, IfSome, IsTrue};
ghost use Rattle.std.specs.Prelude.{MatchBool, MatchOption};
ghost use Rattle.fb_syntax.specs.Lexemes.{IsReadable, AreReadable, lexemes, located};
ghost use Rattle.fb_syntax.specs.TokenBytes.{IsSmall};
ghost use Rattle.fb_syntax.specs.Rules.{rule_before, front_text, is_sign, more, token, token_at};
ghost use Rattle.fb_syntax.specs.Grammar.{dotted_name};
ghost use Rattle.fb_syntax.specs.Stops.{Gives, Passes, fault_at};
ghost use Rattle.fb_syntax.specs.declared.tokens.TokenKind.TheVariants.{Punct};

use crate::declarations::{DottedName, Text};
use crate::faults::SyntaxFault;
use crate::tokens::{Token, TokenKind};
pub(crate) use schema::declarations_of;
use std::alloc::Global;
use std::borrow::CowStr;
use std::marker::Model;

/// Why the parser stops, at its next token.
#[derive(Clone, Copy, Drop)]
enum Stop {
    /// The grammar doesn't allow the token there.
    Unexpected,
    /// A vector stands inside a vector.
    NestedVector,
    Memory,
}

impl Stop {
    /// The fault of a parser whose next token stands at an offset.
    fn at(self, offset: u64) -> SyntaxFault
        ensures { result ≡ fault_at self offset }
    {
        match self {
            Stop::Unexpected => SyntaxFault::Unexpected(offset),
            Stop::NestedVector => SyntaxFault::NestedVector(offset),
            Stop::Memory => SyntaxFault::Memory,
        }
    }
}

/// The tokens that are left, and the text that they stand in.
#[derive(Drop)]
struct Parser<'t, 's> {
    alloc: Global,
    text: &'t str,
    tokens: &'s [Token],
}

impl<'t, 's> Model for Parser<'t, 's> {
    ghost use Rattle.std.specs.Prelude.{List};
    ghost use Rattle.fb_syntax.specs.Lexemes.{Lexeme, AreReadable, lexemes};

    ghost Value = { List Lexeme };

    ghost view = { λ p. lexemes p.text.now p.tokens.now };

    ghost invariant = { λ p. AreReadable p.text.now p.tokens.now };
}

/// What a token says.
fn located<'t>(text: &'t str, token: Token) -> Text<'t>
    requires { IsReadable text.now token }
    ensures { result ≡ located text.now token }
{
    let margin = usize::from(token.kind == TokenKind::Quoted);
    let start = token.at as usize + margin;
    let end = token.at as usize + token.len as usize - margin;
    Text {
        text: &text[start..end],
        at: token.at,
    }
}

impl<'t, 's> Parser<'t, 's> {
    /// What the next token says, if it is of a kind.
    #[tactic(auto, unfolding(crate::specs::Rules::token_at))]
    fn peek(&self, kind: TokenKind) -> Option<Text<'t>>
        ensures exact { MatchOption result (token_at kind self.now ≡ None)
            (λ t. token_at kind self.now ≡ Some (t, drop 1 self.now)) }
        ensures some { IfSome result (λ _. 0 < length self.now) }
        ensures small { IfSome result (λ t. IsSmall kind t.bytes) }
    {
        match self.tokens {
            [next, ..] if next.kind == kind => Some(located(self.text, *next)),
            _ => None,
        }
    }

    /// Passes the next token, if it is of a kind.
    fn take(&mut self, kind: TokenKind) -> Option<Text<'t>>
        ensures exact { MatchOption result
            ((token_at kind self.old ≡ None) × (self.new ≡ self.old))
            (λ t. token_at kind self.old ≡ Some (t, self.new)) }
        ensures shorter { IfSome result (λ _. length self.new < length self.old) }
        ensures small { IfSome result (λ t. IsSmall kind t.bytes) }
    {
        let token = self.peek(kind)?;
        self.tokens = &self.tokens[1..];
        Some(token)
    }

    fn token(&mut self, kind: TokenKind) -> Result<Text<'t>, Stop>
        ensures exact { Gives (λ t. (t, self.new)) result (token_at kind self.old) }
        ensures shorter { IfOk result (λ _. length self.new < length self.old) }
        ensures small { IfOk result (λ t. IsSmall kind t.bytes) }
    {
        self.take(kind).ok_or(Stop::Unexpected)
    }

    /// Passes this sign, if it is the next token.
    #[tactic(auto, using(crate::proofs::Agrees::front_found))]
    fn skip(&mut self, sign: u8) -> bool
        ensures exact { MatchBool result (token_at (Punct sign) self.old ≡ Some (front_text self.old, self.new))
            ((token_at (Punct sign) self.old ≡ None) × (self.new ≡ self.old)) }
        ensures shorter { IsTrue result → length self.new < length self.old }
    {
        self.take(TokenKind::Punct(sign)).is_some()
    }

    /// Passes this sign, which has to be the next token.
    fn expect(&mut self, sign: u8) -> Result<(), Stop>
        ensures { Passes (λ _. front_text self.old) result (token (Punct sign)) self.old self.new }
    {
        self.skip(sign).then_some(()).ok_or(Stop::Unexpected)
    }

    fn is_sign(&self, sign: u8) -> bool
        ensures { result ≡ is_sign sign self.now }
    {
        matches!(self.tokens, [next, ..] if next.kind == TokenKind::Punct(sign))
    }

    #[tactic(auto, unfolding(crate::specs::Grammar::dotted_name))]
    fn name(&mut self) -> Result<DottedName<'t>, Stop>
        ensures { Passes (λ n. n) result dotted_name self.old self.new }
    {
        let first = self.token(TokenKind::Word)?;
        self.name_from(first)
    }

    /// A token, and this sign after it.
    fn token_before(&mut self, kind: TokenKind, sign: u8) -> Result<Text<'t>, Stop>
        ensures { Passes (λ t. t) result (rule_before (token kind) sign) self.old self.new }
    {
        let token = self.token(kind)?;
        self.expect(sign).and(Ok(token))
    }

    /// A name, and this sign after it.
    fn name_before(&mut self, sign: u8) -> Result<DottedName<'t>, Stop>
        ensures { Passes (λ n. n) result (rule_before dotted_name sign) self.old self.new }
    {
        let name = self.name()?;
        self.expect(sign).and(Ok(name))
    }

    /// A name whose first word is read already.
    #[tactic(auto, using(crate::proofs::Repeat::begins))]
    fn name_from(&mut self, first: Text<'t>) -> Result<DottedName<'t>, Stop>
        ensures exact { Gives (λ n. (n, self.new)) result ((more first.entry).read self.old) }
        ensures shorter { IfOk result (λ _. length self.new ≤ length self.old) }
    {
        let mut name = DottedName {
            text: CowStr::Borrowed(first.text),
            at: first.at,
        };
        while self.skip(b'.') {
            let word = self.token(TokenKind::Word)?;
            name = name.join(self.alloc, word.text).or(Err(Stop::Memory))?;
        }
        Ok(name)
    }
}
