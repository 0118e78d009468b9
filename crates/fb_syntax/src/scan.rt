//! The tokens of a text.
ghost use Rattle.std.specs.Prelude.{◌≡◌, ◌≤◌, ◌<◌, ◌+◌, ◌^◌, ◌∷◌, ℕ, length, drop, get_or, List, false};
ghost use Rattle.std.specs.Prelude.{IfSome, IfOk, IfErr, IsTrue, IsUtf8, MatchOption, MatchResult};
ghost use Rattle.std.specs.Str.Lossy.{utf8_valid_len};
ghost use Rattle.fb_syntax.specs.declared.tokens.Token.{Token};
ghost use Rattle.fb_syntax.specs.declared.tokens.TokenKind.TheVariants.{Integer};
ghost use Rattle.fb_syntax.specs.Gaps.{is_close, ClosesBehind};
ghost use Rattle.fb_syntax.specs.Spells.{IsFront, SpellsText, OneSpelling, mark_len};
ghost use Rattle.fb_syntax.specs.TokenBytes.{starts};
ghost use Rattle.fb_syntax.specs.BadTokens.{fault_of, refused_len};
ghost use Rattle.fb_syntax.specs.Refusals.{StandsWithin, IsTokenFault};

use crate::bytes::{ByteClass, is_blank, is_digit, is_letter, is_punct, is_sign};
use crate::faults::SyntaxFault;
use crate::integers::{magnitude, number_len, sign_len};
use crate::tokens::{BadToken, Token, TokenKind};
use simdutf8::compat;
use std::alloc::Global;

// What stands at a text's front, with its length. What spells a text is defined by it.
#[derive(Clone, Copy)]
enum GapOrToken {
    Gap(usize),
    Token(TokenKind, usize),
}

fn is_close(text: &[u8]) -> bool
    ensures close { result ≡ is_close text.now }
    ensures long { IsTrue result → 2 ≤ length text.now }
{
    matches!(text, [b'*', b'/', ..])
}

// How many bytes stand before the first end of a block comment.
fn before_close(text: &[u8]) -> Option<usize>
    ensures first { MatchOption result ((n : ℕ) → is_close (drop n text.now) ≡ false)
        (λ n. ClosesBehind n text.now) }
    ensures within { IfSome result (λ n. n + 2 ≤ length text.now) }
{
    for i in 0..text.len() {
        if is_close(&text[i..]) {
            return Some(i);
        }
    }
    None
}

// The comment after a slash at `at`.
#[tactic(auto, using(crate::proofs::FirstBytes::comments))]
fn comment(at: u64, text: &[u8]) -> Result<GapOrToken, SyntaxFault>
    ensures piece { IsFront (47 ∷ text.now) result }
    ensures fault { IfErr result (λ e. e ≡ fault_of at (47 ∷ text.now)) }
{
    match text {
        [b'/', rest @ ..] => Ok(GapOrToken::Gap(2 + ByteClass::Line.run(rest))),
        [b'*', rest @ ..] => match before_close(rest) {
            Some(len) => Ok(GapOrToken::Gap(len + 4)),
            None => Err(SyntaxFault::Unterminated(at)),
        },
        _ => Err(SyntaxFault::BadByte(at)),
    }
}

// The quoted text after a quote at `at`.
#[tactic(auto, using(crate::proofs::LongestTokens::no_quoted))]
fn quoted(at: u64, text: &[u8]) -> Result<GapOrToken, SyntaxFault>
    requires { at + length text.now < 2 ^ 64 }
    ensures piece { IsFront (34 ∷ text.now) result }
    ensures fault { IfErr result (λ e. e ≡ fault_of at (34 ∷ text.now)) }
{
    let len = ByteClass::Quotable.run(text);
    match text.get(len) {
        None => Err(SyntaxFault::Unterminated(at)),
        Some(b'"') => Ok(GapOrToken::Token(TokenKind::Quoted, len + 2)),
        Some(_) => Err(SyntaxFault::BadByte(at + len as u64 + 1)),
    }
}

// The integer at `at`.
fn integer(at: u64, text: &[u8]) -> Result<GapOrToken, SyntaxFault>
    requires { IsTrue (starts Integer (get_or text.now 0 0)) }
    ensures piece { IsFront text.now result }
    ensures fault { IfErr result (λ e. e ≡ fault_of at text.now) }
{
    let sign = sign_len(text);
    let len = number_len(&text[sign..]);
    if len == 0 {
        return Err(SyntaxFault::BadByte(at));
    }
    match magnitude(&text[..sign + len]) {
        Some(_) => Ok(GapOrToken::Token(TokenKind::Integer, sign + len)),
        None => Err(SyntaxFault::NumberTooBig(at)),
    }
}

// What stands at `at`, where `text` begins.
fn next_piece(at: u64, text: &[u8]) -> Result<GapOrToken, SyntaxFault>
    requires { at + length text.now < 2 ^ 64 }
    ensures piece { IsFront text.now result }
    ensures fault { IfErr result (λ e. e ≡ fault_of at text.now) }
{
    let [first, rest @ ..] = text else {
        return Err(SyntaxFault::BadByte(at));
    };
    let first = *first;
    if is_blank(first) {
        Ok(GapOrToken::Gap(1))
    } else if first == b'/' {
        comment(at, rest)
    } else if is_letter(first) {
        Ok(GapOrToken::Token(TokenKind::Word, 1 + ByteClass::Word.run(rest)))
    } else if first == b'"' {
        quoted(at, rest)
    } else if is_punct(first) {
        Ok(GapOrToken::Token(TokenKind::Punct(first), 1))
    } else if is_digit(first) || is_sign(first) {
        integer(at, text)
    } else {
        Err(SyntaxFault::BadByte(at))
    }
}

fn mark_len(text: &[u8]) -> usize
    ensures len { result ≡ mark_len text.now }
    ensures within { result ≤ length text.now }
{
    if text.starts_with(&[0xef, 0xbb, 0xbf]) {
        3
    } else {
        0
    }
}

// How many bytes at a text's front are refused together, where no piece stands there.
fn refused_len(text: &[u8]) -> usize
    ensures len { result ≡ refused_len text.now }
    ensures some { 0 < length text.now → 0 < result }
    ensures within { result ≤ length text.now }
{
    let [first, rest @ ..] = text else {
        return 0;
    };
    1 + match (*first, rest) {
        (b'"', _) => ByteClass::Line.run(rest),
        (b'/', [b'*', ..]) => rest.len(),
        (b'0'..=b'9' | b'+' | b'-', _) => ByteClass::Word.run(rest),
        _ => ByteClass::Continuation.run(rest),
    }
}

/// The tokens of a text in order; where none is, the bytes that are refused, and then what is after them.
#[derive(Clone, Copy, Debug, Drop)]
pub struct Tokens<'t> {
    /// It needn't be UTF-8.
    pub text: &'t [u8],
    /// The offset from which on tokens are read.
    pub at: usize,
}

impl<'t> Tokens<'t> {
    /// All tokens of a text, after its byte order mark if it has one; offsets count the mark.
    pub fn of(text: &'t [u8]) -> Tokens<'t>
        ensures text { result.text.now ≡ text.now }
        ensures at { result.at ≡ mark_len text.now }
        ensures within { result.at ≤ length text.now }
    {
        let at = mark_len(text);
        Tokens { text, at }
    }
}

impl<'t> Iterator for Tokens<'t> {
    ghost use Rattle.std.specs.Prelude.{◌-◌, length};
    ghost use Rattle.std.specs.Iterator.{at_most};
    ghost use Rattle.fb_syntax.specs.NextToken.{GivesToken};

    type Item = Result<Token, BadToken>;

    ghost next_gives = { GivesToken };

    ghost remaining = { λ tokens. at_most (length tokens.text.now - tokens.at) };

    fn next(&mut self) -> Option<Result<Token, BadToken>> {
        while self.at < self.text.len() {
            let at = self.at as u64;
            let rest = &self.text[self.at..];
            match next_piece(at, rest) {
                Ok(GapOrToken::Gap(len)) => self.at += len,
                Ok(GapOrToken::Token(kind, len)) => {
                    self.at += len;
                    let len = len as u64;
                    return Some(Ok(Token { kind, at, len }));
                }
                Err(fault) => {
                    let len = refused_len(rest);
                    self.at += len;
                    let len = len as u64;
                    return Some(Err(BadToken { fault, at, len }));
                }
            }
        }
        None
    }
}

/// The bytes as text, or the length of their longest front that is UTF-8.
pub(crate) fn text_of(bytes: &[u8]) -> Result<&str, SyntaxFault>
    ensures text { IfOk result (λ s. (s.now ≡ bytes.now) × IsUtf8 bytes.now) }
    ensures not_utf8 { IfErr result (λ e.
        ¬ (IsUtf8 bytes.now) × (e ≡ SyntaxFault.NotUtf8 (utf8_valid_len bytes.now))) }
{
    compat::from_utf8(bytes).map_err(|fault| SyntaxFault::NotUtf8(fault.valid_up_to() as u64))
}

/// The tokens of a text, after its byte order mark if it has one; offsets count the mark.
pub(crate) fn tokens_in(alloc: Global, text: &str) -> Result<Vec<Token>, SyntaxFault>
    ensures found { IfOk result (λ v. SpellsText text.now v.items) }
    ensures only { (tokens : List Token) →
        SpellsText text.now tokens
        → MatchResult result (λ v. v.items ≡ tokens) (λ e. e ≡ SyntaxFault.Memory) }
    ensures fault { IfErr result IsTokenFault }
    ensures within { IfErr result (StandsWithin (length text.now)) }
{
    let mut found = Vec::new(alloc);
    for token in Tokens::of(text.as_bytes()) {
        found.push(token?).or(Err(SyntaxFault::Memory))?;
    }
    Ok(found)
}

/// A text is spelled by one list of tokens at most.
#[tactic(auto, using(crate::proofs::FrontPieces::one_spelling_shown))]
pub fn one_spelling()
    ensures { OneSpelling }
{}
