//! A schema text, from bytes to declarations.
ghost use Rattle.std.specs.Prelude.{◌≡◌, ◌↔◌, ℕ, IfOk, IfErr, MatchResult, Err, IsUtf8, length};
ghost use Rattle.std.specs.Str.Lossy.{utf8_valid_len};
ghost use Rattle.fb_syntax.specs.DeclsRead.{DeclsRead};
ghost use Rattle.fb_syntax.specs.OneReading.{OneReading};
ghost use Rattle.fb_syntax.specs.Parsed.{Parses};
ghost use Rattle.fb_syntax.specs.Refusals.{IsToldOfUtf8, IsToldOfNoTokens, IsToldOfTokens, StandsWithin};

use crate::declarations::Decls;
use crate::faults::SyntaxFault;
use crate::parser::declarations_of;
use crate::scan::{text_of, tokens_in};
use std::alloc::Global;

/// What a schema text declares.
///
/// UTF-8 is checked over the whole text first, then tokens over the whole text, then the grammar
/// (FlatBuffers documentation, "Grammar"); the first fault in this order and in the text is
/// returned, with its offset in bytes.
pub fn parse<'t>(alloc: Global, text: &'t [u8]) -> Result<Decls<'t>, SyntaxFault>
    ensures parses { IfOk result (Parses text.now) }
    ensures exact { (d : DeclsRead) → Parses text.now d
        → MatchResult result (λ r. r ≡ d) (λ e. e ≡ SyntaxFault.Memory) }
    ensures not_utf8 { (at : ℕ) → ((result ≡ Err (SyntaxFault.NotUtf8 at))
        ↔ (¬ (IsUtf8 text.now) × (at ≡ utf8_valid_len text.now))) }
    ensures utf8 { IfErr result (IsToldOfUtf8 text.now) }
    ensures spelled_by_none { IfErr result (IsToldOfNoTokens text.now) }
    ensures spelled { IfErr result (IsToldOfTokens text.now) }
    ensures within { IfErr result (StandsWithin (length text.now)) }
{
    let readable = text_of(text)?;
    let tokens = tokens_in(alloc, readable)?;
    declarations_of(alloc, readable, tokens.as_slice())
}

/// The tokens of a text read as at most one list of declarations.
#[tactic(auto, using(crate::proofs::ReadsAs::one_reading_shown))]
pub fn one_reading()
    ensures { OneReading }
{}
