//! What of FlatBuffers' schema language isn't supported, wherever a text has it.
ghost use Rattle.std.specs.Prelude.{◌≡◌, Some, IfOk, OnOk};
ghost use Rattle.fb_findings.specs.Positions.{line_starts};
ghost use Rattle.fb_findings.specs.Findings.{IsPlacedIn};
ghost use Rattle.fb_explain_schemas.specs.Refusals.{AddsPlaced};
ghost use Rattle.fb_declare.specs.TextFaultTable.{offset_of};

use crate::refusals::Which;
use crate::schema_tokens::{Token, Tokens, token_at};
use crate::type_names::is_base;
use fb_declare::{SchemaFault, SchemaTextFault};
use fb_findings::{Finding, LineStarts, Location, Source, value_of};
use fb_resolve::is_left_out;
use fb_syntax::SyntaxFault;
use std::alloc::{AllocError, Global};
use std::str;

/// The words that begin what isn't supported, and what to say of each.
const DECLARATIONS: &[(&str, &str)] = &[
    (
        "include",
        "'include' isn't supported: put all declarations into one text",
    ),
    (
        "native_include",
        "'include' isn't supported: put all declarations into one text",
    ),
    ("rpc_service", "services ('rpc_service') aren't supported"),
];

/// The last tokens of types, and why a field of one may not have a quoted default.
const QUOTED_DEFAULTS: &[(&str, &str)] = &[
    ("string", "default values of strings aren't supported"),
    ("]", "default values of vectors aren't supported"),
    (
        "bool",
        "the default of a bool is true or false, without quotes",
    ),
];

/// The floating-point types, and what to say of each.
const FLOATS: &[(&str, &str)] = &[
    ("float", FLOAT),
    ("float32", FLOAT),
    ("double", DOUBLE),
    ("float64", DOUBLE),
];

const FLOAT: &str =
    "floats aren't supported; int, a whole number of the same width, keeps the field's place in buffers";

const DOUBLE: &str =
    "floats aren't supported; long, a whole number of the same width, keeps the field's place in buffers";

/// The attributes that aren't supported, and what is stored without them.
const ATTRIBUTES: &[(&str, &str)] = &[
    (
        "key",
        "the attribute 'key' isn't supported: without it the same is stored, but Google's flatc sorts vectors by keys",
    ),
    (
        "hash",
        "the attribute 'hash' isn't supported: without it the same is stored, but JSON must have the hash as a number",
    ),
    (
        "shared",
        "the attribute 'shared' isn't supported: without it equal strings may be stored more than once",
    ),
    (
        "nested_flatbuffer",
        "the attribute 'nested_flatbuffer' isn't supported: without it the same is stored, but JSON has its bytes",
    ),
    (
        "flexbuffer",
        "the attribute 'flexbuffer' isn't supported: without it the same is stored, but JSON has its bytes",
    ),
    (
        "native_inline",
        "the attribute 'native_inline' isn't supported: it is for generated code, and without it the same is stored",
    ),
    (
        "native_default",
        "the attribute 'native_default' isn't supported: it is for generated code, and without it the same is stored",
    ),
    (
        "native_custom_alloc",
        "the attribute 'native_custom_alloc' isn't supported: it is for generated code, and without it the same is \
         stored",
    ),
    (
        "native_type",
        "the attribute 'native_type' isn't supported: it is for generated code, and without it the same is stored",
    ),
];

/// What to say of an attribute that isn't supported.
pub(crate) fn attribute_sentence(attribute: &[u8]) -> &'static str {
    value_of(ATTRIBUTES, attribute).unwrap_or(
        "this attribute isn't supported: it is for generated code, and without it the same is stored",
    )
}

/// The tokens before a token, the nearest first.
#[derive(Clone, Copy)]
pub(crate) struct Before<'t> {
    pub(crate) last: &'t [u8],
    pub(crate) second: &'t [u8],
    /// Whether a list of attributes is open.
    in_attributes: bool,
}

/// Whether a token names an attribute that isn't supported.
pub(crate) fn is_unsupported_attribute(token: &[u8]) -> bool {
    str::from_utf8(token).is_ok_and(|name| is_left_out(name))
}

fn is_a_number(word: &[u8]) -> bool {
    matches!(word, [b'0'..=b'9', ..] | [b'+' | b'-', b'0'..=b'9', ..])
}

/// Why a default may not be a quoted text, after the last token of its field's type.
fn quoted_default(kind: &[u8]) -> &'static str {
    if let Some(sentence) = value_of(QUOTED_DEFAULTS, kind) {
        return sentence;
    }
    if is_base(kind) {
        return "the default of a number is written without quotes";
    }
    "an enum's default is a value's name without quotes, and that of several flags the sum of their numbers"
}

/// What isn't supported at a place.
#[derive(Clone, Copy)]
pub(crate) struct Unsupported {
    pub(crate) sentence: &'static str,
    /// Whether a text that has it can be parsed.
    is_parsed: bool,
}

impl Unsupported {
    fn by_grammar(sentence: &'static str) -> Unsupported {
        Unsupported {
            sentence,
            is_parsed: false,
        }
    }

    fn by_rule(sentence: &'static str) -> Unsupported {
        Unsupported {
            sentence,
            is_parsed: true,
        }
    }

    /// The fault that `parse` or `declare` reports for it at an offset.
    fn fault(self, offset: u64) -> SchemaTextFault
        ensures { offset_of result ≡ Some offset }
    {
        if self.is_parsed {
            SchemaTextFault::Schema(SchemaFault::Unsupported(offset))
        } else {
            SchemaTextFault::Syntax(SyntaxFault::Unexpected(offset))
        }
    }
}

/// What isn't supported of a word after others.
fn unsupported_word(word: &[u8], before: Before<'_>) -> Option<Unsupported> {
    match before.last.first() {
        None | Some(b';' | b'}') => {
            let sentence = value_of(DECLARATIONS, word)?;
            Some(Unsupported::by_grammar(sentence))
        }
        Some(b':' | b'[') => {
            let sentence = value_of(FLOATS, word)?;
            Some(Unsupported::by_rule(sentence))
        }
        Some(b'(' | b',') if before.in_attributes && is_unsupported_attribute(word) => {
            Some(Unsupported::by_rule(attribute_sentence(word)))
        }
        _ => None,
    }
}

/// What isn't supported at a token after others.
fn find_unsupported(token: &[u8], before: Before<'_>) -> Option<Unsupported> {
    let last = before.last;
    let is_default = matches!(last.first(), Some(b'='));
    let sentence = match token.first() {
        Some(b'"') if is_default => quoted_default(before.second),
        Some(b'[') if is_default => "default values of vectors aren't supported",
        Some(b'.') if is_default || is_a_number(last) => "numbers with a fraction aren't supported",
        Some(b':') if matches!(before.second.first(), Some(b'[')) && !last.is_empty() => {
            "fixed-size arrays aren't supported"
        }
        _ => return unsupported_word(token, before),
    };
    Some(Unsupported::by_grammar(sentence))
}

impl<'t> Before<'t> {
    fn nothing() -> Before<'t> {
        Before {
            last: b"",
            second: b"",
            in_attributes: false,
        }
    }

    fn followed_by(self, token: Token<'t>) -> Before<'t> {
        Before {
            last: token.bytes,
            second: self.last,
            in_attributes: match token.bytes.first() {
                Some(b'(') => true,
                Some(b')') => false,
                _ => self.in_attributes,
            },
        }
    }
}

/// The tokens before an offset.
pub(crate) fn before_at(text: &[u8], offset: usize) -> Before<'_> {
    Tokens::of(text).take_while(|token| token.at < offset).fold(
        Before::nothing(),
        |before, token| before.followed_by(token),
    )
}

/// What isn't supported at an offset.
pub(crate) fn unsupported_at(text: &[u8], offset: usize) -> Option<Unsupported> {
    find_unsupported(token_at(text, offset), before_at(text, offset))
}

/// Collects the unsupported places of a text, except one.
#[derive(Clone, Copy)]
struct Others<'s, 'l> {
    alloc: Global,
    source: Source<'s>,
    which: Which,
    starts: &'l LineStarts,
    /// The offset that is left out.
    but: usize,
}

impl<'s, 'l> Others<'s, 'l> {
    /// What isn't supported at an offset.
    fn finding(&self, offset: u64, what: Unsupported) -> Result<Finding<'s>, AllocError>
        requires { self.now.starts.now ≡ line_starts self.now.source.bytes.now }
        ensures { IfOk result (IsPlacedIn self.now.source.bytes.now) }
    {
        let fault = self.which.refusal(what.fault(offset));
        let mut finding = Finding::of(self.alloc, fault);
        finding.sentence = String::from_str(self.alloc, what.sentence)?;
        finding.place = Some(self.starts.location_of(self.source, offset));
        Ok(finding)
    }

    /// Adds a finding of a token after others, if it isn't supported.
    #[tactic(auto, using(crate::proofs::Placed::adds_one, crate::proofs::Placed::adds_none))]
    fn add(
        &self,
        findings: &mut Vec<Finding<'s>>,
        token: Token<'_>,
        before: Before<'_>,
    ) -> Result<(), AllocError>
        requires { self.now.starts.now ≡ line_starts self.now.source.bytes.now }
        ensures { OnOk result (AddsPlaced self.now.source.bytes.now findings.old.items findings.new.items) }
    {
        if token.at != self.but
            && let Some(what) = find_unsupported(token.bytes, before)
        {
            findings.push(self.finding(token.at as u64, what)?)?;
        }
        Ok(())
    }

    /// Adds a finding of each token that isn't supported.
    #[tactic(auto, using(crate::proofs::Placed::adds_both, crate::proofs::Placed::adds_none))]
    fn add_all(&self, findings: &mut Vec<Finding<'s>>) -> Result<(), AllocError>
        requires { self.now.starts.now ≡ line_starts self.now.source.bytes.now }
        ensures { OnOk result (AddsPlaced self.now.source.bytes.now findings.old.items findings.new.items) }
    {
        let mut tokens = Tokens::of(self.source.bytes);
        let mut before = Before::nothing();
        for _ in 0..self.source.bytes.len() {
            let Some(token) = tokens.next() else {
                break;
            };
            self.add(findings, token, before)?;
            before = before.followed_by(token);
        }
        Ok(())
    }
}

/// Adds a finding for each unsupported place except `but`.
pub(crate) fn add_others<'s>(
    findings: &mut Vec<Finding<'s>>,
    alloc: Global,
    source: Source<'s>,
    which: Which,
    but: usize,
) -> Result<(), AllocError>
    ensures { OnOk result (AddsPlaced source.entry.bytes.now findings.old.items findings.new.items) }
{
    let starts = LineStarts::of(alloc, source.bytes)?;
    let others = Others {
        alloc,
        source,
        which,
        starts: &starts,
        but,
    };
    others.add_all(findings)
}
