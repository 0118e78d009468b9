//! Declarations, to the end of the tokens.
ghost use Rattle.std.specs.Prelude.{IfErr, ◌≡◌, ◌<◌, ◌≤◌, length, IfOk, MatchResult};
ghost use Rattle.fb_syntax.specs.declared.faults.SyntaxFault.TheVariants.{Memory};
ghost use Rattle.fb_syntax.specs.DeclsRead.{DeclsRead};
ghost use Rattle.fb_syntax.specs.GrammarSchema.{Reads, keyword, namespace, attribute_decl, declaration};
ghost use Rattle.fb_syntax.specs.Keywords.{keyword_of};
ghost use Rattle.fb_syntax.specs.Lexemes.{AreReadable};
ghost use Rattle.fb_syntax.specs.Refusals.{StandsWithin};
ghost use Rattle.fb_syntax.specs.Stops.{IsGrammarFault, Passes};

use super::lists::ListItem;
use super::{Parser, Stop};
use crate::declarations::Declaration::{Attribute, Directive, Namespace, Type};
use crate::declarations::Directive::{FileExtension, FileIdentifier, RootType};
use crate::declarations::{Declaration, Decls, DottedName, Text, TypeDecl};
use crate::faults::SyntaxFault;
use crate::tokens::Token;
use crate::tokens::TokenKind::{Quoted, Word};
use fb_index::HashKey;
use std::alloc::Global;

/// What a declaration's first word says that it is.
#[derive(Clone, Copy, Drop)]
enum Keyword {
    Namespace,
    Attribute,
    Table,
    Struct,
    Enum,
    Union,
    Root,
    Extension,
    Identifier,
}

#[tactic(auto, unfolding(crate::specs::Keywords::keyword_of))]
fn keyword_of(word: &str) -> Option<Keyword>
    ensures { result ≡ keyword_of word.now }
{
    match word {
        "namespace" => Some(Keyword::Namespace),
        "attribute" => Some(Keyword::Attribute),
        "table" => Some(Keyword::Table),
        "struct" => Some(Keyword::Struct),
        "enum" => Some(Keyword::Enum),
        "union" => Some(Keyword::Union),
        "root_type" => Some(Keyword::Root),
        "file_extension" => Some(Keyword::Extension),
        "file_identifier" => Some(Keyword::Identifier),
        _ => None,
    }
}

impl<'t> ListItem<'t> for Declaration<'t> {
    ghost rule = { declaration };

    #[tactic(auto, unfolding(crate::specs::GrammarSchema::declaration, crate::specs::GrammarSchema::declared))]
    fn read(parser: &mut Parser<'t, '_>) -> Result<Declaration<'t>, Stop> {
        Ok(match parser.keyword()? {
            Keyword::Namespace => Namespace(parser.namespace()?),
            Keyword::Attribute => Attribute(parser.attribute_decl()?),
            Keyword::Table => Type(TypeDecl::Table(parser.table()?)),
            Keyword::Struct => Type(TypeDecl::Struct(parser.table()?)),
            Keyword::Enum => Type(TypeDecl::Enum(parser.enumeration()?)),
            Keyword::Union => Type(TypeDecl::Union(parser.union()?)),
            Keyword::Root => Directive(RootType(parser.name_before(b';')?)),
            Keyword::Extension => Directive(FileExtension(parser.token_before(Quoted, b';')?)),
            Keyword::Identifier => Directive(FileIdentifier(parser.token_before(Quoted, b';')?)),
        })
    }
}

impl<'t> Parser<'t, '_> {
    /// The word that a declaration begins with; any other is refused where it stands.
    #[tactic(auto, unfolding(crate::specs::GrammarSchema::keyword_at))]
    fn keyword(&mut self) -> Result<Keyword, Stop>
        ensures { Passes (λ k. k) result keyword self.old self.new }
    {
        let word = self.peek(Word).ok_or(Stop::Unexpected)?;
        let keyword = keyword_of(word.text).ok_or(Stop::Unexpected)?;
        self.take(Word);
        Ok(keyword)
    }

    #[tactic(auto, unfolding(crate::specs::GrammarSchema::namespace))]
    fn namespace(&mut self) -> Result<Option<DottedName<'t>>, Stop>
        ensures { Passes (λ n. n) result namespace self.old self.new }
    {
        if self.skip(b';') {
            return Ok(None);
        }
        Ok(Some(self.name_before(b';')?))
    }

    #[tactic(auto, unfolding(crate::specs::GrammarSchema::attribute_decl))]
    fn attribute_decl(&mut self) -> Result<Text<'t>, Stop>
        ensures { Passes (λ t. t) result attribute_decl self.old self.new }
    {
        if let Some(name) = self.take(Quoted) {
            return self.expect(b';').and(Ok(name));
        }
        self.token_before(Word, b';')
    }
}

/// The offset of the first of the tokens that are left, or of the text's end.
fn offset_of(text: &str, tokens: &[Token], left: usize) -> u64
    requires { AreReadable text.now tokens.now }
    ensures { result ≤ length text.now }
{
    let next = tokens.get(tokens.len().saturating_sub(left));
    next.map_or(text.len() as u64, |token| token.at)
}

/// What the tokens of a text declare.
///
/// A refusal names the first token that the grammar doesn't allow, or the text's length; a vector
/// inside a vector is one of its own.
#[tactic(auto, using(crate::proofs::ReadsAs::reads_found, crate::proofs::ReadsAs::memory_alone))]
pub(crate) fn declarations_of<'t>(
    alloc: Global,
    text: &'t str,
    tokens: &[Token],
) -> Result<Decls<'t>, SyntaxFault>
    requires { AreReadable text.now tokens.now }
    ensures reads { IfOk result (Reads text.now tokens.now) }
    ensures exact { (d : DeclsRead) → Reads text.now tokens.now d
        → MatchResult result (λ r. r ≡ d) (λ e. e ≡ Memory) }
    ensures fault { IfErr result IsGrammarFault }
    ensures within { IfErr result (StandsWithin (length text.now)) }
{
    let mut parser = Parser {
        alloc,
        text,
        tokens,
    };
    match parser.items(None) {
        Ok(declarations) => Ok(Decls {
            declarations,
            text_len: text.len() as u64,
            key: HashKey::of(text.as_bytes()),
        }),
        Err(stop) => Err(stop.at(offset_of(text, tokens, parser.tokens.len()))),
    }
}
