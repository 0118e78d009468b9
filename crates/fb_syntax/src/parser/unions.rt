//! Unions.
ghost use Rattle.std.specs.Prelude.{◌<◌, true};
ghost use Rattle.fb_syntax.specs.Signs.{byte};
ghost use Rattle.fb_syntax.specs.Rules.{listed_item};
ghost use Rattle.fb_syntax.specs.Grammar.{union, union_member};
ghost use Rattle.fb_syntax.specs.Stops.{Passes};

use super::lists::ListItem;
use super::{Parser, Stop};
use crate::declarations::{UnionDecl, UnionMember};
use crate::tokens::TokenKind::Word;

impl<'t> ListItem<'t> for UnionMember<'t> {
    ghost rule = { listed_item union_member true (byte "}") };

    #[tactic(auto, unfolding(crate::specs::Rules::listed_item, crate::specs::Grammar::union_member))]
    fn read(parser: &mut Parser<'t, '_>) -> Result<UnionMember<'t>, Stop> {
        let word = parser.token(Word)?;
        let (alias, table) = if parser.skip(b':') {
            (Some(word), parser.name())
        } else {
            (None, parser.name_from(word))
        };
        let table = table?;
        let member = UnionMember { alias, table };
        parser.comma(true, b'}').and(Ok(member))
    }
}

impl<'t> Parser<'t, '_> {
    /// A union after its first word.
    #[tactic(auto, unfolding(crate::specs::Grammar::union))]
    pub(super) fn union(&mut self) -> Result<UnionDecl<'t>, Stop>
        ensures { Passes (λ u. u) result union self.old self.new }
    {
        Ok(UnionDecl {
            name: self.token(Word)?,
            attributes: self.metadata(b'{')?,
            members: self.listed(b'}')?,
        })
    }
}
