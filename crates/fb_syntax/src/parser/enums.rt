//! Enums.
ghost use Rattle.std.specs.Prelude.{◌<◌, true};
ghost use Rattle.fb_syntax.specs.Signs.{byte};
ghost use Rattle.fb_syntax.specs.Rules.{listed_item};
ghost use Rattle.fb_syntax.specs.Grammar.{enum_value, enumeration};
ghost use Rattle.fb_syntax.specs.Stops.{Passes};

use super::lists::ListItem;
use super::{Parser, Stop};
use crate::declarations::{EnumDecl, EnumValue};
use crate::integers::number_of;
use crate::tokens::TokenKind::{Integer, Word};

impl<'t> ListItem<'t> for EnumValue<'t> {
    ghost rule = { listed_item enum_value true (byte "}") };

    #[tactic(auto, unfolding(crate::specs::Rules::listed_item, crate::specs::Grammar::enum_value))]
    fn read(parser: &mut Parser<'t, '_>) -> Result<EnumValue<'t>, Stop> {
        let name = parser.token(Word)?;
        let number = if parser.skip(b'=') {
            Some(number_of(parser.token(Integer)?))
        } else {
            None
        };
        parser.comma(true, b'}').and(Ok(EnumValue { name, number }))
    }
}

impl<'t> Parser<'t, '_> {
    /// An enum after its first word.
    #[tactic(auto, unfolding(crate::specs::Grammar::enumeration))]
    pub(super) fn enumeration(&mut self) -> Result<EnumDecl<'t>, Stop>
        ensures { Passes (λ e. e) result enumeration self.old self.new }
    {
        Ok(EnumDecl {
            name: self.token_before(Word, b':')?,
            underlying: self.name()?,
            attributes: self.metadata(b'{')?,
            values: self.listed(b'}')?,
        })
    }
}
