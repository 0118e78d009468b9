//! Attributes after a name or a type.
ghost use Rattle.std.specs.Prelude.{◌<◌, false};
ghost use Rattle.fb_syntax.specs.Signs.{byte};
ghost use Rattle.fb_syntax.specs.Rules.{rule_before, listed_item};
ghost use Rattle.fb_syntax.specs.Grammar.{attribute_value, attribute, metadata};
ghost use Rattle.fb_syntax.specs.Stops.{Passes};

use super::lists::ListItem;
use super::{Parser, Stop};
use crate::attributes::{Attribute, built_in_attribute};
use crate::declarations::AttributeValue;
use crate::integers::number_of;
use crate::tokens::TokenKind::{Integer, Quoted, Word};

impl<'t> ListItem<'t> for Attribute<'t> {
    ghost rule = { listed_item attribute false (byte ")") };

    #[tactic(auto, unfolding(crate::specs::Rules::listed_item, crate::specs::Grammar::attribute))]
    fn read(parser: &mut Parser<'t, '_>) -> Result<Attribute<'t>, Stop> {
        let name = parser.token(Word)?;
        let value = if parser.skip(b':') {
            Some(parser.attribute_value()?)
        } else {
            None
        };
        let attribute = Attribute {
            built_in: built_in_attribute(name.text),
            name,
            value,
        };
        parser.comma(false, b')').and(Ok(attribute))
    }
}

impl<'t> Parser<'t, '_> {
    #[tactic(auto, unfolding(crate::specs::Grammar::attribute_value))]
    fn attribute_value(&mut self) -> Result<AttributeValue<'t>, Stop>
        ensures { Passes (λ v. v) result attribute_value self.old self.new }
    {
        if let Some(digits) = self.take(Integer) {
            return Ok(AttributeValue::Integer(number_of(digits)));
        }
        if let Some(text) = self.take(Quoted) {
            return Ok(AttributeValue::Quoted(text));
        }
        Ok(AttributeValue::Word(self.token(Word)?))
    }

    /// Attributes, if there are any, and this sign after them.
    #[tactic(auto, unfolding(crate::specs::Grammar::metadata))]
    pub(super) fn metadata(&mut self, sign: u8) -> Result<Vec<Attribute<'t>>, Stop>
        ensures { Passes (λ v. v.items) result (rule_before metadata sign) self.old self.new }
    {
        let attributes = if self.skip(b'(') && !self.skip(b')') {
            self.listed(b')')?
        } else {
            Vec::new(self.alloc)
        };
        self.expect(sign).and(Ok(attributes))
    }
}
