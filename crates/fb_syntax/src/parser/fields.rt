//! Tables, structs and their fields.
ghost use Rattle.std.specs.Prelude.{◌<◌, ◌≤◌, length, IfOk};
ghost use Rattle.fb_syntax.specs.Grammar.{field_type, default_part, field, table};
ghost use Rattle.fb_syntax.specs.Stops.{Gives, Passes};

use super::lists::ListItem;
use super::{Parser, Stop};
use crate::declarations::{DefaultValue, Field, FieldType, TableDecl};
use crate::integers::number_of;
use crate::tokens::TokenKind::{Integer, Punct, Word};

impl<'t> ListItem<'t> for Field<'t> {
    ghost rule = { field };

    #[tactic(auto, unfolding(crate::specs::Grammar::field))]
    fn read(parser: &mut Parser<'t, '_>) -> Result<Field<'t>, Stop> {
        Ok(Field {
            name: parser.token_before(Word, b':')?,
            kind: parser.field_type()?,
            default: parser.default_part()?,
            attributes: parser.metadata(b';')?,
        })
    }
}

impl<'t> Parser<'t, '_> {
    #[tactic(auto, using(crate::proofs::Agrees::sign_no_name), unfolding(crate::specs::Grammar::field_type))]
    fn field_type(&mut self) -> Result<FieldType<'t>, Stop>
        ensures { Passes (λ t. t) result field_type self.old self.new }
    {
        Ok(match self.take(Punct(b'[')) {
            Some(bracket) => {
                if self.is_sign(b'[') {
                    return Err(Stop::NestedVector);
                }
                FieldType::Many(bracket.at, self.name_before(b']')?)
            }
            None => FieldType::One(self.name()?),
        })
    }

    #[tactic(auto, unfolding(crate::specs::Grammar::default_part, crate::specs::Grammar::default_value))]
    fn default_part(&mut self) -> Result<Option<DefaultValue<'t>>, Stop>
        ensures exact { Gives (λ v. (v, self.new)) result (default_part.read self.old) }
        ensures shorter { IfOk result (λ _. length self.new ≤ length self.old) }
    {
        if !self.skip(b'=') {
            return Ok(None);
        }
        Ok(Some(match self.take(Integer) {
            Some(digits) => DefaultValue::Integer(number_of(digits)),
            None => DefaultValue::Name(self.name()?),
        }))
    }

    /// A table or struct after its first word.
    #[tactic(auto, unfolding(crate::specs::Grammar::table))]
    pub(super) fn table(&mut self) -> Result<TableDecl<'t>, Stop>
        ensures { Passes (λ t. t) result table self.old self.new }
    {
        Ok(TableDecl {
            name: self.token(Word)?,
            attributes: self.metadata(b'{')?,
            fields: self.block(b'}')?,
        })
    }
}
