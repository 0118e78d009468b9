//! Lists: items up to a closing sign, or up to the end.
ghost use Rattle.std.specs.Prelude.{◌≡◌, ◌<◌, ◌≤◌, [], length, IfOk};
ghost use Rattle.fb_syntax.specs.Rules.{Rule, block, closes, divider, push, some_block, until};
ghost use Rattle.fb_syntax.specs.Stops.{Gives, Passes};

use super::{Parser, Stop};

/// What lists consist of: fields, attributes, values, members and declarations.
pub(super) trait ListItem<'t>: Drop + Sized {
    /// The rule of the grammar for one, and for what divides it from the next.
    ghost rule: { Rule Self };

    /// Passes an item, and what divides it from the next.
    fn read(parser: &mut Parser<'t, '_>) -> Result<Self, Stop>
        ensures { Passes (λ x. x) result rule parser.old parser.new };
}

impl<'t> Parser<'t, '_> {
    fn is_closed(&self, close: Option<u8>) -> bool
        ensures { result ≡ closes close self.now }
    {
        match close {
            Some(sign) => self.is_sign(sign),
            None => self.tokens.is_empty(),
        }
    }

    /// The items before a closing sign or, with none, before the end.
    pub(super) fn items<T: ListItem<'t>>(&mut self, close: Option<u8>) -> Result<Vec<T>, Stop>
        ensures exact { Gives (λ v. (v.items, self.new)) result (until T.rule.read (closes close) push [] self.old) }
        ensures shorter { IfOk result (λ _. length self.new ≤ length self.old) }
    {
        let mut items = Vec::new(self.alloc);
        while !self.is_closed(close) {
            let item = T::read(self)?;
            items.push(item).or(Err(Stop::Memory))?;
        }
        Ok(items)
    }

    /// Items and the closing sign after them.
    pub(super) fn block<T: ListItem<'t>>(&mut self, close: u8) -> Result<Vec<T>, Stop>
        ensures { Passes (λ v. v.items) result (block T.rule close) self.old self.new }
    {
        let items = self.items(Some(close))?;
        self.expect(close).and(Ok(items))
    }

    /// At least one item, and the closing sign.
    pub(super) fn listed<T: ListItem<'t>>(&mut self, close: u8) -> Result<Vec<T>, Stop>
        ensures { Passes (λ v. v.items) result (some_block T.rule close) self.old self.new }
    {
        if self.is_sign(close) {
            return Err(Stop::Unexpected);
        }
        self.block(close)
    }

    /// Passes a comma; nothing where the list's closing sign stands. Where `trailing` is false, an
    /// item has to follow the comma.
    #[tactic(auto, unfolding(crate::specs::Rules::divider))]
    pub(super) fn comma(&mut self, trailing: bool, close: u8) -> Result<(), Stop>
        ensures exact { Gives (λ u. (u, self.new)) result ((divider trailing close).read self.old) }
        ensures shorter { IfOk result (λ _. length self.new ≤ length self.old) }
    {
        let divides = if self.skip(b',') {
            trailing || !self.is_sign(close)
        } else {
            self.is_sign(close)
        };
        divides.then_some(()).ok_or(Stop::Unexpected)
    }
}
