//! Attributes, and those that need no declaration.
ghost use Rattle.std.specs.Prelude.{◌≡◌};
ghost use Rattle.fb_syntax.specs.Attributes.{built_in_attribute};

use crate::declarations::{AttributeValue, Text};
use std::marker::Model;

/// The attributes that need no declaration.
#[derive(Clone, Copy, Debug, PartialEq, Eq, Drop)]
pub enum BuiltInAttribute {
    Id,
    Required,
    Deprecated,
    ForceAlign,
    BitFlags,
    OriginalOrder,
}

/// An attribute of a declaration's or a field's metadata, and which one of those that need no
/// declaration it is.
#[derive(Debug, Drop)]
pub struct Attribute<'t> {
    pub name: Text<'t>,
    pub value: Option<AttributeValue<'t>>,
    pub built_in: Option<BuiltInAttribute>,
}

impl<'t> Model for Attribute<'t> {
    ghost use Rattle.std.specs.Prelude.{◌≡◌};
    ghost use Rattle.fb_syntax.specs.Attributes.{AttributeRead, built_in_attribute};

    ghost Value = { AttributeRead };

    ghost view = { λ a. record { name = a.name; value = a.value } };

    ghost invariant = { λ a. a.built_in ≡ built_in_attribute a.name.bytes };
}

/// The attribute of a name that needs no declaration.
#[tactic(auto, unfolding(crate::specs::Attributes::built_in_attribute))]
pub(crate) fn built_in_attribute(name: &str) -> Option<BuiltInAttribute>
    ensures { result ≡ built_in_attribute name.now }
{
    match name {
        "id" => Some(BuiltInAttribute::Id),
        "required" => Some(BuiltInAttribute::Required),
        "deprecated" => Some(BuiltInAttribute::Deprecated),
        "force_align" => Some(BuiltInAttribute::ForceAlign),
        "bit_flags" => Some(BuiltInAttribute::BitFlags),
        "original_order" => Some(BuiltInAttribute::OriginalOrder),
        _ => None,
    }
}
