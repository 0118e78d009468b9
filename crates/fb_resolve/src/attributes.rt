//! What attributes say.
ghost use Rattle.std.specs.Prelude.{◌≡◌, ◌≤◌, codes, IfSome};
ghost use Rattle.std.specs.List.{starts_with};
ghost use Rattle.std.specs.Bool.{nat_eq};
ghost use Rattle.std.specs.Int.RustNames.{unsigned_abs};
ghost use Rattle.std.specs.Option.{option_copied, option_and_then};
ghost use Rattle.fb_syntax.specs.Integers.{greatest_magnitude};
ghost use Rattle.fb_resolve.specs.Attributes.{is_alignment, is_left_out, attribute_called, integer_value_in};
ghost use Rattle.fb_resolve.specs.Attributes.{natural_in, has_attribute, number_called, field_attributes};

use fb_syntax::{Attribute, AttributeValue, BuiltInAttribute};

/// Whether a number is a power of two from the least alignment to 256.
pub fn is_alignment(least: u16, number: i128) -> bool
    ensures { result ≡ is_alignment least number }
{
    [1, 2, 4, 8, 16, 32, 64, 128, 256].contains(&number) && i128::from(least) <= number
}

#[tactic(auto, using(crate::proofs::NativeNames::starts_text))]
fn is_native(name: &str) -> bool
    ensures { result ≡ starts_with nat_eq name.now (codes "native_") }
{
    name.starts_with("native_")
}

/// Whether FlatBuffers has an attribute of this name that isn't supported.
pub fn is_left_out(name: &str) -> bool
    ensures { result ≡ is_left_out name.now }
{
    match name {
        "key" | "hash" | "shared" | "nested_flatbuffer" | "flexbuffer" => true,
        _ => is_native(name),
    }
}

/// What the attributes of a field say of its slots.
#[derive(Clone, Copy, Debug, PartialEq, Eq, Drop)]
pub struct FieldAttributes {
    /// The number that its first `id` has, if that is from 0 on.
    pub id: Option<u64>,
    /// Whether it has an `id`, of whatever value.
    pub has_id: bool,
    pub required: bool,
    pub deprecated: bool,
}

fn attribute_called<'a, 's>(
    built_in: BuiltInAttribute,
    attributes: &'a [Attribute<'s>],
) -> Option<&'a Attribute<'s>>
    ensures { option_copied result ≡ attribute_called built_in attributes.now }
{
    attributes.iter().find(
        |attribute| matches!(attribute.built_in, Some(named) if named == built_in),
    )
}

/// Whether one of the attributes is this built-in one.
pub(crate) fn has_attribute(built_in: BuiltInAttribute, attributes: &[Attribute<'_>]) -> bool
    ensures { result ≡ has_attribute built_in attributes.now }
{
    attribute_called(built_in, attributes).is_some()
}

/// The integer that an attribute has.
fn integer_value_in(attribute: &Attribute<'_>) -> Option<i128>
    ensures number { result ≡ integer_value_in attribute.now.value }
    ensures small { IfSome result (λ n. unsigned_abs n ≤ greatest_magnitude) }
{
    match &attribute.value {
        Some(AttributeValue::Integer(number)) => Some(number.value()),
        _ => None,
    }
}

/// The integer value of the first attribute that is this built-in one.
#[tactic(auto, unfolding(crate::specs::Attributes::number_called))]
pub(crate) fn number_called(
    built_in: BuiltInAttribute,
    attributes: &[Attribute<'_>],
) -> Option<i128>
    ensures { result ≡ number_called built_in attributes.now }
{
    integer_value_in(attribute_called(built_in, attributes)?)
}

/// The number from 0 on that an attribute has.
fn natural_in(attribute: &Attribute<'_>) -> Option<u64>
    ensures { result ≡ option_and_then natural_in (integer_value_in attribute.now.value) }
{
    u64::try_from(integer_value_in(attribute)?).ok()
}

/// What the attributes of a field say of its slots.
#[tactic(auto, unfolding(crate::specs::Attributes::number_called))]
pub(crate) fn field_attributes(attributes: &[Attribute<'_>]) -> FieldAttributes
    ensures { result ≡ field_attributes attributes.now }
{
    let id = attribute_called(BuiltInAttribute::Id, attributes);
    FieldAttributes {
        id: id.and_then(natural_in),
        has_id: id.is_some(),
        required: has_attribute(BuiltInAttribute::Required, attributes),
        deprecated: has_attribute(BuiltInAttribute::Deprecated, attributes),
    }
}
