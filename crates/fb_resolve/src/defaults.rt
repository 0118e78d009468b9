//! Defaults of fields.
ghost use Rattle.std.specs.Prelude.{◌≡◌};
ghost use Rattle.std.specs.Option.{option_copied};
ghost use Rattle.fb_resolve.specs.Defaults.{number_within, null_or_wrong, given_to, given_by};

use crate::meanings::Meaning;
use crate::type_uses::Scope;
use crate::value_names::value_at;
use fb_schema::{Base, Kind};
use fb_syntax::{DefaultValue, FieldType};

/// What a default gives: a number, no number but the mark that the field is optional, or nothing.
#[derive(Clone, Copy, Debug, PartialEq, Eq, Drop)]
pub enum Given {
    Number(i128),
    Null,
    Wrong,
}

fn number_within(base: Base, number: i128) -> Given
    ensures { result ≡ number_within base number }
{
    if base.holds(number) {
        Given::Number(number)
    } else {
        Given::Wrong
    }
}

fn null_or_wrong(name: &str) -> Given
    ensures { result ≡ null_or_wrong name.now }
{
    if name == "null" {
        Given::Null
    } else {
        Given::Wrong
    }
}

/// What a default gives to one value of a type.
#[tactic(auto, unfolding(crate::specs::Defaults::given_to))]
pub(crate) fn given_to(
    scope: Scope<'_, '_, '_>,
    meaning: Meaning,
    default: &DefaultValue<'_>,
) -> Given
    ensures { result ≡ given_to scope.entry.types.now meaning default.now }
{
    match (meaning, default) {
        (Meaning::Known(Kind::Scalar(base)), DefaultValue::Integer(number)) => {
            number_within(base, number.value())
        }
        (Meaning::Known(Kind::Scalar(Base::Bool)), DefaultValue::Name(name)) => {
            match name.as_str() {
                "true" => Given::Number(1),
                "false" => Given::Number(0),
                name => null_or_wrong(name),
            }
        }
        (Meaning::Known(Kind::Scalar(_)), DefaultValue::Name(name)) => null_or_wrong(name.as_str()),
        (Meaning::Known(Kind::Enum(id)), DefaultValue::Integer(number)) => {
            match scope.names.underlying_at(id.0 as usize) {
                Some(base) => number_within(base, number.value()),
                None => Given::Number(number.value()),
            }
        }
        (Meaning::Known(Kind::Enum(id)), DefaultValue::Name(name)) => {
            match value_at(scope, id.0 as usize, name.as_str()) {
                Some(number) => Given::Number(number),
                None => null_or_wrong(name.as_str()),
            }
        }
        (Meaning::Known(_), _) => Given::Wrong,
        (Meaning::Float | Meaning::Unknown, _) => Given::Number(0),
    }
}

/// What a table's field of a type is given.
pub(crate) fn given_by(
    scope: Scope<'_, '_, '_>,
    kind: &FieldType<'_>,
    meaning: Meaning,
    default: Option<&DefaultValue<'_>>,
) -> Given
    ensures { result
        ≡ given_by scope.entry.types.now kind.now meaning (option_copied default.entry) }
{
    match (kind, default) {
        (_, None) => Given::Number(0),
        (FieldType::One(_), Some(default)) => given_to(scope, meaning, default),
        (FieldType::Many(_, _), Some(_)) => Given::Wrong,
    }
}
