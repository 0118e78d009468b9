//! What the name of an enum's value means.
ghost use Rattle.std.specs.Prelude.{◌≡◌};
ghost use Rattle.std.specs.Option.{option_copied};
ghost use Rattle.fb_resolve.specs.Outline.{full_name};
ghost use Rattle.fb_resolve.specs.EnumValues.{behind, value_at};

use crate::type_uses::Scope;
use fb_syntax::TypeDecl;

/// What follows a name and a dot.
#[tactic(auto, unfolding(crate::specs::EnumValues::behind))]
fn strip_dotted<'n>(prefix: &str, name: &'n str) -> Option<&'n str>
    ensures { option_copied result ≡ behind prefix.now name.now }
{
    name.strip_prefix(prefix)?.strip_prefix('.')
}

/// What follows the full name of a type and a dot.
#[tactic(auto, using(crate::proofs::Behind::behind_inside))]
fn behind_full_name<'n>(scope: Option<&str>, declared: &str, name: &'n str) -> Option<&'n str>
    ensures { option_copied result
        ≡ behind (full_name (option_copied scope.entry) declared.now) name.now }
{
    match scope {
        Some(scope) => strip_dotted(declared, strip_dotted(scope, name)?),
        None => strip_dotted(declared, name),
    }
}

/// The number of the value that a name means in the enum of a number.
#[tactic(auto, unfolding(crate::specs::EnumValues::value_at))]
pub(crate) fn value_at(scope: Scope<'_, '_, '_>, number: usize, name: &str) -> Option<i128>
    ensures { result ≡ value_at scope.entry.types.now number name.now }
{
    let read = scope.types.get(number)?;
    let TypeDecl::Enum(declaration) = read.declaration else {
        return None;
    };
    let values = &scope.names.values[number];
    let declared = declaration.name.text;
    let behind_name = values.number(strip_dotted(declared, name));
    let full_name = behind_full_name(read.scope, declared, name);
    let number = values.number(Some(name));
    number.or(behind_name.or(values.number(full_name)))
}
