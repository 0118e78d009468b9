//! What each use of a type's name means, by the namespace around it.
ghost use Rattle.std.specs.Prelude.{◌≡◌, map};
ghost use Rattle.fb_schema.specs.Schema.{Name};
ghost use Rattle.std.specs.Option.{option_copied};
ghost use Rattle.fb_resolve.specs.Scopes.{tree_of, names_of, AreScopes};
ghost use Rattle.fb_resolve.specs.Meaning.{meaning_of, use_of_type, words_of_scope, paths_of_types};
ghost use Rattle.fb_resolve.specs.Paths.{IsPath, IsNoted};
ghost use Rattle.fb_resolve.specs.EnumValues.{enum_values_of};

use crate::meanings::Meaning;
use crate::outline::{OutlineNames, TypeRead, TypeUse};
use fb_schema::{Kind, TypeId};
use fb_syntax::TypeDecl;

/// A namespace, by its name and by the number of its path, the types of its text, and what names mean.
#[derive(Clone, Copy)]
pub(crate) struct Scope<'t, 'd, 's> {
    pub types: &'t [TypeRead<'d, 's>],
    pub names: &'t OutlineNames<'d, 's>,
    pub path: usize,
    pub name: Option<&'d str>,
    ghost valued: { names.now.values.items ≡ map (enum_values_of types.now) types.now },
    ghost here: { IsPath (tree_of names.now.scopes) path (words_of_scope (option_copied name)) },
}

impl Scope<'_, '_, '_> {
    /// What a name means of which this is noted.
    #[tactic(auto, unfolding(crate::specs::Meaning::meaning_of))]
    pub(crate) fn meaning(self, noted: TypeUse) -> Meaning
        requires scopes { AreScopes self.names.now.scopes (paths_of_types self.types.now) }
        requires noted { (name : Name) × IsNoted (names_of self.names.now.scopes) noted name }
        ensures { (name : Name) → IsNoted (names_of self.entry.names.now.scopes) noted name
            → result ≡ meaning_of self.entry.types.now (option_copied self.entry.name) name }
    {
        match noted {
            TypeUse::Basic(basic) => basic.meaning(),
            TypeUse::Named(used) => {
                meaning_of_type(self.types, self.names.scopes.resolve(self.path, used))
            }
        }
    }
}

/// What a name means that resolves to the type of this number; `Unknown` where it resolves to none.
fn meaning_of_type(types: &[TypeRead<'_, '_>], number: Option<usize>) -> Meaning
    ensures { result ≡ use_of_type types.now number }
{
    let Some(number) = number else {
        return Meaning::Unknown;
    };
    let Some(read) = types.get(number) else {
        return Meaning::Unknown;
    };
    let id = TypeId(number as u64);
    match read.declaration {
        TypeDecl::Table(_) => Meaning::Known(Kind::Table(id)),
        TypeDecl::Struct(_) => Meaning::Known(Kind::Struct(id)),
        TypeDecl::Enum(_) => Meaning::Known(Kind::Enum(id)),
        TypeDecl::Union(_) => Meaning::Known(Kind::Union(id)),
    }
}
