//! What a schema text declares, each type with the namespace that it stands in.
ghost use Rattle.std.specs.Prelude.{◌≡◌, List, Some, IfOk, map, string_bytes};
ghost use Rattle.fb_resolve.specs.Outline.{TypeRead as Read, outline_of, word_of, full_name, name_of_type};
ghost use Rattle.fb_resolve.specs.EnumValues.{enum_values_of, underlying_at};

use crate::basic_types::BasicType;
use crate::enum_values::EnumValues;
use crate::namespaces::Scopes;
use crate::walk::DeclarationWalk;
use fb_index::HashKey;
use fb_schema::Base;
use fb_syntax::{Decls, DottedName, Text, TypeDecl};
use std::alloc::{AllocError, Global};
use std::marker::Model;

/// A table, struct, enum or union, and the namespace in force.
#[derive(Drop)]
pub struct TypeRead<'d, 's> {
    pub scope: Option<&'d str>,
    pub declaration: &'d TypeDecl<'s>,
}

impl<'d, 's> Model for TypeRead<'d, 's> {
    ghost use Rattle.std.specs.Option.{option_copied};
    ghost use Rattle.fb_resolve.specs.Outline.{TypeRead as Read};

    ghost Value = { Read };

    ghost view = { λ t. record { scope = option_copied t.scope; declaration = t.declaration.now } };
}

/// The name of the root's type, and the namespace in force.
#[derive(Drop)]
pub struct RootRead<'d, 's> {
    pub scope: Option<&'d str>,
    pub name: &'d DottedName<'s>,
}

impl<'d, 's> Model for RootRead<'d, 's> {
    ghost use Rattle.std.specs.Option.{option_copied};
    ghost use Rattle.fb_resolve.specs.Outline.{RootRead as Read};

    ghost Value = { Read };

    ghost view = { λ r. record { scope = option_copied r.scope; name = r.name.now } };
}

/// A name that is used for a type: a basic type, or the number of the name.
#[derive(Clone, Copy, Drop)]
pub(crate) enum TypeUse {
    Basic(BasicType),
    Named(usize),
}

/// What is noted of a type.
#[derive(Drop)]
pub(crate) struct TypeNotes {
    /// The number of its namespace's path.
    pub namespace: usize,
    /// What is noted of the names that it uses, in their order.
    pub uses: Vec<TypeUse>,
}

/// What the names of types and of enums' values mean, and where the types and the root of a text stand.
#[derive(Drop)]
pub(crate) struct OutlineNames<'d, 's> {
    pub scopes: Scopes<'d>,
    /// What is noted of each type, in order.
    pub notes: Vec<TypeNotes>,
    /// Of each type the values that it has as an enum.
    pub values: Vec<EnumValues<'d, 's>>,
    /// The number of the path of the namespace in which the root is named.
    pub root_path: usize,
    /// What is noted of the root's name.
    pub root_use: TypeUse,
    /// Of each type whether one before it has its full name.
    pub repeats: Vec<bool>,
}

/// What a schema text declares, sorted by kind.
#[derive(Drop)]
pub struct Outline<'d, 's> {
    pub types: Vec<TypeRead<'d, 's>>,
    pub attributes: Vec<&'s str>,
    pub root: Option<RootRead<'d, 's>>,
    pub identifier: Option<&'d Text<'s>>,
    pub text_len: u64,
    /// The key of the text, for a hash of names in it.
    pub key: HashKey,
    pub(crate) names: OutlineNames<'d, 's>,
}

impl<'d, 's> Model for Outline<'d, 's> {
    ghost use Rattle.std.specs.Prelude.{map};
    ghost use Rattle.std.specs.Option.{option_copied};
    ghost use Rattle.fb_resolve.specs.Outline.{Outline as Outlined};

    ghost Value = { Outlined };

    ghost use Rattle.fb_resolve.specs.Paths.{AreNames, IsRootPlaced};
    ghost use Rattle.fb_resolve.specs.Scopes.{tree_of, names_of};

    ghost view = { λ o. record {
      types = o.types.items;
      attributes = map (λ a. a.now) o.attributes.items;
      root = o.root;
      identifier = option_copied o.identifier;
      text_len = o.text_len;
    } };

    ghost invariant = { λ o. AreNames o.names o.types.items
        × IsRootPlaced (tree_of o.names.scopes) (names_of o.names.scopes) o.names.root_path
        o.names.root_use o.root };
}

impl<'d, 's> Outline<'d, 's> {
    /// What the text declares. The only error is a refused allocation.
    pub fn of(alloc: Global, decls: &'d Decls<'s>) -> Result<Outline<'d, 's>, AllocError>
        ensures { IfOk result (λ o. o ≡ outline_of decls.now) }
    {
        let mut walk = DeclarationWalk::new(alloc, decls.key());
        let repeats = walk.pass_all(alloc, decls.declarations())?;
        walk.outline(alloc, repeats, decls.text_len())
    }
}

impl OutlineNames<'_, '_> {
    /// The underlying type of the enum of a number.
    pub(crate) fn underlying_at(&self, number: usize) -> Option<Base>
        ensures { (types : List Read) → self.now.values.items ≡ map (enum_values_of types) types
            → result ≡ underlying_at types number }
    {
        self.values.get(number)?.base
    }
}

/// The name of what has this name in a namespace.
fn name_inside<'n>(alloc: Global, scope: &'n str, word: &'n str) -> Result<String, AllocError>
    ensures { IfOk result (λ s. string_bytes s ≡ full_name (Some scope.now) word.now) }
{
    [scope, ".", word].concat(alloc)
}

/// The name of a type with its namespace. The only error is a refused allocation.
pub fn name_of_type(alloc: Global, read: &TypeRead<'_, '_>) -> Result<String, AllocError>
    ensures { IfOk result (λ s. string_bytes s ≡ name_of_type read.now) }
{
    let word = word_of(read.declaration).text;
    let Some(scope) = read.scope else {
        return String::from_str(alloc, word);
    };
    name_inside(alloc, scope, word)
}

/// A type's name as it is declared.
pub fn word_of<'d, 's>(declaration: &'d TypeDecl<'s>) -> &'d Text<'s>
    ensures { result.now ≡ word_of declaration.now }
{
    match declaration {
        TypeDecl::Table(read) | TypeDecl::Struct(read) => &read.name,
        TypeDecl::Enum(read) => &read.name,
        TypeDecl::Union(read) => &read.name,
    }
}
