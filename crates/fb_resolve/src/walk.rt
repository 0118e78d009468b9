//! One walk over a text's declarations.
ghost use Rattle.std.specs.Prelude.{◌≡◌, ◌<◌, ◌++◌, List, [], ◌∷◌, Some, ℕ, All, IfOk, OnOk, map};
ghost use Rattle.std.specs.Option.{option_copied};
ghost use Rattle.fb_syntax.specs.declared.declarations.Declaration.{Declaration as Declared};
ghost use Rattle.fb_resolve.specs.PathTree.{IsTree, KeepsPaths};
ghost use Rattle.fb_resolve.specs.Outline.{scope_named, nothing_read, outline_behind, name_of_type};
ghost use Rattle.fb_resolve.specs.RepeatedNames.{repeated_names, repeated_numbers};
ghost use Rattle.fb_resolve.specs.Paths.{names_used, walk_read, IsNoted, AreNoted, IsPlaced};
ghost use Rattle.fb_resolve.specs.Meaning.{type_name};
ghost use Rattle.fb_schema.specs.Schema.{Name};

use crate::basic_types::{BasicType, basic_type};
use crate::enum_values::EnumValues;
use crate::meanings::type_name;
use crate::namespaces::{PathTree, Scopes};
use crate::outline::{Outline, OutlineNames, RootRead, TypeNotes, TypeRead, TypeUse, word_of};
use fb_index::HashKey;
use fb_syntax::{Declaration, Directive, DottedName, Field, Text, TypeDecl, UnionMember};
use std::alloc::{AllocError, Global};

/// What is declared so far, the paths of the namespaces and full names, and the names that are used for
/// types.
#[derive(Drop)]
pub(crate) struct DeclarationWalk<'d, 's> {
    types: Vec<TypeRead<'d, 's>>,
    attributes: Vec<&'s str>,
    root: Option<RootRead<'d, 's>>,
    identifier: Option<&'d Text<'s>>,
    /// The namespace in force.
    scope: Option<&'d str>,
    /// The number of its path.
    path: usize,
    tree: PathTree<'d>,
    used: PathTree<'d>,
    /// What is noted of each type, in order.
    notes: Vec<TypeNotes>,
    /// Of each type the values that it has as an enum.
    values: Vec<EnumValues<'d, 's>>,
    /// Of each type the number of its full name's path.
    full_names: Vec<usize>,
    /// The number of the path of the namespace in which the root is named.
    root_path: usize,
    /// What is noted of the root's name.
    root_use: TypeUse,
    /// The key of the text.
    key: HashKey,
}

impl<'d, 's> DeclarationWalk<'d, 's> {
    /// Nothing is declared in the text of a key, and no namespace is in force.
    pub(crate) fn new(alloc: Global, key: HashKey) -> DeclarationWalk<'d, 's>
        ensures placed { IsPlaced result }
        ensures empty { walk_read result ≡ nothing_read }
    {
        DeclarationWalk {
            types: Vec::new(alloc),
            attributes: Vec::new(alloc),
            root: None,
            identifier: None,
            scope: None,
            path: 0,
            tree: PathTree::new(alloc, key),
            used: PathTree::new(alloc, key),
            notes: Vec::new(alloc),
            values: Vec::new(alloc),
            full_names: Vec::new(alloc),
            root_path: 0,
            root_use: TypeUse::Basic(BasicType::Text),
            key,
        }
    }

    /// Passes declarations, and returns of each type whether one before it has its full name. The only
    /// error is a refused allocation.
    pub(crate) fn pass_all(
        &mut self,
        alloc: Global,
        declarations: &'d [Declaration<'s>],
    ) -> Result<Vec<bool>, AllocError>
        requires { IsPlaced self.now }
        ensures placed { OnOk result (IsPlaced self.new) }
        ensures passed { (len : ℕ) → OnOk result (outline_behind (walk_read self.new) [] len
            ≡ outline_behind (walk_read self.old) declarations.now len) }
        ensures repeats { IfOk result
            (λ r. r.items ≡ repeated_names name_of_type self.new.types.items) }
    {
        for declaration in declarations {
            self.pass(alloc, declaration)?;
        }
        repeated_numbers(alloc, self.full_names.as_slice(), self.tree.len())
    }

    /// Passes a declaration. The only error is a refused allocation.
    fn pass(&mut self, alloc: Global, declaration: &'d Declaration<'s>) -> Result<(), AllocError>
        requires placed { IsPlaced self.now }
        ensures placed { OnOk result (IsPlaced self.new) }
        ensures passed { (behind : List Declared) (len : ℕ) → OnOk result
            (outline_behind (walk_read self.new) behind len
            ≡ outline_behind (walk_read self.old) (declaration.now ∷ behind) len) }
    {
        match declaration {
            Declaration::Namespace(name) => self.enter(name.as_ref()),
            Declaration::Type(declaration) => self.add_type(alloc, declaration),
            Declaration::Attribute(name) => Ok(self.attributes.push(name.text)?),
            Declaration::Directive(Directive::RootType(name)) => self.set_root(name),
            Declaration::Directive(Directive::FileIdentifier(text)) => {
                self.identifier = Some(text);
                Ok(())
            }
            Declaration::Directive(Directive::FileExtension(_)) => Ok(()),
        }
    }

    /// Puts another namespace in force.
    fn enter(&mut self, name: Option<&'d DottedName<'_>>) -> Result<(), AllocError>
        requires placed { IsPlaced self.now }
        ensures placed { OnOk result (IsPlaced self.new) }
        ensures entered { OnOk result (walk_read self.new
            ≡ record (walk_read self.old) { scope = scope_named (option_copied name.entry) }) }
    {
        let Some(name) = name else {
            self.scope = None;
            self.path = 0;
            return Ok(());
        };
        let name = name.as_str();
        self.path = self.tree.insert_words(0, name)?;
        self.scope = Some(name);
        Ok(())
    }

    /// Adds a type.
    fn add_type(&mut self, alloc: Global, declaration: &'d TypeDecl<'s>) -> Result<(), AllocError>
        requires placed { IsPlaced self.now }
        ensures placed { OnOk result (IsPlaced self.new) }
        ensures added { OnOk result (walk_read self.new ≡ record (walk_read self.old) {
          types = (walk_read self.old).types
              ++ record { scope = (walk_read self.old).scope; declaration = declaration.now } ∷ [];
        }) }
    {
        let scope = self.scope;
        let namespace = self.path;
        let word = word_of(declaration).text;
        let full_name = self.tree.insert_words(namespace, word)?;
        self.full_names.push(full_name)?;
        let uses = uses_of(alloc, &mut self.used, declaration)?;
        let values = EnumValues::of(alloc, self.key, declaration, uses.as_slice())?;
        self.values.push(values)?;
        self.notes.push(TypeNotes { namespace, uses })?;
        Ok(self.types.push(TypeRead { scope, declaration })?)
    }

    /// Sets the root.
    fn set_root(&mut self, name: &'d DottedName<'s>) -> Result<(), AllocError>
        requires placed { IsPlaced self.now }
        ensures placed { OnOk result (IsPlaced self.new) }
        ensures named { OnOk result (walk_read self.new ≡ record (walk_read self.old)
            { root = Some (record { scope = (walk_read self.old).scope; name = name.now }) }) }
    {
        let scope = self.scope;
        self.root_use = type_use(&mut self.used, name.as_str())?;
        self.root_path = self.path;
        self.root = Some(RootRead { scope, name });
        Ok(())
    }

    /// Builds the outline of a text of this length. The only error is a refused allocation.
    pub(crate) fn outline(
        self,
        alloc: Global,
        repeats: Vec<bool>,
        text_len: u64,
    ) -> Result<Outline<'d, 's>, AllocError>
        requires placed { IsPlaced self }
        requires repeats { repeats.items ≡ repeated_names name_of_type self.types.items }
        ensures { IfOk result
            (λ o. o ≡ outline_behind (walk_read self.entry) [] text_len) }
    {
        let full_names = self.full_names;
        let names = OutlineNames {
            scopes: Scopes::of(alloc, self.tree, self.used, full_names.as_slice())?,
            notes: self.notes,
            values: self.values,
            root_path: self.root_path,
            root_use: self.root_use,
            repeats,
        };
        Ok(Outline {
            types: self.types,
            attributes: self.attributes,
            root: self.root,
            identifier: self.identifier,
            text_len,
            key: self.key,
            names,
        })
    }
}

/// What is noted of a name that is used for a type.
fn type_use<'d>(used: &mut PathTree<'d>, name: &'d str) -> Result<TypeUse, AllocError>
    requires { IsTree used.now }
    ensures tree { OnOk result (IsTree used.new) }
    ensures kept { OnOk result (KeepsPaths used.old used.new) }
    ensures noted { IfOk result (λ u. IsNoted used.new u name.now) }
{
    match basic_type(name) {
        Some(basic) => Ok(TypeUse::Basic(basic)),
        None => Ok(TypeUse::Named(used.insert_reversed(name)?)),
    }
}

/// What uses a name for a type: a field, or a member of a union.
trait UsesType {
    ghost name: { Self → Name };

    fn name_used(&self) -> &str
        ensures { result.now ≡ name self.now };
}

impl UsesType for Field<'_> {
    ghost name = { λ f. (type_name f.kind).bytes };

    fn name_used(&self) -> &str {
        type_name(&self.kind).as_str()
    }
}

impl UsesType for UnionMember<'_> {
    ghost name = { λ m. m.table.bytes };

    fn name_used(&self) -> &str {
        self.table.as_str()
    }
}

/// What is noted of the names that these use.
fn uses_in<'d, T: UsesType>(
    alloc: Global,
    used: &mut PathTree<'d>,
    users: &'d [T],
) -> Result<Vec<TypeUse>, AllocError>
    requires { IsTree used.now }
    ensures { IfOk result (λ v. AreNoted used.old used.new v.items (map T.name users.now)) }
{
    let mut uses = Vec::with_capacity(alloc, users.len())?;
    for user in users {
        uses.push_reserved(type_use(used, user.name_used())?);
    }
    Ok(uses)
}

/// What is noted of the names that a type's declaration uses for types.
fn uses_of<'d>(
    alloc: Global,
    used: &mut PathTree<'d>,
    declaration: &'d TypeDecl<'_>,
) -> Result<Vec<TypeUse>, AllocError>
    requires { IsTree used.now }
    ensures { IfOk result (λ v. AreNoted used.old used.new v.items (names_used declaration.now)) }
{
    match declaration {
        TypeDecl::Table(read) | TypeDecl::Struct(read) => {
            uses_in(alloc, used, read.fields.as_slice())
        }
        TypeDecl::Enum(read) => {
            let noted = type_use(used, read.underlying.as_str())?;
            Ok(vec![in alloc; noted; 1]?)
        }
        TypeDecl::Union(read) => uses_in(alloc, used, read.members.as_slice()),
    }
}

/// Of each number, which is below `bound`, whether it is among those before it. The only error is a
/// refused allocation.
fn repeated_numbers(alloc: Global, numbers: &[usize], bound: usize) -> Result<Vec<bool>, AllocError>
    requires { All (λ n. n < bound) numbers.now }
    ensures { IfOk result (λ r. r.items ≡ repeated_numbers numbers.now) }
{
    let mut seen = vec![in alloc; false; bound]?;
    let mut repeats = Vec::with_capacity(alloc, numbers.len())?;
    for number in numbers {
        let number = *number;
        repeats.push_reserved(seen[number]);
        seen[number] = true;
    }
    Ok(repeats)
}
