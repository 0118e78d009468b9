//! Each name and attribute in the declarations of types looked up once.
ghost use Rattle.std.specs.Prelude.{◌≡◌, IfOk, map};
ghost use Rattle.std.specs.Option.{option_copied};
ghost use Rattle.fb_resolve.specs.Scopes.{tree_of, names_of, AreScopes};
ghost use Rattle.fb_resolve.specs.Meaning.{paths_of_types};
ghost use Rattle.fb_resolve.specs.Outline.{name_of_type};
ghost use Rattle.fb_resolve.specs.Paths.{types_used, tables_used, names_used, IsRootPlaced, AreUses, AreNames};
ghost use Rattle.fb_resolve.specs.RepeatedNames.{repeated_names};
ghost use Rattle.fb_resolve.specs.EnumValues.{enum_values};
ghost use Rattle.fb_syntax.specs.declared.declarations.TypeDecl.TheVariants.{Enum};
ghost use Rattle.fb_resolve.specs.Resolved.{resolved_fields, resolved_enum, resolved_member};
ghost use Rattle.fb_resolve.specs.Resolved.{resolved_declaration, resolved_types, meaning_of_root};

use crate::attributes::{field_attributes, number_called};
use crate::defaults::given_by;
use crate::enum_values::EnumValues;
use crate::ids::Slots;
use crate::meanings::Meaning;
use crate::members::member_name;
use crate::outline::{Outline, OutlineNames, RootRead, TypeNotes, TypeRead, TypeUse};
use crate::resolved::{
    ResolvedDecl, ResolvedEnum, ResolvedField, ResolvedMember, ResolvedStruct, ResolvedTable,
    ResolvedType, ResolvedUnion,
};
use crate::slots::code_of;
use crate::type_uses::Scope;
use fb_syntax::{BuiltInAttribute, EnumDecl, Field, TypeDecl, UnionMember};
use std::alloc::{AllocError, Global};

impl<'t, 'd, 's> Scope<'t, 'd, 's> {
    fn resolved_fields(
        self,
        alloc: Global,
        fields: &'d [Field<'s>],
        uses: &[TypeUse],
    ) -> Result<Vec<ResolvedField<'d, 's>>, AllocError>
        requires scopes { AreScopes self.names.now.scopes (paths_of_types self.types.now) }
        requires used { AreUses (names_of self.names.now.scopes) uses.now (types_used fields.now) }
        ensures { IfOk result (λ v. v.items
            ≡ resolved_fields self.entry.types.now (option_copied self.entry.name) fields.now) }
    {
        let mut resolved = Vec::with_capacity(alloc, fields.len())?;
        for (number, field) in fields.iter().enumerate() {
            let meaning = self.meaning(uses[number]);
            let default = field.default.as_ref();
            resolved.push_reserved(ResolvedField {
                field,
                meaning,
                attributes: field_attributes(field.attributes.as_slice()),
                given: given_by(self, &field.kind, meaning, default),
                code: code_of(alloc, field, meaning)?,
            });
        }
        Ok(resolved)
    }

    fn resolved_members(
        self,
        alloc: Global,
        members: &'d [UnionMember<'s>],
        uses: &[TypeUse],
    ) -> Result<Vec<ResolvedMember<'d, 's>>, AllocError>
        requires scopes { AreScopes self.names.now.scopes (paths_of_types self.types.now) }
        requires used { AreUses (names_of self.names.now.scopes) uses.now (tables_used members.now) }
        ensures { IfOk result (λ v. v.items
            ≡ map (resolved_member self.entry.types.now (option_copied self.entry.name)) members.now) }
    {
        let mut resolved = Vec::with_capacity(alloc, members.len())?;
        for (number, member) in members.iter().enumerate() {
            let (name, name_at) = member_name(alloc, member)?;
            let meaning = self.meaning(uses[number]);
            resolved.push_reserved(ResolvedMember {
                name,
                name_at,
                member,
                meaning,
            });
        }
        Ok(resolved)
    }

    fn resolved_enum(
        self,
        declared: &'d EnumDecl<'s>,
        notes: &TypeNotes,
        values: &'t EnumValues<'d, 's>,
    ) -> ResolvedEnum<'t, 'd, 's>
        requires scopes { AreScopes self.names.now.scopes (paths_of_types self.types.now) }
        requires used { AreUses (names_of self.names.now.scopes) notes.now.uses.items
            (names_used (Enum declared.now)) }
        requires values { values.now
            ≡ enum_values self.types.now (option_copied self.name) (Enum declared.now) }
        ensures { result
            ≡ resolved_enum self.entry.types.now (option_copied self.entry.name) declared.now }
    {
        ResolvedEnum {
            declared,
            underlying: self.meaning(notes.uses[0]),
            values,
        }
    }

    fn resolved_declaration(
        self,
        alloc: Global,
        declaration: &'d TypeDecl<'s>,
        notes: &TypeNotes,
        values: &'t EnumValues<'d, 's>,
    ) -> Result<ResolvedDecl<'t, 'd, 's>, AllocError>
        requires scopes { AreScopes self.names.now.scopes (paths_of_types self.types.now) }
        requires used { AreUses (names_of self.names.now.scopes) notes.now.uses.items
            (names_used declaration.now) }
        requires values { values.now
            ≡ enum_values self.types.now (option_copied self.name) declaration.now }
        ensures { IfOk result (λ d. d
            ≡ resolved_declaration self.entry.types.now (option_copied self.entry.name)
            declaration.now) }
    {
        let uses = notes.uses.as_slice();
        Ok(match declaration {
            TypeDecl::Table(declared) => {
                let fields = self.resolved_fields(alloc, declared.fields.as_slice(), uses)?;
                let slots = Slots::of(alloc, fields.as_slice())?;
                ResolvedDecl::Table(ResolvedTable {
                    declared,
                    fields,
                    slots,
                })
            }
            TypeDecl::Struct(declared) => {
                let attributes = declared.attributes.as_slice();
                ResolvedDecl::Struct(ResolvedStruct {
                    declared,
                    fields: self.resolved_fields(alloc, declared.fields.as_slice(), uses)?,
                    force_align: number_called(BuiltInAttribute::ForceAlign, attributes),
                })
            }
            TypeDecl::Enum(declared) => {
                ResolvedDecl::Enum(self.resolved_enum(declared, notes, values))
            }
            TypeDecl::Union(declared) => {
                let members = self.resolved_members(alloc, declared.members.as_slice(), uses)?;
                ResolvedDecl::Union(ResolvedUnion { declared, members })
            }
        })
    }
}

/// Each type with what the names in its declaration mean.
fn resolved_types<'t, 'd, 's>(
    alloc: Global,
    types: &'t [TypeRead<'d, 's>],
    names: &'t OutlineNames<'d, 's>,
) -> Result<Vec<ResolvedType<'t, 'd, 's>>, AllocError>
    requires { AreNames names.now types.now }
    ensures { IfOk result (λ v. v.items ≡ resolved_types types.now) }
{
    let mut resolved = Vec::with_capacity(alloc, types.len())?;
    for (number, read) in types.iter().enumerate() {
        let notes = &names.notes[number];
        let scope = Scope {
            types,
            names,
            path: notes.namespace,
            name: read.scope,
        };
        let values = &names.values[number];
        let declaration = scope.resolved_declaration(alloc, read.declaration, notes, values)?;
        resolved.push_reserved(ResolvedType { read, declaration });
    }
    Ok(resolved)
}

/// What the root's name means; nothing that is known where there is no root.
fn meaning_of_root<'t, 'd, 's>(
    types: &'t [TypeRead<'d, 's>],
    names: &'t OutlineNames<'d, 's>,
    root: Option<&RootRead<'d, 's>>,
) -> Meaning
    requires names { AreNames names.now types.now }
    requires root { IsRootPlaced (tree_of names.now.scopes) (names_of names.now.scopes)
        names.now.root_path names.now.root_use (option_copied root) }
    ensures { result ≡ meaning_of_root types.now (option_copied root.entry) }
{
    let Some(root) = root else {
        return Meaning::Unknown;
    };
    let scope = Scope {
        types,
        names,
        path: names.root_path,
        name: root.scope,
    };
    scope.meaning(names.root_use)
}

/// What a text declares, and what each name in its types and the root's mean.
#[derive(Drop)]
pub struct Resolved<'t, 'd, 's> {
    pub outline: &'t Outline<'d, 's>,
    pub types: Vec<ResolvedType<'t, 'd, 's>>,
    /// Of each type whether one before it has its full name.
    pub repeats: &'t [bool],
    pub root: Meaning,
    ghost meant: { types.items ≡ resolved_types outline.now.types },
    ghost repeated: { repeats.now ≡ repeated_names name_of_type outline.now.types },
    ghost root_meant: { root ≡ meaning_of_root outline.now.types outline.now.root },
}

impl<'t, 'd, 's> Resolved<'t, 'd, 's> {
    /// The types of the text of this outline. The only error is a refused allocation.
    pub fn of(
        alloc: Global,
        outline: &'t Outline<'d, 's>,
    ) -> Result<Resolved<'t, 'd, 's>, AllocError>
        ensures { IfOk result (λ r. r.outline.now ≡ outline.now) }
    {
        let types = outline.types.as_slice();
        let names = &outline.names;
        Ok(Resolved {
            outline,
            types: resolved_types(alloc, types, names)?,
            repeats: names.repeats.as_slice(),
            root: meaning_of_root(types, names, outline.root.as_ref()),
        })
    }
}
