//! A schema that keeps what schemas must keep, and finds its types by their names.
ghost use Rattle.std.specs.Prelude.{◌≡◌, map, option_copied, option_map, IfOk};
ghost use Rattle.fb_schema.specs.Schema.{body_at};
ghost use Rattle.fb_schema.specs.Seen.{field_seen, type_seen, schema_of};
ghost use Rattle.fb_schema.specs.WellDeclared.{IsDeclared};
ghost use Rattle.fb_schema.specs.Found.{type_named, field_named, member_coded, name_numbered, number_named};
ghost use Rattle.fb_schema.specs.Found.{code_named, name_at};
ghost use Rattle.fb_schema.specs.Keys.{key_of_schema};
ghost use Rattle.fb_schema.specs.Paths.{number_by_path, code_by_path};

use crate::finding::{code_in, field_in, member_in, name_in, number_in};
use crate::keys::key_of_types;
use crate::kinds::TypeId;
use crate::name_index::NameIndex;
use crate::number_index::NumberIndex;
use crate::paths::name_in_path;
use crate::types::{FieldInfo, TypeInfo};
use fb_index::HashKey;
use std::alloc::{AllocError, Global};
use std::marker::Model;

/// A schema: its types by number, the root's type, and the identifier of its files.
///
/// A look-up by a name takes a few steps, however many names there are. One by a number takes as many as
/// the number of values has digits in base 2, at most. Neither takes memory. Each name is held once.
#[derive(Drop)]
pub struct Schema {
    types: Vec<TypeInfo>,
    root: TypeId,
    identifier: Option<[u8; 4]>,
    names: NameIndex,
    numbers: NumberIndex,
}

impl Model for Schema {
    ghost use Rattle.fb_schema.specs.Schema.{DeclaredSchema};

    ghost Value = { DeclaredSchema };

    ghost use Rattle.fb_schema.specs.Held.{schema_seen, IsIndexed};

    ghost view = { schema_seen };

    ghost invariant = { IsIndexed };
}

impl Schema {
    /// A schema of types that are well declared, with its indexes.
    pub fn new(
        alloc: Global,
        types: Vec<TypeInfo>,
        root: TypeId,
        identifier: Option<[u8; 4]>,
    ) -> Result<Schema, AllocError>
        requires { IsDeclared (schema_of types.items root identifier) }
        ensures { IfOk result (λ schema. schema ≡ schema_of types.items root identifier) }
    {
        let key = key_of_types(types.as_slice());
        let names = NameIndex::of(alloc, key, types.as_slice())?;
        let numbers = NumberIndex::of(alloc, types.as_slice())?;
        Ok(Schema {
            types,
            root,
            identifier,
            names,
            numbers,
        })
    }

    /// The types, by number.
    pub fn types(&self) -> &[TypeInfo]
        ensures types { map type_seen result.now ≡ self.now.types }
        ensures declared { IsDeclared self.now }
    {
        self.types.as_slice()
    }

    /// The type of the root.
    pub fn root(&self) -> TypeId
        ensures { result.0 ≡ self.now.root }
    {
        self.root
    }

    /// The identifier that the schema's files have.
    pub fn identifier(&self) -> Option<[u8; 4]>
        ensures { result ≡ self.now.identifier }
    {
        self.identifier
    }

    /// The key of the digests of the schema's names, which is made of all of them.
    pub fn key(&self) -> HashKey
        ensures { result ≡ key_of_schema self.now }
    {
        self.names.key()
    }

    /// The type that has a full name.
    pub fn find(&self, full_name: &str) -> Option<TypeId>
        ensures { option_map (λ t. t.0) result ≡ type_named self.now full_name.now }
    {
        let names = self.names.full_names();
        let at = names.position(self.types.as_slice(), full_name)?;
        Some(TypeId(at as u64))
    }

    /// The field of a table or struct that has a name. Of a union field `x` the code is `x_type`.
    pub fn field_by_name(&self, owner: TypeId, name: &str) -> Option<&FieldInfo>
        ensures { option_map field_seen (option_copied result)
            ≡ field_named (body_at self.now owner.0) name.now }
    {
        let info = self.types.get(owner.0 as usize)?;
        let names = self.names.inner_names(owner)?;
        field_in(&info.body, names, name)
    }

    /// The table of a union's member that has a code, from 1 on.
    pub fn member_by_code(&self, union: TypeId, code: u8) -> Option<TypeId>
        ensures { option_map (λ t. t.0) result ≡ member_coded (body_at self.now union.0) code }
    {
        let info = self.types.get(union.0 as usize)?;
        member_in(&info.body, code)
    }

    /// The name of an enum's value that has a number.
    pub fn name_of_number(&self, enumeration: TypeId, number: i128) -> Option<&str>
        ensures { option_copied result ≡ name_numbered (body_at self.now enumeration.0) number }
    {
        let info = self.types.get(enumeration.0 as usize)?;
        name_in(&info.body, enumeration, &self.numbers, number)
    }

    /// The number of an enum's value that has a name.
    pub fn number_of_name(&self, enumeration: TypeId, name: &str) -> Option<i128>
        ensures { result ≡ number_named (body_at self.now enumeration.0) name.now }
    {
        let info = self.types.get(enumeration.0 as usize)?;
        let names = self.names.inner_names(enumeration)?;
        number_in(&info.body, names, name)
    }

    /// The code of a union's member that has a name; of `NONE` it is 0.
    pub fn code_of_name(&self, union: TypeId, name: &str) -> Option<u8>
        ensures { result ≡ code_named (body_at self.now union.0) name.now }
    {
        let info = self.types.get(union.0 as usize)?;
        let names = self.names.inner_names(union)?;
        code_in(&info.body, names, name)
    }

    /// The full name of the type that has a number.
    pub fn name_at(&self, number: TypeId) -> Option<&str>
        ensures { option_copied result ≡ name_at self.now number.0 }
    {
        let info = self.types.get(number.0 as usize)?;
        Some(info.name.as_str())
    }

    /// The number of an enum's value by its name: alone, or after the enum's declared name and a dot,
    /// or after its full name and a dot.
    pub fn number_by_path(&self, enumeration: TypeId, path: &str) -> Option<i128>
        ensures { result ≡ number_by_path self.now enumeration.0 path.now }
    {
        let name = name_in_path(self.name_at(enumeration)?, path)?;
        self.number_of_name(enumeration, name)
    }

    /// The code of a union's member, or of `NONE`, by its name: alone, or after the union's declared
    /// name and a dot, or after its full name and a dot.
    pub fn code_by_path(&self, union: TypeId, path: &str) -> Option<u8>
        ensures { result ≡ code_by_path self.now union.0 path.now }
    {
        let name = name_in_path(self.name_at(union)?, path)?;
        self.code_of_name(union, name)
    }
}
