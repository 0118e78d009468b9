//! What a schema text declares.
ghost use Rattle.std.specs.Prelude.{◌≡◌, ◌<ℤ◌, pos, negsuc, IfOk};
ghost use Rattle.fb_syntax.specs.Located.{joined};

use crate::attributes::Attribute;
use fb_index::HashKey;
use std::alloc::{AllocError, Global};
use std::borrow::CowStr;
use std::marker::Model;

/// A word of a schema text, or what is between the quotes of a quoted text, and its token's offset.
#[derive(Debug, Drop)]
pub struct Text<'t> {
    pub text: &'t str,
    pub at: u64,
}

impl<'t> Model for Text<'t> {
    ghost use Rattle.fb_syntax.specs.Located.{Located};

    ghost Value = { Located };

    ghost view = { λ t. record { bytes = t.text.now; at = t.at } };
}

/// A name of words with dots between them, and the offset of its first word.
#[derive(Debug, Drop)]
pub struct DottedName<'t> {
    pub(crate) text: CowStr<'t>,
    pub(crate) at: u64,
}

impl<'t> Model for DottedName<'t> {
    ghost use Rattle.std.specs.Cow.{cow_str_bytes};
    ghost use Rattle.fb_syntax.specs.Located.{Located};

    ghost Value = { Located };

    ghost view = { λ n. record { bytes = cow_str_bytes n.text; at = n.at } };
}

impl<'t> DottedName<'t> {
    /// The name with a dot and a word after it.
    pub(crate) fn join(self, alloc: Global, word: &str) -> Result<DottedName<'t>, AllocError>
        ensures { IfOk result (λ n. n ≡ joined self.entry word.now) }
    {
        let DottedName { text, at } = self;
        let mut name = text.into_owned(alloc)?;
        name.push_str(".")?;
        name.push_str(word)?;
        Ok(DottedName {
            text: CowStr::Owned(name),
            at,
        })
    }

    /// The words with a dot between them.
    pub fn as_str(&self) -> &str
        ensures { result.now ≡ self.now.bytes }
    {
        self.text.as_str()
    }

    /// The offset of its first word.
    pub fn at(&self) -> u64
        ensures { result ≡ self.now.at }
    {
        self.at
    }
}

/// An integer constant: its value, and the offset of its token.
#[derive(Clone, Copy, Debug, PartialEq, Eq)]
pub struct Number {
    pub(crate) value: i128,
    pub(crate) at: u64,
}

impl Model for Number {
    ghost use Rattle.std.specs.Prelude.{◌<ℤ◌, pos, negsuc};
    ghost use Rattle.fb_syntax.specs.NumberRead.{NumberRead};

    ghost Value = { NumberRead };

    ghost view = { λ n. record { value = n.value; at = n.at } };

    ghost invariant = { λ n. (negsuc 18446744073709551615 <ℤ n.value) × (n.value <ℤ pos 18446744073709551616) };

    ghost inverse = { λ n. record { value = n.value; at = n.at } };
}

impl Number {
    /// Its value.
    pub fn value(self) -> i128
        ensures exact { result ≡ self.value }
        ensures small { (negsuc 18446744073709551615 <ℤ result) × (result <ℤ pos 18446744073709551616) }
    {
        self.value
    }

    /// The offset of its token.
    pub fn at(self) -> u64
        ensures { result ≡ self.at }
    {
        self.at
    }
}

/// What comes after an attribute's colon.
#[derive(Debug, Drop)]
pub enum AttributeValue<'t> {
    Integer(Number),
    Word(Text<'t>),
    Quoted(Text<'t>),
}

/// The type of a field.
#[derive(Debug, Drop)]
pub enum FieldType<'t> {
    /// A type's name.
    One(DottedName<'t>),
    /// A vector: the offset of its `[`, and the name of its elements' type.
    Many(u64, DottedName<'t>),
}

/// What comes after a field's `=`.
#[derive(Debug, Drop)]
pub enum DefaultValue<'t> {
    Integer(Number),
    Name(DottedName<'t>),
}

/// A field of a table or struct.
#[derive(Debug, Drop)]
pub struct Field<'t> {
    pub name: Text<'t>,
    pub kind: FieldType<'t>,
    pub default: Option<DefaultValue<'t>>,
    pub attributes: Vec<Attribute<'t>>,
}

impl<'t> Model for Field<'t> {
    ghost use Rattle.fb_syntax.specs.FieldRead.{FieldRead};

    ghost Value = { FieldRead };

    ghost view = { λ f. record {
      name = f.name;
      kind = f.kind;
      default = f.default;
      attributes = f.attributes.items;
    } };
}

/// A table or a struct.
#[derive(Debug, Drop)]
pub struct TableDecl<'t> {
    pub name: Text<'t>,
    pub attributes: Vec<Attribute<'t>>,
    pub fields: Vec<Field<'t>>,
}

impl<'t> Model for TableDecl<'t> {
    ghost use Rattle.fb_syntax.specs.TypesRead.{TableRead};

    ghost Value = { TableRead };

    ghost view = { λ t. record {
      name = t.name;
      attributes = t.attributes.items;
      fields = t.fields.items;
    } };
}

/// A value of an enum: its name, and the integer after its `=`.
#[derive(Debug, Drop)]
pub struct EnumValue<'t> {
    pub name: Text<'t>,
    pub number: Option<Number>,
}

/// An enum, with the name of its underlying type.
#[derive(Debug, Drop)]
pub struct EnumDecl<'t> {
    pub name: Text<'t>,
    pub underlying: DottedName<'t>,
    pub attributes: Vec<Attribute<'t>>,
    pub values: Vec<EnumValue<'t>>,
}

impl<'t> Model for EnumDecl<'t> {
    ghost use Rattle.fb_syntax.specs.TypesRead.{EnumRead};

    ghost Value = { EnumRead };

    ghost view = { λ e. record {
      name = e.name;
      underlying = e.underlying;
      attributes = e.attributes.items;
      values = e.values.items;
    } };
}

/// A member of a union: the name of its table, and the word before its colon.
#[derive(Debug, Drop)]
pub struct UnionMember<'t> {
    pub alias: Option<Text<'t>>,
    pub table: DottedName<'t>,
}

/// A union.
#[derive(Debug, Drop)]
pub struct UnionDecl<'t> {
    pub name: Text<'t>,
    pub attributes: Vec<Attribute<'t>>,
    pub members: Vec<UnionMember<'t>>,
}

impl<'t> Model for UnionDecl<'t> {
    ghost use Rattle.fb_syntax.specs.TypesRead.{UnionRead};

    ghost Value = { UnionRead };

    ghost view = { λ u. record {
      name = u.name;
      attributes = u.attributes.items;
      members = u.members.items;
    } };
}

/// A declaration of a type.
#[derive(Debug, Drop)]
pub enum TypeDecl<'t> {
    Table(TableDecl<'t>),
    Struct(TableDecl<'t>),
    Enum(EnumDecl<'t>),
    Union(UnionDecl<'t>),
}

/// What a schema text says of files and of their roots.
#[derive(Debug, Drop)]
pub enum Directive<'t> {
    /// The name of the root's type.
    RootType(DottedName<'t>),
    /// What a file's name ends in.
    FileExtension(Text<'t>),
    /// The identifier of files.
    FileIdentifier(Text<'t>),
}

/// A declaration of a schema text.
#[derive(Debug, Drop)]
pub enum Declaration<'t> {
    /// The namespace from here on, or none.
    Namespace(Option<DottedName<'t>>),
    Type(TypeDecl<'t>),
    /// The name of an attribute that may be used.
    Attribute(Text<'t>),
    Directive(Directive<'t>),
}

/// What a schema text declares, in its order.
#[derive(Drop)]
pub struct Decls<'t> {
    pub(crate) declarations: Vec<Declaration<'t>>,
    pub(crate) text_len: u64,
    pub(crate) key: HashKey,
}

impl<'t> Model for Decls<'t> {
    ghost use Rattle.fb_syntax.specs.DeclsRead.{DeclsRead};

    ghost Value = { DeclsRead };

    ghost view = { λ d. record {
      declarations = d.declarations.items;
      text_len = d.text_len;
    } };
}

impl<'t> Decls<'t> {
    /// The declarations in the order of the text.
    pub fn declarations(&self) -> &[Declaration<'t>]
        ensures { result.now ≡ self.now.declarations }
    {
        self.declarations.as_slice()
    }

    /// The length of the text in bytes.
    pub fn text_len(&self) -> u64
        ensures { result ≡ self.now.text_len }
    {
        self.text_len
    }

    /// The key of the text, for a hash of names in it.
    pub fn key(&self) -> HashKey {
        self.key
    }
}
