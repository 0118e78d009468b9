//! The types of a text with what the names and attributes in them mean.
use crate::attributes::FieldAttributes;
use crate::defaults::Given;
use crate::enum_values::EnumValues;
use crate::ids::Slots;
use crate::meanings::Meaning;
use crate::outline::TypeRead;
use fb_schema::TypeId;
use fb_syntax::{EnumDecl, EnumValue, Field, TableDecl, UnionDecl, UnionMember};
use std::borrow::CowStr;
use std::marker::Model;

/// The code of a union's field: the union, and the name of the slot that holds the code.
#[derive(Drop)]
pub struct UnionCodeSlot {
    pub union: TypeId,
    pub name: String,
}

/// A field of a table or struct, what the name in its type means, what its attributes say, what a table's field is
/// given where none is stored, and the code that comes with it if it is a union's.
#[derive(Drop)]
pub struct ResolvedField<'d, 's> {
    pub field: &'d Field<'s>,
    pub meaning: Meaning,
    pub attributes: FieldAttributes,
    pub given: Given,
    pub code: Option<UnionCodeSlot>,
}

impl<'d, 's> Model for ResolvedField<'d, 's> {
    ghost use Rattle.fb_resolve.specs.ResolvedFields.{ResolvedField as Resolved};
    ghost use Rattle.fb_resolve.specs.SlotsRead.{IsCodeOf};

    ghost Value = { Resolved };

    ghost view = { λ f. record {
      field = f.field.now;
      meaning = f.meaning;
      attributes = f.attributes;
      given = f.given;
    } };

    ghost invariant = { λ f. IsCodeOf f.field.now f.meaning f.code };
}

/// A table, what its fields mean, and which slots they take.
#[derive(Drop)]
pub struct ResolvedTable<'d, 's> {
    pub declared: &'d TableDecl<'s>,
    pub fields: Vec<ResolvedField<'d, 's>>,
    pub(crate) slots: Slots,
}

impl<'d, 's> Model for ResolvedTable<'d, 's> {
    ghost use Rattle.fb_resolve.specs.Attributes.{number_called};
    ghost use Rattle.fb_syntax.specs.declared.attributes.BuiltInAttribute.TheVariants.{ForceAlign};
    ghost use Rattle.fb_resolve.specs.ResolvedFields.{ResolvedTable as Resolved};
    ghost use Rattle.fb_resolve.specs.Ids.{AreSlots};

    ghost Value = { Resolved };

    ghost view = { λ t. record {
      declared = t.declared.now;
      fields = t.fields.items;
      force_align = number_called ForceAlign t.declared.now.attributes;
    } };

    ghost invariant = { λ t. AreSlots t.fields.items t.slots };
}

/// A struct, what its fields mean, and the integer that its first `force_align` has.
#[derive(Drop)]
pub struct ResolvedStruct<'d, 's> {
    pub declared: &'d TableDecl<'s>,
    pub fields: Vec<ResolvedField<'d, 's>>,
    pub force_align: Option<i128>,
}

impl<'d, 's> Model for ResolvedStruct<'d, 's> {
    ghost use Rattle.fb_resolve.specs.ResolvedFields.{ResolvedTable as Resolved};

    ghost Value = { Resolved };

    ghost view = { λ s. record {
      declared = s.declared.now;
      fields = s.fields.items;
      force_align = s.force_align;
    } };
}

/// A value of an enum, and the number that is written for it or follows from the one before.
#[derive(Drop)]
pub struct ResolvedValue<'d, 's> {
    pub value: &'d EnumValue<'s>,
    pub number: i128,
}

impl<'d, 's> Model for ResolvedValue<'d, 's> {
    ghost use Rattle.fb_resolve.specs.ResolvedFields.{ResolvedValue as Resolved};

    ghost Value = { Resolved };

    ghost view = { λ v. record { value = v.value.now; number = v.number } };
}

/// An enum, what the name of its underlying type means, and its values.
#[derive(Drop)]
pub struct ResolvedEnum<'t, 'd, 's> {
    pub declared: &'d EnumDecl<'s>,
    pub underlying: Meaning,
    pub values: &'t EnumValues<'d, 's>,
}

impl<'t, 'd, 's> Model for ResolvedEnum<'t, 'd, 's> {
    ghost use Rattle.std.specs.Prelude.{◌≡◌};
    ghost use Rattle.fb_resolve.specs.EnumValues.{integer_type};
    ghost use Rattle.fb_resolve.specs.ResolvedFields.{ResolvedEnum as Resolved};

    ghost Value = { Resolved };

    ghost view = { λ e. record {
      declared = e.declared.now;
      underlying = e.underlying;
      bit_flags = e.values.now.bit_flags;
      values = e.values.now.values;
    } };

    ghost invariant = { λ e. e.values.now.base ≡ integer_type e.underlying };
}

/// A member of a union, its name, and what the name of its table means.
#[derive(Drop)]
pub struct ResolvedMember<'d, 's> {
    pub name: CowStr<'d>,
    /// The offset of its name's first word.
    pub name_at: u64,
    pub member: &'d UnionMember<'s>,
    pub meaning: Meaning,
}

impl<'d, 's> Model for ResolvedMember<'d, 's> {
    ghost use Rattle.std.specs.Cow.{cow_str_bytes};
    ghost use Rattle.fb_resolve.specs.ResolvedFields.{ResolvedMember as Resolved};

    ghost Value = { Resolved };

    ghost view = { λ m. record {
      name = record { bytes = cow_str_bytes m.name; at = m.name_at };
      member = m.member.now;
      meaning = m.meaning;
    } };
}

/// A union, and what the names of its members' tables mean.
#[derive(Drop)]
pub struct ResolvedUnion<'d, 's> {
    pub declared: &'d UnionDecl<'s>,
    pub members: Vec<ResolvedMember<'d, 's>>,
}

impl<'d, 's> Model for ResolvedUnion<'d, 's> {
    ghost use Rattle.fb_resolve.specs.ResolvedFields.{ResolvedUnion as Resolved};

    ghost Value = { Resolved };

    ghost view = { λ u. record { declared = u.declared.now; members = u.members.items } };
}

/// A declaration, and what the names in it mean.
#[derive(Drop)]
pub enum ResolvedDecl<'t, 'd, 's> {
    Table(ResolvedTable<'d, 's>),
    Struct(ResolvedStruct<'d, 's>),
    Enum(ResolvedEnum<'t, 'd, 's>),
    Union(ResolvedUnion<'d, 's>),
}

/// A type of a text, and what the names in its declaration mean.
#[derive(Drop)]
pub struct ResolvedType<'t, 'd, 's> {
    pub read: &'t TypeRead<'d, 's>,
    pub declaration: ResolvedDecl<'t, 'd, 's>,
}

impl<'t, 'd, 's> Model for ResolvedType<'t, 'd, 's> {
    ghost use Rattle.fb_resolve.specs.ResolvedType.{ResolvedType as Resolved};

    ghost Value = { Resolved };

    ghost view = { λ t. record { read = t.read.now; declaration = t.declaration } };
}
