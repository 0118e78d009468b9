//! What in a new schema breaks with the old one.
ghost use Rattle.std.specs.Prelude.{◌≡◌};

use fb_schema::TypeId;
use thiserror::Error;

/// What in a new schema breaks with the old one; types and slots by the old schema's numbers.
///
/// Types are matched by full name. Names of fields, of structs' fields and of union members may
/// change, and so may the order in which types are declared.
#[derive(Clone, Copy, Debug, PartialEq, Eq, Drop, Error)]
pub enum Breach {
    /// The roots' full names differ.
    #[error("the root is a type of another name")]
    RootChanged,
    /// One schema has a file identifier and the other not, or they differ.
    #[error("the file identifier changed")]
    IdentifierChanged,
    /// No new type has the old one's full name.
    #[error("type {} is gone", .0.0)]
    TypeGone(TypeId),
    /// It was a table, struct, enum or union, and is another of these.
    #[error("type {} is of another kind", .0.0)]
    KindChanged(TypeId),
    /// The struct's fields have other types, or it is aligned otherwise.
    #[error("the struct, type {}, has another layout", .0.0)]
    StructChanged(TypeId),
    /// The new table has no such slot.
    #[error("slot {} of type {} is gone", .1, .0.0)]
    SlotGone(TypeId, u16),
    /// The field has another type.
    #[error("slot {} of type {} has another type", .1, .0.0)]
    FieldTypeChanged(TypeId, u16),
    /// The number has another default, or was optional and isn't, or the other way round.
    #[error("slot {} of type {} has another default", .1, .0.0)]
    DefaultChanged(TypeId, u16),
    /// The field was required and isn't, or the other way round; a deprecated one never is.
    #[error("slot {} of type {} is required in one schema alone", .1, .0.0)]
    RequiredChanged(TypeId, u16),
    /// The field was deprecated and isn't any more.
    #[error("slot {} of type {} isn't deprecated any more", .1, .0.0)]
    DeprecatedTakenBack(TypeId, u16),
    /// A new field is required.
    #[error("the new slot {} of type {} is required", .1, .0.0)]
    NewRequired(TypeId, u16),
    /// The enum has another underlying type or another `bit_flags` mark, or an old name is gone or
    /// has another number.
    #[error("the enum, type {}, has lost values", .0.0)]
    EnumChanged(TypeId),
    /// An old code of the union is gone, or names a table of another full name.
    #[error("the union, type {}, has lost members", .0.0)]
    UnionChanged(TypeId),
}

impl Breach {
    ghost use Rattle.fb_conform.specs.BreachTable.{number_of, name_of, type_of, slot_of};

    // The number and the name.
    fn row(self) -> (u8, &'static str)
        ensures number { result.0 ≡ number_of self }
        ensures name { result.1.now ≡ name_of self }
    {
        match self {
            Breach::RootChanged => (90, "RootChanged"),
            Breach::IdentifierChanged => (91, "IdentifierChanged"),
            Breach::TypeGone(_) => (92, "TypeGone"),
            Breach::KindChanged(_) => (93, "KindChanged"),
            Breach::StructChanged(_) => (94, "StructChanged"),
            Breach::SlotGone(_, _) => (95, "SlotGone"),
            Breach::FieldTypeChanged(_, _) => (96, "FieldTypeChanged"),
            Breach::DefaultChanged(_, _) => (97, "DefaultChanged"),
            Breach::RequiredChanged(_, _) => (98, "RequiredChanged"),
            Breach::DeprecatedTakenBack(_, _) => (99, "DeprecatedTakenBack"),
            Breach::NewRequired(_, _) => (100, "NewRequired"),
            Breach::EnumChanged(_) => (101, "EnumChanged"),
            Breach::UnionChanged(_) => (102, "UnionChanged"),
        }
    }

    /// The breach's number; no other breach has it.
    pub fn number(self) -> u8
        ensures { result ≡ number_of self }
    {
        self.row().0
    }

    /// The breach's name, that of its variant.
    pub fn name(self) -> &'static str
        ensures { result.now ≡ name_of self }
    {
        self.row().1
    }

    /// The old schema's type that it is in; none for the root and the identifier.
    pub fn type_id(self) -> Option<TypeId>
        ensures { result ≡ type_of self }
    {
        match self {
            Breach::RootChanged | Breach::IdentifierChanged => None,
            Breach::TypeGone(type_id)
            | Breach::KindChanged(type_id)
            | Breach::StructChanged(type_id)
            | Breach::SlotGone(type_id, _)
            | Breach::FieldTypeChanged(type_id, _)
            | Breach::DefaultChanged(type_id, _)
            | Breach::RequiredChanged(type_id, _)
            | Breach::DeprecatedTakenBack(type_id, _)
            | Breach::NewRequired(type_id, _)
            | Breach::EnumChanged(type_id)
            | Breach::UnionChanged(type_id) => Some(type_id),
        }
    }

    /// The slot that it is in, where it is one slot's.
    pub fn slot(self) -> Option<u16>
        ensures { result ≡ slot_of self }
    {
        match self {
            Breach::SlotGone(_, slot)
            | Breach::FieldTypeChanged(_, slot)
            | Breach::DefaultChanged(_, slot)
            | Breach::RequiredChanged(_, slot)
            | Breach::DeprecatedTakenBack(_, slot)
            | Breach::NewRequired(_, slot) => Some(slot),
            _ => None,
        }
    }
}
