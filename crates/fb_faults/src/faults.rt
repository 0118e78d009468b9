//! Why the tool refuses.
use fb_build::BuildFault;
use fb_conform::{Breach, MovedName};
use fb_declare::SchemaTextFault;
use fb_json::{JsonFault, Place};
use fb_schema::TypeId;
use fb_text::{TextFault, WriteFault};
use fb_value::ReadFault;
use thiserror::Error;

/// The refusal of the first layer that refuses.
///
/// `FileRead`, `FileWrite` and `FileTooLong` are of files, `BadJson` are bytes that are no JSON text,
/// and `Memory` is an allocation that was refused while a file or a JSON text was read, or names of two
/// schemas were compared.
#[derive(Clone, Copy, Debug, PartialEq, Eq, Drop, Error)]
pub enum ToolFault {
    #[error(transparent)]
    Schema(SchemaTextFault),
    #[error(transparent)]
    Json(JsonFault),
    #[error(transparent)]
    Build(BuildFault),
    #[error(transparent)]
    Read(ReadFault),
    #[error(transparent)]
    Text(TextFault),
    #[error(transparent)]
    Write(WriteFault),
    /// What in a new schema breaks with the old one.
    #[error(transparent)]
    Breach(Breach),
    /// A name that stands for something else in a new schema that conforms.
    #[error("the name of slot {} of type {} now belongs to another slot", .0.slot, .0.type_id.0)]
    NameMoved(MovedName),
    /// The older of two schema texts is refused.
    #[error("old: {0}")]
    Older(SchemaTextFault),
    /// The newer of two schema texts is refused.
    #[error("new: {0}")]
    Newer(SchemaTextFault),
    #[error("a file can't be read")]
    FileRead,
    #[error("a file can't be written")]
    FileWrite,
    #[error("a file is longer than 2147483647 bytes")]
    FileTooLong,
    #[error("bad JSON")]
    BadJson,
    #[error("out of memory")]
    Memory,
}

impl ToolFault {
    ghost use Rattle.std.specs.Prelude.{◌≡◌, option_map};
    ghost use Rattle.fb_faults.specs.FaultTable.{number_of, name_of, offset_of};
    ghost use Rattle.fb_faults.specs.FaultPlaces.{place_of, owner_of, slot_of, written_of};

    // The number and the name.
    fn row(self) -> (u8, &'static str)
        ensures number { result.0 ≡ number_of self }
        ensures name { result.1.now ≡ name_of self }
    {
        match self {
            ToolFault::Schema(fault) | ToolFault::Older(fault) | ToolFault::Newer(fault) => {
                (fault.number(), fault.name())
            }
            ToolFault::Json(fault) => (fault.number(), fault.name()),
            ToolFault::Build(fault) => (fault.number(), fault.name()),
            ToolFault::Read(fault) => (fault.number(), fault.name()),
            ToolFault::Text(fault) => (fault.number(), fault.name()),
            ToolFault::Write(fault) => (fault.number(), fault.name()),
            ToolFault::Breach(breach) => (breach.number(), breach.name()),
            ToolFault::NameMoved(_) => (103, "NameMoved"),
            ToolFault::FileRead => (110, "FileRead"),
            ToolFault::FileWrite => (111, "FileWrite"),
            ToolFault::FileTooLong => (112, "FileTooLong"),
            ToolFault::BadJson => (113, "BadJson"),
            ToolFault::Memory => (114, "Memory"),
        }
    }

    /// The fault's number; no other fault has it.
    pub fn number(self) -> u8
        ensures { result ≡ number_of self }
    {
        self.row().0
    }

    /// The fault's name: that of its variant in the layer that refuses.
    pub fn name(self) -> &'static str
        ensures { result.now ≡ name_of self }
    {
        self.row().1
    }

    /// Its offset in the schema text or the buffer, in bytes from the start, if it has such a
    /// place.
    pub fn offset(self) -> Option<u64>
        ensures { result ≡ offset_of self }
    {
        match self {
            ToolFault::Schema(fault) | ToolFault::Older(fault) | ToolFault::Newer(fault) => {
                fault.offset()
            }
            ToolFault::Read(fault) => fault.offset(),
            _ => None,
        }
    }

    /// The declared place that a fault of JSON or of printing is in: a type, and a slot or none.
    pub fn place(self) -> Option<Place>
        ensures { result ≡ place_of self }
    {
        match self {
            ToolFault::Json(fault) => fault.place(),
            ToolFault::Text(fault) => fault.place(),
            ToolFault::Write(fault) => fault.place(),
            _ => None,
        }
    }

    /// The declared type that it is in, if it has such a place.
    pub fn owner(self) -> Option<TypeId>
        ensures { option_map (λ owner. owner.0) result ≡ owner_of self }
    {
        match self {
            ToolFault::Schema(fault) | ToolFault::Older(fault) | ToolFault::Newer(fault) => {
                fault.owner()
            }
            ToolFault::Breach(breach) => breach.type_id(),
            ToolFault::NameMoved(moved) => Some(moved.type_id),
            _ => self.place().map(|place| place.owner),
        }
    }

    /// The slot that it is in, if it has one.
    pub fn slot(self) -> Option<u16>
        ensures { result ≡ slot_of self }
    {
        match self {
            ToolFault::Read(ReadFault::MissingRequired(_, slot)) => Some(slot),
            ToolFault::Breach(breach) => breach.slot(),
            ToolFault::NameMoved(moved) => Some(moved.slot),
            _ => self.place()?.slot,
        }
    }

    /// How many bytes were written before a write failed.
    pub fn written(self) -> Option<u64>
        ensures { result ≡ written_of self }
    {
        match self {
            ToolFault::Write(fault) => fault.written(),
            _ => None,
        }
    }
}
