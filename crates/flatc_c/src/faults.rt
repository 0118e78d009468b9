//! Faults as C reads them.
ghost use Rattle.std.specs.Prelude.{◌≡◌, ◌↔◌, IsTrue};
ghost use Rattle.flatc_c.specs.Faults.{IsTold, name_field};

use flatc_tool::ToolFault;

/// Why a call refused.
#[repr(C)]
#[derive(Clone, Copy, Debug, PartialEq, Eq, Drop)]
pub struct Fault {
    pub offset: u64,
    pub type_id: u64,
    pub slot: u16,
    pub number: u8,
    pub has_offset: bool,
    pub has_type: bool,
    pub has_slot: bool,
    pub reserved: [u8; 10],
    pub name: [u8; 32],
}

/// The name of a fault, with zeros after it.
#[repr(C)]
#[derive(Clone, Copy, Debug, PartialEq, Eq, Drop)]
pub struct FaultName {
    pub text: [u8; 32],
}

/// A name in 32 bytes, with zeros after it, at least one.
pub(crate) fn padded(name: &str) -> [u8; 32]
    ensures { result ≡ name_field name.now }
{
    let text = name.as_bytes();
    let mut padded = [0u8; 32];
    let shown = if text.len() < 32 { text.len() } else { 31 };
    padded[..shown].copy_from_slice(&text[..shown]);
    padded
}

/// The fault as C reads it.
pub(crate) fn c_fault(fault: ToolFault) -> Fault
    ensures { IsTold result fault }
{
    let (offset, slot) = (fault.offset(), fault.slot());
    let owner = fault.owner().map(|owner| owner.0);
    Fault {
        offset: offset.unwrap_or(0),
        type_id: owner.unwrap_or(0),
        slot: slot.unwrap_or(0),
        number: fault.number(),
        has_offset: offset.is_some(),
        has_type: owner.is_some(),
        has_slot: slot.is_some(),
        reserved: [0; 10],
        name: padded(fault.name()),
    }
}

impl Fault {
    /// Whether C was told of this fault.
    pub(crate) fn tells(&self, fault: ToolFault) -> bool
        ensures { IsTrue result ↔ IsTold self.now fault }
    {
        *self == c_fault(fault)
    }
}
