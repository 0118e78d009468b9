//! The stored fields of tables that aren't whole yet.
ghost use Rattle.std.specs.Prelude.{ℕ, ◌≡◌, ◌≤◌, ◌<◌, ◌++◌, [], ◌∷◌, length, take, pos, OnOk, OnErr};
ghost use Rattle.fb_schema.specs.WellDeclared.{InRange};
ghost use Rattle.fb_schema.specs.declared.kinds.Base.TheVariants.{U8};
ghost use Rattle.fb_layout.specs.Laid.{LaidSchema, one_of, scalar_kind, struct_kind};
ghost use Rattle.fb_layout.specs.Seen.{kind_seen};
ghost use Rattle.fb_value.specs.Datum.{a_number, a_struct};
ghost use Rattle.fb_value.specs.Fits.{Fits};
ghost use Rattle.fb_value.specs.View.{view, parts_view};
ghost use Rattle.fb_tape.specs.InlineBytes.{IsInline};
ghost use Rattle.fb_tape.specs.OpenFields.{AddsInlineField, reference_field};
ghost use Rattle.fb_tape.specs.OpenList.{AreBytesAt, IsFieldAt, own_size};

use crate::inline_bytes::{push_number, push_struct, scalar_base};
use crate::ops::NotedField;
use fb_layout::{Layout, layout_is_well_made};
use fb_schema::{Base, Kind, TypeId};
use fb_value::Value;
use std::alloc::{AllocError, Global};
use std::marker::Model;

// How many fields there is memory for at first: the open tables of a short text mostly have no more. Else the list
// would grow many times for it.
const FIRST_FIELDS: usize = 32;

// the same for their bytes
const FIRST_BYTES: usize = 128;

/// A field, whose bytes are among those of all open fields.
#[derive(Clone, Copy)]
pub(crate) struct OpenField {
    pub(crate) slot: u16,
    pub(crate) align: u16,
    pub(crate) note: NotedField,
    first: usize,
}

/// How many bytes of a field are noted.
fn own_size(note: NotedField) -> usize
    ensures { result ≡ own_size note }
{
    match note {
        NotedField::Reference => 0,
        NotedField::Inline(size) => usize::from(size),
    }
}

/// The stored fields of tables that stand in one another and aren't whole yet, the innermost table's last.
#[derive(Drop)]
pub struct OpenFields {
    fields: Vec<OpenField>,
    bytes: Vec<u8>,
}

impl Model for OpenFields {
    ghost use Rattle.std.specs.Prelude.{List};
    ghost use Rattle.fb_tape.specs.OpenFields.{OpenField};

    ghost Value = { List OpenField };

    ghost use Rattle.fb_tape.specs.OpenList.{open_seen, IsOpenList};

    ghost view = { open_seen };

    ghost invariant = { IsOpenList };
}

impl OpenFields {
    /// No field yet.
    pub fn new(alloc: Global) -> OpenFields
        ensures none { result ≡ [] }
    {
        OpenFields {
            fields: Vec::new(alloc),
            bytes: Vec::new(alloc),
        }
    }

    /// Takes memory for a few fields.
    pub fn reserve(&mut self) -> Result<(), AllocError>
        ensures same { self.new ≡ self.old }
    {
        self.fields.reserve(FIRST_FIELDS)?;
        self.bytes.reserve(FIRST_BYTES)
    }

    /// How many fields there are.
    pub fn len(&self) -> usize
        ensures exact { result ≡ length self.now }
    {
        self.fields.len()
    }

    /// Keeps only the first fields.
    pub fn truncate(&mut self, count: usize)
        requires within { count ≤ length self.old }
        ensures first { self.new ≡ take count self.old }
    {
        if let Some(field) = self.fields.get(count) {
            self.bytes.truncate(field.first);
        }
        self.fields.truncate(count);
    }

    /// Adds a union's code in a slot.
    pub fn push_code(&mut self, slot: u16, code: u8) -> Result<(), AllocError>
        ensures adds { (L : LaidSchema) → OnOk result (AddsInlineField L slot (scalar_kind U8) (a_number (pos code))
            self.old self.new) }
        ensures kept { OnErr result (self.new ≡ self.old) }
    {
        self.push_number(slot, Base::U8, i128::from(code))
    }

    /// Adds a number in a slot.
    fn push_number(&mut self, slot: u16, base: Base, number: i128) -> Result<(), AllocError>
        requires range { InRange base number }
        ensures adds { (L : LaidSchema) → OnOk result (AddsInlineField L slot (scalar_kind base) (a_number number)
            self.old self.new) }
        ensures kept { OnErr result (self.new ≡ self.old) }
    {
        self.fields.reserve(1)?;
        let first = self.bytes.len();
        push_number(&mut self.bytes, base, number)?;
        let size = base.size();
        self.fields.push_reserved(OpenField {
            slot,
            align: size,
            note: NotedField::Inline(size),
            first,
        });
        Ok(())
    }

    /// Adds a number or a struct in a slot.
    #[inline(always)]
    pub fn push_inline(
        &mut self,
        layout: &Layout,
        slot: u16,
        kind: Kind,
        value: &Value,
    ) -> Result<(), AllocError>
        requires inline { IsInline layout.now (kind_seen layout.now kind) }
        requires fits { Fits layout.now (one_of (kind_seen layout.now kind)) (view value.now) }
        ensures adds { OnOk result (AddsInlineField layout.now slot (kind_seen layout.now kind) (view value.now)
            self.old self.new) }
        ensures kept { OnErr result (self.new ≡ self.old) }
    {
        match (value, scalar_base(layout, kind), kind) {
            (Value::Number(number), Some(base), _) => self.push_number(slot, base, *number),
            (Value::Fixed(parts), None, Kind::Struct(structure)) => {
                self.push_struct(layout, slot, structure, parts)
            }
            _ => unreachable!(),
        }
    }

    /// Adds a struct of these parts in a slot.
    pub fn push_struct(
        &mut self,
        layout: &Layout,
        slot: u16,
        structure: TypeId,
        parts: &[Value],
    ) -> Result<(), AllocError>
        requires inline { IsInline layout.now (struct_kind structure.0) }
        requires fits { Fits layout.now (one_of (struct_kind structure.0)) (a_struct (parts_view parts.now)) }
        ensures adds { OnOk result (AddsInlineField layout.now slot (struct_kind structure.0)
            (a_struct (parts_view parts.now)) self.old self.new) }
        ensures kept { OnErr result (self.new ≡ self.old) }
    {
        layout_is_well_made(layout);
        self.fields.reserve(1)?;
        let first = self.bytes.len();
        push_struct(&mut self.bytes, layout, structure, parts)?;
        let kind = Kind::Struct(structure);
        self.fields.push_reserved(OpenField {
            slot,
            align: layout.align_of(kind) as u16,
            note: NotedField::Inline(layout.size_of(kind) as u16),
            first,
        });
        Ok(())
    }

    /// Adds a reference in a slot.
    pub fn push_reference(&mut self, slot: u16) -> Result<(), AllocError>
        ensures adds { OnOk result (self.new ≡ self.old ++ (reference_field slot ∷ [])) }
        ensures kept { OnErr result (self.new ≡ self.old) }
    {
        self.fields.reserve(1)?;
        let first = self.bytes.len();
        self.fields.push_reserved(OpenField {
            slot,
            align: 4,
            note: NotedField::Reference,
            first,
        });
        Ok(())
    }

    /// The field of an index, but for its bytes.
    #[inline(always)]
    pub(crate) fn field(&self, index: usize) -> OpenField
        requires within { index < length self.now }
        ensures is { IsFieldAt self.now index result }
    {
        self.fields[index]
    }

    /// The bytes of the field of an index.
    #[inline(always)]
    pub(crate) fn bytes_of(&self, index: usize) -> &[u8]
        requires within { index < length self.now }
        ensures are { AreBytesAt self.now index result.now }
    {
        let field = self.fields[index];
        let end = field.first + own_size(field.note);
        &self.bytes[field.first..end]
    }
}
