//! Structs that lie in bytes, and their fields.
ghost use Rattle.std.specs.Prelude.{◌≡◌, ◌+◌, ◌<◌, ◌≤◌, ◌^◌, length, IfSome};
ghost use Rattle.fb_layout.specs.Laid.{struct_at};
ghost use Rattle.fb_value.specs.Datum.{Parts};
ghost use Rattle.fb_value.specs.Nth.{nth_part};
ghost use Rattle.fb_read.specs.Views.{number_in};

use crate::entry::Entry;
use crate::kinds::{base_of, structure_of};
use crate::numbers::number_at;
use fb_layout::{Layout, kind_in, layout_is_well_made};
use fb_schema::TypeId;

/// A struct in a buffer, read in place.
#[derive(Clone, Copy)]
pub struct FixedView<'a> {
    pub layout: &'a Layout,
    pub bytes: &'a [u8],
    pub structure: TypeId,
    pub at: usize,
    ghost short: { length bytes.now < 2 ^ 31 },
    ghost within: { at + (struct_at layout.now structure.0).size ≤ length bytes.now },
}

impl<'a> FixedView<'a> {
    ghost use Rattle.fb_read.specs.Weights.{ShowsEntry, weight_of, struct_weight};
    ghost use Rattle.fb_read.specs.Shows.{ShowsFields, ShowsStruct};

    /// The layout.
    pub fn layout(self) -> &'a Layout
        ensures { result.now ≡ self.entry.layout.now }
    {
        self.layout
    }

    /// The struct's type.
    pub fn type_id(self) -> TypeId
        ensures { result ≡ self.entry.structure }
    {
        self.structure
    }

    /// The number in a field.
    pub fn number(self, field: u16) -> Option<i128>
        ensures { (ds : Parts) → ShowsFields self.entry ds → result ≡ number_in (nth_part ds field) }
    {
        layout_is_well_made(self.layout);
        let fields = self.layout.parts_of(self.structure);
        let index = usize::from(field);
        if index >= fields.len() {
            return None;
        }
        let kind = kind_in(fields[index].shape);
        let at = self.at + self.layout.offset_of(self.structure, field) as usize;
        let base = base_of(self.layout, kind)?;
        Some(number_at(self.bytes, at, base))
    }

    /// The struct in a field.
    pub fn fixed(self, field: u16) -> Option<FixedView<'a>>
        ensures shows { (ds : Parts) → ShowsFields self.entry ds → ShowsStruct result (nth_part ds field) }
        ensures layout { IfSome result (λ view. view.layout.now ≡ self.entry.layout.now) }
    {
        layout_is_well_made(self.layout);
        let fields = self.layout.parts_of(self.structure);
        let index = usize::from(field);
        if index >= fields.len() {
            return None;
        }
        let kind = kind_in(fields[index].shape);
        let at = self.at + self.layout.offset_of(self.structure, field) as usize;
        let structure = structure_of(kind)?;
        Some(FixedView {
            layout: self.layout,
            bytes: self.bytes,
            structure,
            at,
        })
    }

    /// What a field has; nothing where there is no such field.
    pub fn part(self, field: u16) -> Entry<'a>
        ensures shows { (ds : Parts) → ShowsFields self.entry ds
            → ShowsEntry self.entry.layout.now result (nth_part ds field) }
        ensures lighter { weight_of result < struct_weight self.entry }
    {
        layout_is_well_made(self.layout);
        let fields = self.layout.parts_of(self.structure);
        let index = usize::from(field);
        if index >= fields.len() {
            return Entry::Absent;
        }
        let kind = kind_in(fields[index].shape);
        let at = self.at + self.layout.offset_of(self.structure, field) as usize;
        if let Some(base) = base_of(self.layout, kind) {
            return Entry::Number(number_at(self.bytes, at, base));
        }
        match structure_of(kind) {
            Some(structure) => Entry::Fixed(FixedView {
                layout: self.layout,
                bytes: self.bytes,
                structure,
                at,
            }),
            None => Entry::Absent,
        }
    }
}
