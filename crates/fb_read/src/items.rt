//! Vectors that lie in bytes, and their elements.
ghost use Rattle.std.specs.Prelude.{◌≡◌, ◌+◌, ◌*◌, ◌<◌, ◌≤◌, ◌^◌, length, option_copied, IfSome, IsTrue, true};
ghost use Rattle.fb_layout.specs.Laid.{stored_kind, size_of};
ghost use Rattle.fb_value.specs.Counts.{parts_whole};
ghost use Rattle.fb_value.specs.Datum.{Parts, count};
ghost use Rattle.fb_value.specs.Lies.{LiesItems};
ghost use Rattle.fb_value.specs.Nth.{nth_part};
ghost use Rattle.fb_read.specs.Views.{number_in, text_in};

use crate::entry::Entry;
use crate::fixed_view::FixedView;
use crate::kinds::{base_of, is_text, size_in, structure_of, table_of};
use crate::numbers::{number_at, u32_at};
use crate::places::text_behind;
use crate::typed_items::{NumberItems, TextItems};
use crate::view::{View, vtable_in};
use fb_layout::Layout;
use fb_schema::Kind;

/// A vector in a buffer, read in place: its elements begin at a position.
#[derive(Clone, Copy)]
pub struct Items<'a> {
    pub layout: &'a Layout,
    pub bytes: &'a [u8],
    pub kind: Kind,
    pub at: usize,
    pub len: u32,
    /// Set where it is known that each union's code in the elements is known to the schema.
    pub(crate) whole: bool,
    ghost short: { length bytes.now < 2 ^ 31 },
    ghost within: { at + len * size_of layout.now (stored_kind layout.now.schema kind) ≤ length bytes.now },
    ghost lies: { ∥ ((ds : Parts) × (count ds ≡ len) × LiesItems layout.now bytes.now
        (stored_kind layout.now.schema kind) at ds) ∥₁ },
    ghost known: { IsTrue whole → (ds : Parts) → (count ds ≡ len) × LiesItems layout.now bytes.now
        (stored_kind layout.now.schema kind) at ds → parts_whole ds ≡ true },
}

impl<'a> Items<'a> {
    ghost use Rattle.fb_read.specs.Weights.{ShowsEntry, weight_of, items_weight};
    ghost use Rattle.fb_read.specs.Shows.{item_at, ShowsItems, ShowsStruct, ShowsTable};
    ghost use Rattle.fb_read.specs.TypedItems.{ShowsNumbers, ShowsTexts};

    /// The layout.
    pub fn layout(self) -> &'a Layout
        ensures { result.now ≡ self.entry.layout.now }
    {
        self.layout
    }

    /// How many elements there are.
    pub fn count(self) -> u32
        ensures { result ≡ self.entry.len }
    {
        self.len
    }

    pub(crate) fn position(self, i: u32) -> usize
        requires { i < self.len }
        ensures { result ≡ item_at self.entry i }
    {
        self.at + i as usize * size_in(self.layout, self.kind) as usize
    }

    /// The number that an element is.
    pub fn number(self, i: u32) -> Option<i128>
        requires { i < self.len }
        ensures { (ds : Parts) → ShowsItems self.entry ds → result ≡ number_in (nth_part ds i) }
    {
        let base = base_of(self.layout, self.kind)?;
        Some(number_at(self.bytes, self.position(i), base))
    }

    /// The elements, where they are numbers.
    pub fn numbers(self) -> Option<NumberItems<'a>>
        ensures { (ds : Parts) → ShowsItems self.entry ds → ShowsNumbers result ds }
    {
        let base = base_of(self.layout, self.kind)?;
        Some(NumberItems {
            bytes: self.bytes,
            base,
            at: self.at,
            len: self.len,
        })
    }

    /// The elements, where they are strings.
    pub fn texts(self) -> Option<TextItems<'a>>
        ensures { (ds : Parts) → ShowsItems self.entry ds → ShowsTexts result ds }
    {
        if !is_text(self.kind) {
            return None;
        }
        Some(TextItems {
            bytes: self.bytes,
            at: self.at,
            len: self.len,
        })
    }

    /// The string that an element is, borrowed from the buffer.
    pub fn text(self, i: u32) -> Option<&'a str>
        requires { i < self.len }
        ensures { (ds : Parts) → ShowsItems self.entry ds → option_copied result ≡ text_in (nth_part ds i) }
    {
        if !is_text(self.kind) {
            return None;
        }
        Some(text_behind(self.bytes, self.position(i)))
    }

    /// The struct that an element is.
    pub fn fixed(self, i: u32) -> Option<FixedView<'a>>
        requires { i < self.len }
        ensures shows { (ds : Parts) → ShowsItems self.entry ds → ShowsStruct result (nth_part ds i) }
        ensures layout { IfSome result (λ view. view.layout.now ≡ self.entry.layout.now) }
    {
        let structure = structure_of(self.kind)?;
        Some(FixedView {
            layout: self.layout,
            bytes: self.bytes,
            structure,
            at: self.position(i),
        })
    }

    /// The table that an element is.
    pub fn table(self, i: u32) -> Option<View<'a>>
        requires { i < self.len }
        ensures shows { (ds : Parts) → ShowsItems self.entry ds → ShowsTable result (nth_part ds i) }
        ensures layout { IfSome result (λ view. view.layout.now ≡ self.entry.layout.now) }
    {
        let table = table_of(self.kind)?;
        let place = self.position(i);
        let at = place + u32_at(self.bytes, place) as usize;
        Some(View {
            layout: self.layout,
            bytes: self.bytes,
            table,
            at,
            vtable_at: vtable_in(self.layout, self.bytes, table, at),
            whole: self.whole,
        })
    }

    /// An element.
    pub fn item(self, i: u32) -> Entry<'a>
        requires { i < self.len }
        ensures shows { (ds : Parts) → ShowsItems self.entry ds
            → ShowsEntry self.entry.layout.now result (nth_part ds i) }
        ensures lighter { weight_of result < items_weight self.entry }
    {
        let layout = self.layout;
        let bytes = self.bytes;
        let at = self.position(i);
        match self.kind {
            Kind::Scalar(base) => Entry::Number(number_at(bytes, at, base)),
            Kind::Enum(values) => Entry::Number(number_at(bytes, at, layout.base_of(values))),
            Kind::Text => Entry::Text(text_behind(bytes, at)),
            Kind::Struct(structure) => Entry::Fixed(FixedView {
                layout,
                bytes,
                structure,
                at,
            }),
            Kind::Table(table) => {
                let target = at + u32_at(bytes, at) as usize;
                Entry::Table(View {
                    layout,
                    bytes,
                    table,
                    at: target,
                    vtable_at: vtable_in(layout, bytes, table, target),
                    whole: self.whole,
                })
            }
            Kind::Union(_) | Kind::Code(_) => Entry::Absent,
        }
    }
}
