//! JSON texts of values in memory.
ghost use Rattle.std.specs.Prelude.{◌≡◌, true, IfOk, IfErr, string_bytes};
ghost use Rattle.fb_value.specs.Counts.{is_whole};
ghost use Rattle.fb_value.specs.View.{view};
ghost use Rattle.fb_json.specs.Meant.{type_place};
ghost use Rattle.fb_text.specs.Texts.{json_text, spaced_text};
ghost use Rattle.fb_text.specs.Unnamed.{IsRefused};

use crate::shown_values::ValueEntry;
use fb_json::Place;
use fb_layout::Layout;
use fb_text::{Noted, Spacing, Style, TextFault, first_unnamed, names_are_utf8, write_shown};
use fb_value::Value;
use std::alloc::Global;

/// The indented JSON text of a value of the root table, as `spaced_text_of` gives it.
pub fn text_of(
    alloc: Global,
    layout: &Layout,
    value: &Value,
    defaults: bool,
) -> Result<String, TextFault>
    ensures text { IfOk result
        (λ s. string_bytes s ≡ json_text layout.now defaults (view value.now)) }
    ensures whole { IfOk result (λ _. is_whole (view value.now) ≡ true) }
    ensures refused { IfErr result
        (IsRefused (type_place layout.now.schema.root) (view value.now)) }
{
    spaced_text_of(alloc, layout, value, defaults, Spacing::Indented)
}

/// The JSON text of a value of the root table. `defaults` includes fields with default values.
pub fn spaced_text_of(
    alloc: Global,
    layout: &Layout,
    value: &Value,
    defaults: bool,
    spacing: Spacing,
) -> Result<String, TextFault>
    ensures text { IfOk result
        (λ s. string_bytes s ≡ spaced_text spacing layout.now defaults (view value.now)) }
    ensures whole { IfOk result (λ _. is_whole (view value.now) ≡ true) }
    ensures refused { IfErr result
        (IsRefused (type_place layout.now.schema.root) (view value.now)) }
{
    let place = Place {
        owner: layout.schema().root(),
        slot: None,
    };
    if let Some(unnamed) = first_unnamed(place, ValueEntry(Some(value))) {
        return Err(TextFault::NoMemberName(unnamed));
    }
    names_are_utf8(layout);
    let style = Style { layout, defaults };
    let mut out = Noted::over(Vec::new(alloc));
    if write_shown(ValueEntry(Some(value)), style, spacing, &mut out).is_err() {
        return Err(TextFault::Memory); // what a `Vec` refuses
    }
    match String::from_utf8(out.into_inner()) {
        Ok(text) => Ok(text),
        Err(_) => unreachable!(),
    }
}
