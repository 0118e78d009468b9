//! The calls that take no memory.
ghost use Rattle.std.specs.Prelude.{◌≡◌, ◌≤◌, true};
ghost use Rattle.fb_value.specs.View.{view};
ghost use Rattle.fb_value.specs.Counts.{depth, nesting, is_whole};
ghost use Rattle.fb_value.specs.Fits.{FitsRoot};

use crate::arming::{CallOutcome, Matching, arm, disarm};
use crate::commands::{is_report_noted, is_reported};
use crate::examples::Example;
use crate::meanings::limits;
use fb_conform::conform;
use fb_layout::Layout;
use fb_owned::{Plan, cells, depth, fits, plan, room, same, whole};
use fb_read::{Entries, View, verify};
use fb_schema::TypeId;
use fb_text::{Noted, write_text};
use fb_value::{Limits, Value};
use flatc_tool::{
    DecodeOptions, EncodeOptions, TapePlan, ToolFault, decode_to, encode_plan, schema_of,
};
use std::alloc::Global;

/// The last table of the vector in the first slot, the struct's number in the second, or the member.
fn are_parts_seen(view: View) -> bool {
    if let Some(items) = view.items(0) {
        return items.count() == 2
            && items
                .table(1)
                .is_some_and(|table| table.number(0) == Some(2));
    }
    if let Some((code, member)) = view.member(1) {
        return code == 2 && member.type_id() == TypeId(1) && view.other(1).is_none();
    }
    let Some(items) = view.items(1) else {
        return false;
    };
    if items.count() != 2 {
        return false;
    }
    let number = items.fixed(1).map(|part| part.number(0));
    number == Some(Some(2)) && view.text(0) == Some("hi") && view.number(2) == Some(5)
}

fn is_absent(view: View) -> bool {
    view.number(9).is_none() && view.fixed(9).is_none() && view.table(9).is_none()
}

/// Whether the bytes are verified, each accessor finds its part, and the text is written.
fn is_read(example: &Example, layout: &Layout) -> bool {
    let mut entries = Entries::new();
    let Ok(view) = verify(layout, example.bytes, limits(), false, &mut entries) else {
        return false;
    };
    let mut out = Noted::over(Matching::one(example.text));
    let is_written = write_text(&view, false, &mut out).is_ok() && !out.failed();
    let is_text = out.into_inner().is_first();
    is_written && is_text && are_parts_seen(view) && is_absent(view)
}

/// Whether the text is written by the call that verifies and prints at once.
fn is_decoded(example: &Example, layout: &Layout) -> bool {
    let mut out = Noted::over(Matching::one(example.text));
    let answer = decode_to(layout, example.bytes, &DecodeOptions::new(), &mut out);
    answer.is_ok() && !out.failed() && out.into_inner().is_first()
}

fn is_counted(layout: &Layout, value: &Value) -> bool
    requires fits { FitsRoot layout.now (view value.now) }
    requires nests { nesting (view value.now) ≤ 300 }
{
    let is_sized = cells(value).is_some()
        && depth(value).is_some()
        && room(layout, value).is_some();
    let is_whole = fits(layout, layout.schema().root(), value) && whole(value);
    is_sized && is_whole && same(value, value)
}

/// Whether the calls of a schema and of limits find what they should.
fn is_found(example: &Example, layout: &Layout) -> bool {
    let schema = layout.schema();
    let root = schema.root();
    let is_named = schema.find("T") == Some(root) && schema.find("X").is_none();
    let has_none = schema.member_by_code(root, 1).is_none()
        && schema.name_of_number(root, 1).is_none();
    let has_no_field = schema.field_by_name(root, "none").is_none();
    let is_limited = Limits::new(0, 9).is_none() && Limits::new(64, 9).is_some();
    let is_sized = layout.greatest() == example.align && schema.types().len() == example.types;
    is_named && has_none && has_no_field && is_limited && is_sized && schema.identifier().is_none()
}

/// The plans of one buffer: of its value, and of its JSON text.
#[derive(Drop)]
struct Plans<'l> {
    value: Plan<'l>,
    text: TapePlan<'l>,
}

impl Plans<'_> {
    /// Whether both lay the buffer of an example.
    fn are_of(self, example: &Example) -> bool {
        let Plans { value, text } = self;
        let (built, encoded) = (value.finish(), text.finish());
        built.as_slice() == example.bytes && encoded.as_slice() == example.bytes
    }
}

/// The plan of an example's buffer, of its JSON text.
fn encode_planned<'l>(
    alloc: Global,
    example: &Example,
    layout: &'l Layout,
) -> Result<TapePlan<'l>, ToolFault> {
    let Ok(mut json) = Vec::from_slice(alloc, example.json) else {
        return Err(ToolFault::Memory);
    };
    encode_plan(alloc, layout, &mut json, &EncodeOptions::new())
}

fn is_all_right(
    example: &Example,
    layout: &Layout,
    newer: &Layout,
    value: &Value,
    plans: Plans<'_>,
) -> bool
    requires fits { FitsRoot layout.now (view value.now) }
    requires nests { nesting (view value.now) ≤ 300 }
{
    let is_laid = plans.are_of(example);
    let conforms = conform(layout, newer).is_ok();
    let is_printed = is_read(example, layout) && is_decoded(example, layout);
    let is_seen = is_printed && is_found(example, layout);
    is_laid && conforms && is_seen && is_counted(layout, value)
}

/// What comes of the calls that take no memory.
pub(crate) fn try_memoryless(
    rt: &HostRuntime,
    example: &Example,
    layout: &Layout,
    value: &Value,
    arms: bool,
) -> CallOutcome
    requires fits { FitsRoot layout.now (view value.now) }
    requires whole { is_whole (view value.now) ≡ true }
    requires deep { depth (view value.now) ≤ 127 }
    requires nests { nesting (view value.now) ≤ 300 }
{
    let Ok(newer) = schema_of(rt.alloc(), example.newer) else {
        return CallOutcome::Wrong;
    };
    let Ok(of_value) = plan(rt.alloc(), layout, value) else {
        return CallOutcome::Wrong;
    };
    let Ok(of_text) = encode_planned(rt.alloc(), example, layout) else {
        return CallOutcome::Wrong;
    };
    let plans = Plans {
        value: of_value,
        text: of_text,
    };
    arm(rt, arms);
    let are_reports = is_reported(rt.alloc()) && is_report_noted(rt.alloc());
    let is_right = is_all_right(example, layout, &newer, value, plans) && are_reports;
    disarm(rt, arms);
    CallOutcome::of(is_right)
}
