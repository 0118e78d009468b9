//! The calls on values.
ghost use Rattle.std.specs.Prelude.{◌≡◌, ◌≤◌, true};
ghost use Rattle.fb_value.specs.View.{view};
ghost use Rattle.fb_value.specs.Counts.{depth, nesting, is_whole};
ghost use Rattle.fb_value.specs.Fits.{FitsRoot};
ghost use Rattle.fb_conform.specs.Conforms.{Conforms};

use crate::arming::{CallOutcome, arm, disarm};
use crate::examples::Example;
use crate::meanings::meaning;
use crate::memoryless::try_memoryless;
use fb_conform::conform;
use fb_layout::Layout;
use fb_owned::{build, carry, copy, plan, text_of};
use fb_value::Value;
use flatc_tool::schema_of;

pub(crate) fn is_printed_as(rt: &HostRuntime, layout: &Layout, value: &Value, text: &str) -> bool {
    match text_of(rt.alloc(), layout, value, false) {
        Ok(printed) => printed.as_str() == text,
        Err(_) => false,
    }
}

fn try_copy(rt: &HostRuntime, value: &Value, arms: bool) -> CallOutcome
    requires { nesting (view value.now) ≤ 300 }
{
    arm(rt, arms);
    let answer = copy(rt.alloc(), value);
    disarm(rt, arms);
    match answer {
        Ok(copied) => CallOutcome::of(copied == *value),
        Err(_) => CallOutcome::Short(0),
    }
}

/// `finish` lays the bytes while nothing may grow.
fn try_plan(
    rt: &HostRuntime,
    example: &Example,
    layout: &Layout,
    value: &Value,
    arms: bool,
) -> CallOutcome
    requires fits { FitsRoot layout.now (view value.now) }
    requires whole { is_whole (view value.now) ≡ true }
    requires deep { depth (view value.now) ≤ 127 }
{
    arm(rt, arms);
    let answer = match plan(rt.alloc(), layout, value) {
        Ok(planned) => Ok(planned.finish()),
        Err(fault) => Err(fault),
    };
    disarm(rt, arms);
    match answer {
        Ok(bytes) => CallOutcome::of(bytes.as_slice() == example.bytes),
        Err(fault) => CallOutcome::of_refusal(fault.number()),
    }
}

fn try_build(
    rt: &HostRuntime,
    example: &Example,
    layout: &Layout,
    value: &Value,
    arms: bool,
) -> CallOutcome
    requires fits { FitsRoot layout.now (view value.now) }
    requires whole { is_whole (view value.now) ≡ true }
    requires deep { depth (view value.now) ≤ 127 }
{
    arm(rt, arms);
    let answer = build(rt.alloc(), layout, value);
    disarm(rt, arms);
    match answer {
        Ok(bytes) => CallOutcome::of(bytes.as_slice() == example.bytes),
        Err(fault) => CallOutcome::of_refusal(fault.number()),
    }
}

fn try_text_of(
    rt: &HostRuntime,
    example: &Example,
    layout: &Layout,
    value: &Value,
    arms: bool,
) -> CallOutcome {
    arm(rt, arms);
    let answer = text_of(rt.alloc(), layout, value, false);
    disarm(rt, arms);
    match answer {
        Ok(text) => CallOutcome::of(text.as_str() == example.text),
        Err(fault) => CallOutcome::of_refusal(fault.number()),
    }
}

/// Whether a value that was carried prints as an example's does under the newer schema.
fn is_carried(rt: &HostRuntime, example: &Example, newer: &Layout, carried: &Value) -> bool {
    match text_of(rt.alloc(), newer, carried, true) {
        Ok(text) => text.as_str() == example.carried,
        Err(_) => false,
    }
}

fn try_carry_to(
    rt: &HostRuntime,
    example: &Example,
    layout: &Layout,
    newer: &Layout,
    value: &Value,
    arms: bool,
) -> CallOutcome
    requires conforms { Conforms layout.now newer.now }
    requires fits { FitsRoot layout.now (view value.now) }
    requires nests { nesting (view value.now) ≤ 300 }
{
    arm(rt, arms);
    let answer = carry(rt.alloc(), layout, newer, value);
    disarm(rt, arms);
    match answer {
        Ok(carried) => CallOutcome::of(is_carried(rt, example, newer, &carried)),
        Err(_) => CallOutcome::Short(0),
    }
}

fn try_carry(
    rt: &HostRuntime,
    example: &Example,
    layout: &Layout,
    value: &Value,
    arms: bool,
) -> CallOutcome
    requires fits { FitsRoot layout.now (view value.now) }
    requires nests { nesting (view value.now) ≤ 300 }
{
    let Ok(newer) = schema_of(rt.alloc(), example.newer) else {
        return CallOutcome::Wrong;
    };
    match conform(layout, &newer) {
        Ok(()) => try_carry_to(rt, example, layout, &newer, value, arms),
        Err(_) => CallOutcome::Wrong,
    }
}

/// What comes of a call on the value that an example's JSON means; None where it is none of these.
pub(crate) fn try_value_call(
    rt: &HostRuntime,
    call: &str,
    example: &Example,
    layout: &Layout,
    arms: bool,
) -> Option<CallOutcome> {
    let Some(value) = meaning(rt.alloc(), layout, example.json) else {
        return Some(CallOutcome::Wrong);
    };
    match call {
        "copy" => Some(try_copy(rt, &value, arms)),
        "plan" => Some(try_plan(rt, example, layout, &value, arms)),
        "build" => Some(try_build(rt, example, layout, &value, arms)),
        "text_of" => Some(try_text_of(rt, example, layout, &value, arms)),
        "carry" => Some(try_carry(rt, example, layout, &value, arms)),
        "memoryless" => Some(try_memoryless(rt, example, layout, &value, arms)),
        _ => None,
    }
}
