//! The value that an example's JSON means.
ghost use Rattle.std.specs.Prelude.{◌≡◌, ◌≤◌, true, IfSome};
ghost use Rattle.fb_value.specs.View.{view};
ghost use Rattle.fb_value.specs.Counts.{depth, nesting, is_whole};
ghost use Rattle.fb_value.specs.Fits.{FitsRoot};

use fb_json::value_of;
use fb_layout::Layout;
use fb_value::{Limits, Value};
use serde_json::Value as Json;
use std::alloc::Global;

pub(crate) fn limits() -> Limits {
    let Some(limits) = Limits::new(64, 100_000_000) else {
        unreachable!()
    };
    limits
}

/// The value that a JSON text means.
pub(crate) fn meaning(alloc: Global, layout: &Layout, json: &[u8]) -> Option<Value>
    ensures nests { IfSome result (λ v. nesting (view v) ≤ 300) }
    ensures deep { IfSome result (λ v. depth (view v) ≤ 127) }
    ensures fits { IfSome result (λ v. FitsRoot layout.now (view v)) }
    ensures whole { IfSome result (λ v. is_whole (view v) ≡ true) }
{
    let _schema = layout.schema();
    let limits = limits();
    let _depth = limits.most_depth();
    let Ok(tree) = Json::from_slice(alloc, json) else {
        return None;
    };
    match value_of(alloc, layout, &tree, limits, false) {
        Ok(value) => Some(value),
        Err(_) => None,
    }
}
