//! A number at its default isn't stored.
ghost use Rattle.std.specs.Prelude.{◌≡◌, Some, false, not};
ghost use Rattle.fb_layout.specs.Laid.{LaidSchema};
ghost use Rattle.fb_value.specs.View.{view};
ghost use Rattle.fb_build.specs.Fields.{is_coded, is_stored, slot_seen};

use fb_schema::{FieldInfo, Kind, Shape};
use fb_value::Value;

/// Whether a number is the default of a scalar or enum in use that is neither optional nor required.
pub fn is_default(slot: &FieldInfo, value: &Value) -> bool
    ensures stored { (L : LaidSchema) → is_coded slot.now.shape ≡ false
        → is_stored (slot_seen L slot.now) (Some (view value.now)) ≡ not result }
{
    match value {
        Value::Number(number) => {
            *number == slot.default
                && !slot.optional
                && !slot.required
                && !slot.deprecated
                && matches!(slot.shape, Shape::One(Kind::Scalar(_) | Kind::Enum(_)))
        }
        _ => false,
    }
}
