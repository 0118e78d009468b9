//! Names of members.
ghost use Rattle.std.specs.Prelude.{◌≡◌, ◌||◌, option_map, option_copied};
ghost use Rattle.fb_schema.specs.Seen.{field_seen};
ghost use Rattle.fb_json.specs.Meant.{is_used};

use fb_schema::FieldInfo;

/// Whether it is a field that isn't deprecated.
fn is_used(field: Option<&FieldInfo>) -> bool
    ensures { result ≡ is_used (option_map field_seen (option_copied field.entry)) }
{
    match field {
        Some(field) => !field.deprecated,
        None => false,
    }
}

/// Whether a member whose name finds this field may be there. `unknown` lets any name through.
pub(crate) fn is_allowed(unknown: bool, field: Option<&FieldInfo>) -> bool
    ensures { result ≡ (unknown || is_used (option_map field_seen (option_copied field.entry))) }
{
    unknown || is_used(field)
}
