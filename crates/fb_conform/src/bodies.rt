//! What a type is.
ghost use Rattle.std.specs.Prelude.{◌≡◌, ◌<◌, length};
ghost use Rattle.fb_schema.specs.Schema.{body_at};
ghost use Rattle.fb_schema.specs.Seen.{body_seen};
ghost use Rattle.fb_schema.specs.WellDeclared.{IsBody};

use fb_layout::Layout;
use fb_schema::{Body, TypeId};

/// The body of a type.
pub(crate) fn body_of(layout: &Layout, type_id: TypeId) -> &Body
    requires { type_id.0 < length layout.now.schema.types }
    ensures body { body_seen result.now ≡ body_at layout.now.schema type_id.0 }
    ensures declared { IsBody layout.now.schema type_id.0 (body_seen result.now) }
{
    &layout.schema().types()[type_id.0 as usize].body
}
