//! Texts in brackets or quotes where a schema wants something else: they are checked, and no tree is made of them.
ghost use Rattle.std.specs.Prelude.{◌≡◌, ℕ, IfSome, Some, false};
ghost use Rattle.serde_json.specs.Data.{Data};
ghost use Rattle.serde_json.specs.View.{view as tree_view};
ghost use Rattle.fb_pieces.specs.Reads.{read_at};
ghost use Rattle.fb_encode.specs.Outlines.{IsOf, has_content, outline};

use fb_pieces::leading_blanks;
use fb_schema::{Kind, Shape};
use serde_json::{Map, Value as Json};
use std::alloc::Global;

/// What a JSON text in brackets, braces or quotes is.
#[derive(Clone, Copy)]
pub(crate) enum Container {
    Array,
    Object,
    String,
}

impl Container {
    /// Whether what is in it has a meaning where a value of this shape is wanted.
    pub(crate) fn has_content(self, shape: Shape) -> bool
        ensures { (t : Data) → IsOf self t → result ≡ false → has_content shape t ≡ false }
    {
        match self {
            Container::Array => matches!(shape, Shape::Many(_)),
            Container::Object => matches!(
                shape,
                Shape::One(Kind::Table(_))
                    | Shape::One(Kind::Struct(_))
                    | Shape::One(Kind::Union(_))
            ),
            Container::String => matches!(
                shape,
                Shape::One(Kind::Text) | Shape::One(Kind::Enum(_)) | Shape::One(Kind::Code(_))
            ),
        }
    }

    /// An array, object or string with nothing in it.
    pub(crate) fn outline(self, alloc: Global) -> Json
        ensures { (t : Data) → IsOf self t → tree_view result ≡ outline t }
    {
        match self {
            Container::Array => Json::Array(Vec::new(alloc)),
            Container::Object => Json::Object(Map::new(alloc)),
            Container::String => Json::String(String::new(alloc)),
        }
    }
}

/// The container that a text begins with, after blanks.
pub(crate) fn container_of(text: &[u8]) -> Option<Container>
    ensures { IfSome result (λ container. (levels : ℕ) (t : Data)
        → read_at levels text.now ≡ Some t → IsOf container t) }
{
    let at = leading_blanks(text);
    match text.get(at) {
        Some(b'[') => Some(Container::Array),
        Some(b'{') => Some(Container::Object),
        Some(b'"') => Some(Container::String),
        _ => None,
    }
}
