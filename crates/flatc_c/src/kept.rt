//! What the pointer of a handle leads to.
ghost use Rattle.std.specs.Prelude.{◌≡◌, option_map, Some};
ghost use Rattle.std_alloc.specs.Arc.{arc_value};
ghost use Rattle.flatc_c.specs.Handles.{layout_of};

use fb_layout::Layout;
use std::sync::Arc;

/// A layout, which several handles may share, or the bytes that a call made.
#[derive(Drop)]
pub enum Kept {
    Schema(Arc<Layout>),
    Bytes(Vec<u8>),
}

impl Kept {
    /// The layout, if it is one.
    pub(crate) fn layout(&self) -> Option<&Arc<Layout>>
        ensures { option_map (λ layout. arc_value layout.now) result ≡ layout_of (Some self.now) }
    {
        match self {
            Kept::Schema(layout) => Some(layout),
            Kept::Bytes(_) => None,
        }
    }
}
