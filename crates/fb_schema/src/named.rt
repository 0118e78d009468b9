//! What has a name in a schema.
ghost use Rattle.std.specs.Prelude.{◌≡◌, ℕ, List, string_bytes};

use crate::types::{FieldInfo, TypeInfo};

/// What has a name.
pub(crate) trait Named {
    // its bytes
    ghost name: { Self → List ℕ };

    fn name(&self) -> &str
        ensures { result.now ≡ name self.now };
}

impl Named for TypeInfo {
    ghost name = { λ t. string_bytes t.name };

    fn name(&self) -> &str {
        self.name.as_str()
    }
}

impl Named for FieldInfo {
    ghost name = { λ f. string_bytes f.name };

    fn name(&self) -> &str {
        self.name.as_str()
    }
}

/// A value of an enum, or a member of a union.
impl<T> Named for (String, T) {
    ghost name = { λ v. string_bytes v.0 };

    fn name(&self) -> &str {
        self.0.as_str()
    }
}
