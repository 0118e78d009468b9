//! Where a buffer begins.
ghost use Rattle.std.specs.Prelude.{◌≡◌, ◌≤◌};
ghost use Rattle.fb_value.specs.Holds.{front_of};

/// How many bytes come before a buffer: those of the size prefix where it is `prefixed`, else none.
#[inline(always)]
pub fn front_of(prefixed: bool) -> usize
    ensures exact { result ≡ front_of prefixed }
    ensures low { result ≤ 4 }
{
    if prefixed { 4 } else { 0 }
}
