//! Tokens that name basic types.
use fb_resolve::base_named;
use std::str;

/// Whether a token names a basic type whose values are numbers or `bool`s.
pub(crate) fn is_base(token: &[u8]) -> bool {
    str::from_utf8(token).is_ok_and(|name| base_named(name).is_some())
}
