//! Things that are kept elsewhere, found by keyed hashes of their bytes.
#![tactic(auto)]

mod digest_index;
mod hash_key;

pub use digest_index::DigestIndex;
pub use hash_key::{HashKey, KeyDigest};
