//! Keys for the hash of names.
ghost use Rattle.std.specs.Prelude.{◌≡◌};
ghost use Rattle.fb_index.specs.HashKeys.{key_of, key_by, key_inside, written, digest_by, nothing_written};

use std::hash::{BuildHasher, DefaultHasher, FoldHasher, Hasher};

/// The key of a hash, and a builder of hashers that begin with it.
///
/// It is made of the bytes that hold what is hashed, so it is the same in each run. Names that have one
/// hash under it can be looked for, but they are part of the bytes, and to add them is to change the key.
#[derive(Clone, Copy, Drop)]
pub struct HashKey {
    initial: FoldHasher,
}

impl HashKey {
    /// The key of a text.
    pub fn of(text: &[u8]) -> HashKey
        ensures { result ≡ key_of text.now }
    {
        let mut digest = KeyDigest::new();
        digest.write(text);
        digest.key()
    }

    /// The key of what is inside something that has a number: equal names inside two things have two hashes.
    pub fn inside(self, number: u64) -> HashKey
        ensures { result ≡ key_inside self number }
    {
        let mut initial = self.initial;
        initial.write_u64(number);
        HashKey { initial }
    }

    /// The hash of some bytes under the key.
    pub fn digest(self, bytes: &[u8]) -> u64
        ensures { result ≡ digest_by self bytes.now }
    {
        let mut hasher = self.initial;
        hasher.write(bytes);
        hasher.finish()
    }
}

impl BuildHasher for HashKey {
    type Hasher = FoldHasher;

    ghost build_hasher = { λ k. k.initial };

    fn build_hasher(&self) -> FoldHasher {
        self.initial
    }
}

/// Digests what a key is made of, piece by piece, by SipHash.
#[derive(Clone, Copy, Drop)]
pub struct KeyDigest {
    hasher: DefaultHasher,
}

impl KeyDigest {
    /// Nothing is digested.
    pub fn new() -> KeyDigest
        ensures { result ≡ nothing_written }
    {
        KeyDigest {
            hasher: DefaultHasher::new(),
        }
    }

    /// Digests one more piece.
    pub fn write(&mut self, piece: &[u8])
        ensures { self.new ≡ written self.old piece.now }
    {
        self.hasher.write(piece);
    }

    /// The key of what was digested.
    pub fn key(&self) -> HashKey
        ensures { result ≡ key_by self.now }
    {
        let mut initial = FoldHasher::default();
        initial.write_u64(self.hasher.finish());
        HashKey { initial }
    }
}
