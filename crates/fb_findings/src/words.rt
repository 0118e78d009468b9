//! Words that are looked up in tables, the bytes of words, and the last word of a name.
use bstr::ByteSlice;

/// The bytes of a word.
pub const WORD_BYTES: &[u8] = b"0123456789ABCDEFGHIJKLMNOPQRSTUVWXYZ_abcdefghijklmnopqrstuvwxyz";

/// How many bytes at a text's front are among these.
pub fn front_len(text: &[u8], bytes: &[u8]) -> usize {
    text.find_not_byteset(bytes).unwrap_or(text.len())
}

/// What a table has beside a word.
pub fn value_of<T: Copy>(table: &[(&str, T)], word: &[u8]) -> Option<T> {
    let found = table.iter().find(|(name, _)| name.as_bytes() == word);
    found.map(|(_, value)| *value)
}

/// Whether a word is one of these.
pub fn is_one_of(words: &[&str], word: &[u8]) -> bool {
    words.iter().any(|name| name.as_bytes() == word)
}

/// The part of a name after its last dot.
pub fn last_word(name: &str) -> &str {
    name.rsplit_once('.').map_or(name, |(_, word)| word)
}
