//! What a file looks like, where it was taken for one of another kind.
use crate::schema_tokens::Tokens;
use fb_findings::is_one_of;

/// A kind of file.
#[derive(Clone, Copy, Debug, PartialEq, Eq)]
pub enum FileKind {
    Schema,
    Json,
    Buffer,
}

// A buffer begins with a small number of four bytes, of which the last is 0; a text has no such byte.
const FRONT: usize = 8;

/// The words that a schema text begins with.
const FIRST_WORDS: &[&str] = &[
    "table",
    "struct",
    "enum",
    "union",
    "namespace",
    "attribute",
    "root_type",
    "file_identifier",
    "file_extension",
    "include",
];

/// What kind of file bytes look like by their front, where that is clear.
pub fn kind_of_file(bytes: &[u8]) -> Option<FileKind> {
    let front = bytes.get(..FRONT).unwrap_or(bytes);
    if front.contains(&0) {
        return Some(FileKind::Buffer);
    }
    let token = Tokens::of(bytes).next()?.bytes;
    match token.first()? {
        b'{' | b'[' => Some(FileKind::Json),
        _ if is_one_of(FIRST_WORDS, token) => Some(FileKind::Schema),
        _ => None,
    }
}
