//! What a file looks like that isn't a buffer at all.
use fb_explain_schemas::{FileKind, kind_of_file};

/// The bytes that files of other kinds begin with, and what to say of each.
const SIGNATURES: &[(&[u8], &str)] = &[
    (
        b"\x1f\x8b\x08",
        "this looks like a gzip file: decompress it first, as with gzip -d",
    ),
    (
        b"\x28\xb5\x2f\xfd",
        "this looks like a zstd file: decompress it first, as with zstd -d",
    ),
    (
        b"\x89PNG\r\n\x1a\n",
        "this looks like a PNG image, and not like a buffer",
    ),
    (
        b"\x7fELF",
        "this looks like a program or a library (ELF), and not like a buffer",
    ),
];

// The shortest buffer takes more of them. Few words are so long.
const LEAST_DIGITS: usize = 16;

/// Whether a text may be bytes in hexadecimal.
fn is_hexadecimal(front: &[u8]) -> bool {
    for byte in front {
        if !byte.is_ascii_hexdigit() && *byte != b' ' {
            return false;
        }
    }
    true
}

/// Whether a text may be bytes in base64.
fn is_base64(front: &[u8]) -> bool {
    for byte in front {
        if !byte.is_ascii_alphanumeric() && !matches!(byte, b'+' | b'/' | b'=') {
            return false;
        }
    }
    true
}

/// The sentence on a file's kind by the bytes that it begins with.
fn by_signature(bytes: &[u8]) -> Option<&'static str> {
    for (signature, sentence) in SIGNATURES {
        if bytes.starts_with(signature) {
            return Some(*sentence);
        }
    }
    None
}

/// The sentence on a text that may be an encoding of a buffer.
fn by_digits(bytes: &[u8]) -> Option<&'static str> {
    let front = bytes.get(..LEAST_DIGITS)?;
    if is_hexadecimal(front) {
        Some("this looks like hexadecimal digits: decode them first, as with xxd -r -p")
    } else if is_base64(front) {
        Some("this looks like base64: decode it first, as with base64 -d")
    } else {
        None
    }
}

/// What a file is that isn't a buffer at all.
pub(crate) fn another_kind(bytes: &[u8]) -> Option<&'static str> {
    match kind_of_file(bytes) {
        Some(FileKind::Json) => Some("this looks like JSON: 'flatc binary' makes a buffer of it"),
        Some(FileKind::Schema) => Some("this looks like a schema: SCHEMA comes first, then BIN"),
        Some(FileKind::Buffer) | None => match by_signature(bytes) {
            Some(sentence) => Some(sentence),
            None => by_digits(bytes),
        },
    }
}
