//! Bytes as hexadecimal text.
use crate::faults::RowFault;
use std::alloc::{AllocError, Global};

/// The value of a digit in small letters.
fn digit_value(digit: u8) -> Option<u8> {
    match digit {
        b'0'..=b'9' => Some(digit - b'0'),
        b'a'..=b'f' => Some(digit - b'a' + 10),
        _ => None,
    }
}

/// The byte of two digits.
fn byte_of(pair: &[u8]) -> Option<u8> {
    let [high, low] = pair else {
        return None;
    };
    Some((digit_value(*high)? << 4) | digit_value(*low)?)
}

/// Adds the bytes of a word, pairs of digits.
fn push_word(bytes: &mut Vec<u8>, word: &[u8]) -> Result<(), RowFault> {
    for pair in word.chunks(2) {
        match byte_of(pair) {
            Some(byte) => bytes.push(byte)?,
            None => return Err(RowFault::Invalid("bytes")),
        }
    }
    Ok(())
}

/// The bytes of a text of pairs of digits, with blanks between some.
pub(crate) fn bytes_of(alloc: Global, hex: &str) -> Result<Vec<u8>, RowFault> {
    let mut bytes = Vec::new(alloc);
    for word in hex.split(' ') {
        push_word(&mut bytes, word.as_bytes())?;
    }
    Ok(bytes)
}

/// Writes some bytes.
pub(crate) fn write_hex(bytes: &[u8], line: &mut String) -> Result<(), AllocError> {
    for byte in bytes {
        write!(line, "{byte:02x}")?;
    }
    Ok(())
}
