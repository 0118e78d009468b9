//! Texts that are JSON, checked without a tree.
ghost use Rattle.std.specs.Prelude.{◌≡◌, ◌==◌, ◌≤◌, ◌<◌, ◌^◌, ◌↔◌, ℕ, IfOk, IsTrue, MatchResult, None, Some, false};
ghost use Rattle.std.specs.Prelude.{is_some, length, slice_index, true};
ghost use Rattle.fast_float.specs.Text.{minus};
ghost use Rattle.serde_json.specs.Read.{number_from, number_of};
ghost use Rattle.fb_pieces.specs.JsonTexts.{BeginsNoArray, IsArrayOf, IsArrayPassed, IsRead, are_in_range};
ghost use Rattle.fb_pieces.specs.JsonTexts.{elements_passed};

use fast_float::Numeral;
use json::{Invalid, Reader, Scratch, Token};
use std::alloc::AllocError;

/// The brackets that may be open at once in a JSON text that `serde_json` reads.
pub const MOST_BRACKETS: u8 = 127;

/// Whether `serde_json` reads a number without its sign: an integer of 64 bits, or one whose nearest `f64` is finite.
fn is_unsigned_in_range(number: &Numeral<'_>) -> bool
    ensures { result ≡ is_some (number_from false number.now) }
{
    number.to_u64().is_some() || number.to_float::<f64>(false).is_finite()
}

/// The same of a number after its minus sign.
fn is_negative_in_range(number: &Numeral<'_>) -> bool
    ensures { result ≡ is_some (number_from true number.now) }
{
    number.to_i64(true).is_some_and(|integer| integer < 0)
        || number.to_float::<f64>(true).is_finite()
}

fn is_negative(number: &[u8]) -> bool
    ensures { result ≡ (slice_index number.now 0 == minus) }
{
    number.first() == Some(&b'-')
}

/// Whether `serde_json` reads a number that the grammar of JSON accepts.
fn is_number_in_range(number: &str) -> bool
    ensures { result ≡ is_some (number_of number.now) }
{
    let bytes = number.as_bytes();
    if is_negative(bytes) {
        is_negative_in_range(&Numeral::scan(&bytes[1..]))
    } else {
        is_unsigned_in_range(&Numeral::scan(bytes))
    }
}

/// Whether `serde_json` reads all numbers that a reader comes to.
fn are_numbers_in_range(mut reader: Reader<'_>) -> bool
    ensures { result ≡ are_in_range reader.entry }
{
    while let Some(token) = reader.next() {
        if let Token::Number(number) = token {
            if !is_number_in_range(number) {
                return false;
            }
        }
    }
    true
}

/// Whether `serde_json` reads a text in which `levels` arrays and objects may be open at once. No tree is made.
///
/// The only error is a refused allocation: `scratch` grows to the text's length.
pub fn is_json_at(text: &[u8], levels: u8, scratch: &mut Scratch) -> Result<bool, AllocError>
    ensures { IfOk result (λ is_json. IsTrue is_json ↔ IsRead levels text.entry.now) }
{
    let Ok(text) = simdutf8::basic::from_utf8(text) else {
        return Ok(false);
    };
    let mut reader = Reader::new(text, &mut *scratch)?;
    if reader.skip_value(levels as usize).is_err() || reader.next().is_some() {
        return Ok(false);
    }
    Ok(are_numbers_in_range(Reader::new(text, scratch)?))
}

/// Passes the elements of an array and the bracket that closes it, and returns how many they are.
fn skip_elements(reader: &mut Reader<'_>, levels: usize) -> Result<usize, Invalid>
    requires few { length reader.old < 2 ^ 64 }
    ensures { MatchResult result (λ n. elements_passed levels reader.old ≡ Some (n, reader.new))
        (λ _. elements_passed levels reader.old ≡ None) }
{
    let mut count = 0;
    while !reader.take_end_array() {
        reader.skip_value(levels)?;
        count += 1;
    }
    Ok(count)
}

/// Passes an array, and returns how many elements it has. An error where no array is next.
fn skip_array(reader: &mut Reader<'_>, levels: u8) -> Result<usize, Invalid>
    requires few { length reader.old ≤ 2 ^ 64 }
    ensures { MatchResult result (IsArrayPassed levels reader.old reader.new)
        (λ _. BeginsNoArray levels reader.old) }
{
    let inner = levels.checked_sub(1).ok_or(Invalid)?;
    let Some(Token::BeginArray) = reader.next() else {
        return Err(Invalid);
    };
    skip_elements(reader, inner as usize)
}

/// Counts the elements of a text that `serde_json` reads as an array, in which `levels` arrays and objects may be open
/// at once. `None` for any other text. No tree is made.
///
/// The only error is a refused allocation: `scratch` grows to the text's length.
pub fn count_elements(
    text: &[u8],
    levels: u8,
    scratch: &mut Scratch,
) -> Result<Option<usize>, AllocError>
    ensures { IfOk result (λ counted. (n : ℕ) → (counted ≡ Some n) ↔ IsArrayOf levels text.entry.now n) }
{
    let Ok(text) = simdutf8::basic::from_utf8(text) else {
        return Ok(None);
    };
    let mut reader = Reader::new(text, &mut *scratch)?;
    let Ok(count) = skip_array(&mut reader, levels) else {
        return Ok(None);
    };
    if reader.next().is_some() || !are_numbers_in_range(Reader::new(text, scratch)?) {
        return Ok(None);
    }
    Ok(Some(count))
}
