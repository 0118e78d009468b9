//! Integers, their lengths and their values.
ghost use Rattle.std.specs.Prelude.{◌≡◌, ◌≤◌, ◌<◌, ◌+◌, ◌*◌, ◌↔◌, length, MatchOption, IsTrue, IsSome, IfSome};
ghost use Rattle.fb_syntax.specs.Integers.{is_integer, is_prefixed, sign_len, digit_value, digits_value, IsNumberLen};
ghost use Rattle.fb_syntax.specs.Integers.{magnitude, is_negative, signed_value, number_of};
ghost use Rattle.fb_syntax.specs.Integers.{greatest_magnitude, IsInteger};

use crate::bytes::{ByteClass, is_hex, is_sign};
use crate::declarations::{Number, Text};

fn digit_value(byte: u8) -> u64
    ensures { result ≡ digit_value byte }
{
    u64::from(char::from(byte).to_digit(16).unwrap_or(0))
}

#[tactic(auto, using(crate::proofs::DigitSums::at_least))]
fn digits_value(base: u64, digits: &[u8]) -> Option<u64>
    requires { 0 < base }
    ensures { let value = digits_value base digits.now in
        MatchOption result (greatest_magnitude < value) (λ v. v ≡ value) }
{
    let mut high: u64 = 0;
    for byte in digits {
        high = high.checked_mul(base)?.checked_add(digit_value(*byte))?;
    }
    Some(high)
}

fn is_prefixed(text: &[u8]) -> bool
    ensures prefixed { result ≡ is_prefixed text.now }
    ensures long { IsTrue result → 2 ≤ length text.now }
{
    matches!(text, [b'0', b'x' | b'X', first, ..] if is_hex(*first))
}

pub(crate) fn sign_len(text: &[u8]) -> usize
    ensures len { result ≡ sign_len text.now }
    ensures within { result ≤ length text.now }
{
    usize::from(matches!(text, [first, ..] if is_sign(*first)))
}

#[tactic(auto, unfolding(crate::specs::Integers::magnitude))]
pub(crate) fn magnitude(spelling: &[u8]) -> Option<u64>
    ensures { MatchOption result (greatest_magnitude < magnitude spelling.now)
        (λ m. m ≡ magnitude spelling.now) }
{
    let digits = &spelling[sign_len(spelling)..];
    if is_prefixed(digits) {
        digits_value(16, &digits[2..])
    } else {
        digits_value(10, digits)
    }
}

// How many bytes at the front are an integer without its sign.
#[tactic(auto, using(crate::proofs::LongestTokens::decimal_len))]
pub(crate) fn number_len(text: &[u8]) -> usize
    ensures len { IsNumberLen result text.now }
    ensures within { result ≤ length text.now }
{
    if is_prefixed(text) {
        2 + ByteClass::Hex.run(&text[2..])
    } else {
        ByteClass::Digit.run(text)
    }
}

fn is_integer(spelling: &[u8]) -> bool
    ensures { result ≡ is_integer spelling.now }
{
    let digits = &spelling[sign_len(spelling)..];
    (!digits.is_empty() && ByteClass::Digit.has_all(digits))
        || (is_prefixed(digits) && ByteClass::Hex.has_all(&digits[2..]))
}

fn is_negative(spelling: &[u8]) -> bool
    ensures { result ≡ is_negative spelling.now }
{
    matches!(spelling, [b'-', ..])
}

fn signed_value(spelling: &[u8]) -> Option<i128>
    ensures found { IsSome result ↔ (magnitude spelling.now ≤ greatest_magnitude) }
    ensures value { IfSome result (λ v. v ≡ signed_value spelling.now) }
{
    let value = i128::from(magnitude(spelling)?);
    Some(if is_negative(spelling) { -value } else { value })
}

/// The number that an integer constant is.
pub(crate) fn number_of(digits: Text<'_>) -> Number
    requires { magnitude digits.bytes ≤ greatest_magnitude }
    ensures { result ≡ number_of digits.entry }
{
    Number {
        value: signed_value(digits.text.as_bytes()).unwrap(),
        at: digits.at,
    }
}

/// The value of an integer, with its sign; `None` for what is no integer or too great.
pub fn integer_value(spelling: &str) -> Option<i128>
    ensures found { IsSome result ↔ IsInteger spelling.now }
    ensures value { IfSome result (λ v. v ≡ signed_value spelling.now) }
{
    let bytes = spelling.as_bytes();
    if is_integer(bytes) {
        signed_value(bytes)
    } else {
        None
    }
}
