//! A JSON number that isn't written as a whole one.
use fb_findings::Note;

// The numbers of 64 bits.
const LEAST: &str = "-9223372036854775808";

const GREATEST: &str = "18446744073709551615";

/// Adds a text, and another one.
fn push_advice(note: &mut Note, front: &str, advice: &str) {
    note.push_str(front);
    note.push_cut(advice.as_bytes());
}

/// Adds that a number has a fraction: of zeros alone, or another one.
fn push_fraction(note: &mut Note, whole: &str, fraction: &str) {
    if fraction.bytes().any(|byte| byte != b'0') {
        note.push_str(" has a fraction, and numbers are whole here");
        return;
    }
    let whole = if whole == "-0" { "0" } else { whole };
    push_advice(note, " is written with a fraction: write ", whole);
}

/// Adds why a number isn't written as a whole one.
pub(crate) fn push_not_whole(note: &mut Note, token: &str) {
    note.push_cut(token.as_bytes());
    if token.contains('e') || token.contains('E') {
        note.push_str(
            " is written with an exponent: write all its digits (jq writes large numbers so, and rounds them)",
        );
        return;
    }
    match token.split_once('.') {
        Some((whole, fraction)) => push_fraction(note, whole, fraction),
        None if token == "-0" => note.push_str(" isn't written as a whole number: write 0"),
        None if token.starts_with('-') => {
            push_advice(
                note,
                " is too small for 64 bits: the least number is ",
                LEAST,
            )
        }
        None => push_advice(
            note,
            " is too large for 64 bits: the greatest number is ",
            GREATEST,
        ),
    }
}
