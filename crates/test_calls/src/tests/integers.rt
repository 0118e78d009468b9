//! Integers by their spellings.
use fb_syntax::integer_value;

const INTEGERS: &[(&str, Option<i128>)] = &[
    ("0", Some(0)),
    ("-0", Some(0)),
    ("+0", Some(0)),
    ("007", Some(7)),
    ("-7", Some(-7)),
    ("+12", Some(12)),
    ("0x1F", Some(31)),
    ("0X1f", Some(31)),
    ("-0xaB", Some(-171)),
    ("+0x0", Some(0)),
    ("18446744073709551615", Some(18446744073709551615)),
    ("-18446744073709551615", Some(-18446744073709551615)),
    ("0xffffffffffffffff", Some(18446744073709551615)),
    (
        "00000000000000000000018446744073709551615",
        Some(18446744073709551615),
    ),
    ("", None),
    ("+", None),
    ("-", None),
    ("--1", None),
    ("+-1", None),
    ("a", None),
    ("1a", None),
    ("1 ", None),
    ("0x", None),
    ("0xg", None),
    ("00x1", None),
    ("18446744073709551616", None),
    ("-18446744073709551616", None),
    ("0x10000000000000000", None),
];

#[test]
fn values_of_integers(rt: HostRuntime) {
    for (spelling, value) in INTEGERS {
        assert!(rt; integer_value(spelling) == *value, "of {spelling}");
    }
}
