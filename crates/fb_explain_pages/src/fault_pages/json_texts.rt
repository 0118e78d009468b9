//! The pages on JSON texts, read and printed.

/// Why a JSON text is not taken or not printed: 70 to 82.
pub(crate) const OF_JSON: &[&str] = &[
    "70 WrongShape
A JSON value is of another kind than the field.
For example: `\"hp\": \"100\"` for a number.
Write a number, text, array or object as the schema says. A number is never in quotes.",
    "71 NotWhole
A number isn't written as a whole number of at most 64 bits.
For example: `\"hp\": 1.5`, `1.0`, `1e3`, `-0`, or 18446744073709551616.
All numbers are whole, and written with all their digits: `1e3` as 1000, `-0` as 0. Tools such as jq
write large numbers with an exponent.",
    "72 OutOfRange
A number isn't one of its type's.
For example: `\"hp\": 70000` for a `short`.
Write a smaller number, or take a wider type.",
    "73 UnknownName
An enum has no value, or a union no member, of this name.
For example: `\"color\": \"Grean\"`.
Write a name that the schema has; flags are separated by spaces.",
    "74 UnknownMember
No field of the table or struct has this name.
For example: `\"hitpoints\": 3`.
Correct the name. A deprecated field is no field. `--unknown-json` ignores unknown fields of tables.",
    "75 MissingMember
A field of a struct isn't there.
For example: `\"pos\": { \"x\": 1 }` for a struct with x and y.
A struct has all its fields: write each.",
    "76 MissingRequired
A required field isn't there, or is null.
For example: `{ \"hp\": 3 }` where `name` is required.
Add the field.",
    "77 UnionMismatch
A union has a value without a type, or a type without a value.
For example: `\"equipped\": { .. }` without `\"equipped_type\"`.
Write both.",
    "78 TooDeep
Tables are nested deeper than 64 levels.
For example: a list in which each table has the next.
The library takes a higher limit; the command doesn't.",
    "79 TooManyCells
The text has more than 100,000,000 tables, strings, vectors, elements and bytes of strings.
For example: a text of gigabytes.
The library takes a higher limit; the command doesn't.",
    "80 Memory
Memory ran out while the JSON text was converted.
Give the program more memory.",
    "81 NoMemberName
A union in the buffer has a type that the schema has no member for, so it has no JSON.
For example: a buffer of a newer program.
Take the newer schema. `check` accepts such a buffer.",
    "82 WriteFailed
The text couldn't be written whole; the number says how many bytes were.
For example: a full disk, a pipe whose reader ended.
Make room, and run it again.",
];

/// Why no text is printed: 84.
pub(crate) const OF_PRINTING: &[&str] = &[
    "84 Memory
Memory ran out while the text was printed.
Give the program more memory.",
];
