//! The pages on buffers, written and read.

/// Why no buffer is built: 40 and 41.
pub(crate) const OF_BUILDING: &[&str] = &[
    "40 TooBig
The buffer would be longer than 2,147,483,647 bytes.
For example: a JSON text of gigabytes.
Split the document.",
    "41 Memory
Memory ran out while the buffer was built.
Give the program more memory.",
];

/// Why a buffer can't be read: 50 to 60.
pub(crate) const OF_READING: &[&str] = &[
    "50 Short
The buffer is too short for its header: 4 bytes, or 8 with a file identifier.
For example: an empty file.
Check that the file was written whole.",
    "51 TooLong
The buffer is longer than 2,147,483,647 bytes.
For example: a file of 3 GB.
FlatBuffers allow no more.",
    "52 WrongIdentifier
The file identifier isn't the schema's.
For example: a buffer of another schema.
Take the schema that it was written with. `--raw-binary` skips this check.",
    "53 Misaligned
A value isn't at a multiple of its alignment.
For example: an offset at position 6.
The buffer is damaged, or its writer doesn't align.",
    "54 OutOfBounds
A value ends past the buffer.
For example: a file that was cut off.
Check that the file was written whole.",
    "55 ZeroOffset
An offset to a table, string or vector is 0.
For example: a string in a vector that was never set.
The buffer is damaged, or its writer left the place empty.",
    "56 BadVtable
A table's vtable isn't inside the buffer, or its size is odd or below 4.
For example: any damage to a table's first four bytes.
The buffer is damaged.",
    "57 MissingRequired
A required field of a table is absent.
For example: a table that was written under an older schema.
Take the schema that it was written with; a required field may not be added later.",
    "58 NoTerminator
A string isn't followed by a zero byte.
For example: a string whose length was changed.
The buffer is damaged.",
    "59 BadUtf8
A string isn't UTF-8.
For example: a text in Latin-1.
The writer must store UTF-8; bytes belong into a vector of `ubyte`.",
    "60 UnionMismatch
A union has a type and no value.
For example: a writer that set `equipped_type` alone.
The writer must store both.",
];

/// Why a buffer is too much to read: 62 to 64.
pub(crate) const OF_LIMITS: &[&str] = &[
    "62 TooDeep
Tables are nested deeper than 64 levels.
For example: a list in which each table has the next.
The library takes a higher limit; the command doesn't.",
    "63 TooManyCells
A buffer has more than 100,000,000 tables, strings, vectors, elements and bytes of strings.
What is reached twice counts twice.
For example: a small buffer whose offsets lead to one part many times.
The library takes a higher limit; the command doesn't.",
    "64 Memory
Memory ran out while the buffer was read.
Give the program more memory.",
];
