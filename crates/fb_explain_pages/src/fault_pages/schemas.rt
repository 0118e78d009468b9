//! The pages on schema texts.

/// Why a schema text can't be read: 1 to 7.
pub(crate) const OF_TEXTS: &[&str] = &[
    "1 NotUtf8
The schema text isn't UTF-8.
For example: a file saved as Latin-1, in which an umlaut is one byte.
Save the file as UTF-8; a byte order mark at its start is allowed.",
    "2 BadByte
No token begins with this byte, or it may not be in a quoted text.
For example: `a:int = -.5;`, or the backslash in `attribute \"a\\b\";`.
Remove it. Quoted texts have no escapes and no control characters; numbers are whole.",
    "3 Unterminated
A comment or a quoted text has no end.
For example: `/* a table` at the end of the file.
Close it with `*/` or with a quote on the same line.",
    "4 NumberTooBig
An integer doesn't fit in 64 bits.
For example: `a:ulong = 18446744073709551616;`.
Write a number that the field's type has.",
    "5 Unexpected
A token isn't expected where it is.
For example: `table T { a:int b:int; }`, where a `;` is missing.
Compare with the grammar of the FlatBuffers documentation. `include`, `rpc_service`, fixed-size
arrays, fractions and defaults of strings and vectors aren't supported, and are refused here.",
    "6 NestedVector
A vector's elements are vectors.
For example: `a:[[int]];`.
Put the inner vector into a table: `table Row { cells:[int]; }` and `a:[Row];`.",
    "7 Memory
Memory ran out while the schema text was read.
Give the program more memory.",
];

/// Why what it declares is refused: 10 to 23.
pub(crate) const OF_DECLARATIONS: &[&str] = &[
    "10 DuplicateName
A name is declared twice in one place, or may not be taken.
For example: `table T { hp:int; hp:short; }`, or a table called `int`.
Rename one. A union field `x` takes the name `x_type` too, and no union member may be called `NONE`.",
    "11 UnknownType
No type has this name, seen from its namespace.
For example: `enemy:Mosnter;`.
Correct the name, or put the namespace before it. `include` isn't supported, so all types are in one
text.",
    "12 BadDefault
A default isn't one that its field can have.
For example: `hp:ubyte = 300;`, `color:Color = Grean;`.
Only numbers, booleans and enums in tables have a default: one of the type's numbers or an enum's
value.",
    "13 BadIds
The `id` attributes of a table aren't 0, 1, 2 and so on, one on each field.
For example: `a:int (id: 0); b:int;`.
Give each field of the table an `id`, without gap or repeat. A union's is one more than its type's,
so it takes two.",
    "14 IncompleteStruct
A struct has a field of a struct that isn't declared before it.
For example: `struct A { b:B; } struct B { x:int; }`.
Declare the inner struct first. A struct can't have itself.",
    "15 EmptyStruct
A struct has no field.
For example: `struct Nothing { }`.
Add a field, or use a table.",
    "16 BadAttribute
An attribute may not be here, is repeated, or has a wrong value.
For example: `hp:int (required);`, since a number is never missing.
See the FlatBuffers documentation on attributes. `required` is for fields that aren't numbers,
`force_align` and `bit_flags` for structs and enums.",
    "17 UnknownAttribute
An attribute is neither built in nor declared.
For example: `hp:int (priority: 1);`.
Declare it by `attribute \"priority\";`, or remove it.",
    "18 Unsupported
Something of FlatBuffers' schema language isn't supported.
For example: `speed:float;`, `name:string (key);`, a vector of unions.
Leave it out. `--explain` lists all such places of the text.",
    "19 BadEnumValue
An enum's value is outside its type, or has the number of another.
For example: `enum E:byte { A = 200 }`, `enum E:byte { A, B = 0 }`.
Give it another number, or the enum another type. With `bit_flags` a number is the bit's.",
    "20 BadMember
A type can't be a union's member or a struct's field.
For example: `union U { int }`, `struct S { name:string; }`.
A union's members are tables, 255 at most; a struct's fields are numbers, enums and structs.",
    "21 BadRoot
The root isn't a table, or the text names none.
For example: a text without `root_type`.
Add `root_type NAME;` with a table's name.",
    "22 BadIdentifier
A file identifier doesn't have four printable ASCII characters.
For example: `file_identifier \"ORC\";`.
Write four characters.",
    "23 Memory
Memory ran out while the declarations were checked.
Give the program more memory.",
];

/// Why its types have no sizes: 30 to 32.
pub(crate) const OF_SIZES: &[&str] = &[
    "30 StructTooBig
A struct takes more than 65,535 bytes.
For example: structs in structs that double at each level.
Make it a table, or take a vector.",
    "31 TableTooWide
A table's fields take more than 65,535 bytes together, or more than 32,765 slots.
For example: a table with 40,000 fields.
Put some fields into a table of their own.",
    "32 Memory
Memory ran out while sizes were worked out.
Give the program more memory.",
];
