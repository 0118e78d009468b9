//! The pages on comparisons of schemas, and on files.

/// Why a new schema doesn't conform: 90 to 103.
pub(crate) const OF_COMPARISONS: &[&str] = &[
    "90 RootChanged
The root is a table of another name.
For example: `root_type Monster;`, then `root_type Orc;`.
Keep the root, and put the new one into a field.",
    "91 IdentifierChanged
The file identifier was added, removed or changed.
For example: `file_identifier \"MONS\";`, then none.
Keep it.",
    "92 TypeGone
A type of the old schema is gone.
For example: a table that was renamed.
Keep the type with its full name; it may be without use.",
    "93 KindChanged
A type was a table, struct, enum or union, and is another of these.
For example: `struct Pos`, then `table Pos`.
Add a new type under another name.",
    "94 StructChanged
A struct's fields have other types, or its alignment changed.
For example: a field added to a struct.
A struct never changes: add a new one, and a new field for it.",
    "95 SlotGone
A table has fewer slots than before.
For example: a field that was removed.
Keep it, and mark it `(deprecated)`.",
    "96 FieldTypeChanged
A field has another type.
For example: `hp:short;`, then `hp:int;`.
Mark it `(deprecated)`, and add a field of the new type at the end.",
    "97 DefaultChanged
A field has another default.
For example: `hp:short = 100;`, then `hp:short = 90;`.
Keep the default: old buffers don't store it.",
    "98 RequiredChanged
A field was required and isn't, or the other way round.
For example: `name:string (required);`, then without.
Keep the attribute.",
    "99 DeprecatedTakenBack
A field was deprecated and isn't any more.
For example: `hp:short (deprecated);`, then without.
Add a new field.",
    "100 NewRequired
A new field is required, which old buffers don't have.
For example: `name:string (required);` added.
Add it without `required`.",
    "101 EnumChanged
An enum has another type or mark, or an old value is gone or has another number.
For example: `Red, Green`, then `Green, Red`.
Add values at the end, and keep the old ones.",
    "102 UnionChanged
A union's member is gone, or its number names another table.
For example: `Weapon, Spell`, then `Spell, Weapon`.
Add members at the end, and keep the old ones.",
    "103 NameMoved
A name stands for another field or member, so that old JSON texts mean other values.
For example: `hp:int; mp:int;`, then `mp:int; hp:int;`.
Add fields and members at the end. A field may be renamed where it is.",
];

/// Why a file or a text is not read or written: 110 to 114.
pub(crate) const OF_FILES: &[&str] = &[
    "110 FileRead
A file couldn't be opened or read.
For example: a path that isn't there.
`--explain` prints the path and the system's reason.",
    "111 FileWrite
OUT couldn't be written, is one of the inputs, or exists and is named `.json` or `.fbs`.
For example: `flatc binary a.fbs a.json a.json`.
Choose another OUT. `--explain` prints the reason.",
    "112 FileTooLong
A file is longer than 2,147,483,647 bytes.
For example: a file of 3 GB.
Split the document.",
    "113 BadJson
The text isn't JSON as RFC 8259 has it, is nested deeper than 127 levels, or isn't UTF-8.
For example: a comma before a closing bracket, a comment, a name without quotes.
Correct it. `--explain` prints line and column.",
    "114 Memory
Memory ran out while a file or a JSON text was read, or names were compared.
Give the program more memory.",
];
