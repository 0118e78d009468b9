//! What is told of faults: their lines, their sentences, and explanations where the command can't be brought to one, or
//! only by gigabytes. tests/explain_rows.py and tests/pairs.txt have the lines of the others.
use super::usual_limits;
use fb_explain::{COLUMNS, Source, Sources, explain};
use flatc_tool::command::fault_line;
use flatc_tool::{
    Breach, BuildFault, JsonFault, LayoutFault, MovedName, Place, ReadFault, SchemaFault,
    SchemaTextFault, SyntaxFault, TextFault, ToolFault, TypeId, WriteFault,
};
use std::alloc::{AllocError, Global};
use std::test::Fail;

const SLOT: Place = Place {
    owner: TypeId(3),
    slot: Some(1),
};

const OWNER: Place = Place {
    owner: TypeId(3),
    slot: None,
};

const SYNTAX: SchemaTextFault = SchemaTextFault::Syntax(SyntaxFault::Unterminated(4));

const MOVED: MovedName = MovedName {
    type_id: TypeId(3),
    slot: 2,
};

/// Faults, their lines and their sentences.
const FAULTS: &[(ToolFault, &str, &str)] = &[
    (
        ToolFault::Schema(SYNTAX),
        "3 Unterminated at 4",
        "the comment or quoted text from 4 on has no end",
    ),
    (
        ToolFault::Schema(SchemaTextFault::Syntax(SyntaxFault::Memory)),
        "7 Memory",
        "out of memory",
    ),
    (
        ToolFault::Schema(SchemaTextFault::Schema(SchemaFault::UnknownType(17))),
        "11 UnknownType at 17",
        "the type at 17 isn't found",
    ),
    (
        ToolFault::Schema(SchemaTextFault::Schema(SchemaFault::Memory)),
        "23 Memory",
        "out of memory",
    ),
    (
        ToolFault::Schema(SchemaTextFault::Layout(LayoutFault::StructTooBig(TypeId(12)))),
        "30 StructTooBig in type 12",
        "the struct, type 12, takes more than 65535 bytes",
    ),
    (
        ToolFault::Schema(SchemaTextFault::Layout(LayoutFault::Memory)),
        "32 Memory",
        "out of memory",
    ),
    (
        ToolFault::Older(SYNTAX),
        "old: 3 Unterminated at 4",
        "old: the comment or quoted text from 4 on has no end",
    ),
    (
        ToolFault::Newer(SYNTAX),
        "new: 3 Unterminated at 4",
        "new: the comment or quoted text from 4 on has no end",
    ),
    (
        ToolFault::Build(BuildFault::TooBig),
        "40 TooBig",
        "the buffer may take more than 2147483647 bytes",
    ),
    (
        ToolFault::Build(BuildFault::Memory),
        "41 Memory",
        "out of memory",
    ),
    (
        ToolFault::Read(ReadFault::TooLong(2_147_483_647)),
        "51 TooLong at 2147483647",
        "the buffer is longer than 2147483647 bytes",
    ),
    (
        ToolFault::Read(ReadFault::OutOfBounds(16)),
        "54 OutOfBounds at 16",
        "what is at 16 ends past the buffer",
    ),
    (
        ToolFault::Read(ReadFault::MissingRequired(8, 2)),
        "57 MissingRequired at 8 slot 2",
        "the required slot 2 is missing at 8",
    ),
    (
        ToolFault::Read(ReadFault::Memory),
        "64 Memory",
        "out of memory",
    ),
    (
        ToolFault::Json(JsonFault::NotWhole(SLOT)),
        "71 NotWhole in type 3 slot 1",
        "the number is not whole, in type 3 slot 1",
    ),
    (
        ToolFault::Json(JsonFault::UnknownMember(OWNER)),
        "74 UnknownMember in type 3",
        "a member has a name that no field has, in type 3",
    ),
    (
        ToolFault::Json(JsonFault::Memory),
        "80 Memory",
        "out of memory",
    ),
    (
        ToolFault::Text(TextFault::NoMemberName(SLOT)),
        "81 NoMemberName in type 3 slot 1",
        "a union's member has no name in the schema, in type 3 slot 1",
    ),
    (
        ToolFault::Write(WriteFault::NoMemberName(SLOT)),
        "81 NoMemberName in type 3 slot 1",
        "a union's member has no name in the schema, in type 3 slot 1",
    ),
    (
        ToolFault::Write(WriteFault::WriteFailed(65_536)),
        "82 WriteFailed after 65536",
        "a write failed after 65536 bytes",
    ),
    (
        ToolFault::Text(TextFault::Memory),
        "84 Memory",
        "out of memory",
    ),
    (
        ToolFault::Breach(Breach::TypeGone(TypeId(3))),
        "92 TypeGone in type 3",
        "type 3 is gone",
    ),
    (
        ToolFault::Breach(Breach::SlotGone(TypeId(3), 2)),
        "95 SlotGone in type 3 slot 2",
        "slot 2 of type 3 is gone",
    ),
    (
        ToolFault::NameMoved(MOVED),
        "103 NameMoved in type 3 slot 2",
        "the name of slot 2 of type 3 now belongs to another slot",
    ),
    (ToolFault::FileRead, "110 FileRead", "a file can't be read"),
    (ToolFault::Memory, "114 Memory", "out of memory"),
];

/// Faults, as `Debug` shows them.
const SHOWN: &[(ToolFault, &str)] = &[
    (ToolFault::Schema(SYNTAX), "Schema(Syntax(Unterminated(4)))"),
    (
        ToolFault::Older(SchemaTextFault::Syntax(SyntaxFault::Memory)),
        "Older(Syntax(Memory))",
    ),
    (
        ToolFault::Schema(SchemaTextFault::Schema(SchemaFault::UnknownType(17))),
        "Schema(Schema(UnknownType(17)))",
    ),
    (
        ToolFault::Schema(SchemaTextFault::Schema(SchemaFault::Memory)),
        "Schema(Schema(Memory))",
    ),
    (
        ToolFault::Json(JsonFault::NotWhole(SLOT)),
        "Json(NotWhole(Place { owner: TypeId(3), slot: Some(1) }))",
    ),
    (
        ToolFault::Json(JsonFault::UnknownMember(OWNER)),
        "Json(UnknownMember(Place { owner: TypeId(3), slot: None }))",
    ),
    (ToolFault::Json(JsonFault::Memory), "Json(Memory)"),
    (
        ToolFault::Read(ReadFault::OutOfBounds(16)),
        "Read(OutOfBounds(16))",
    ),
    (
        ToolFault::Read(ReadFault::MissingRequired(8, 2)),
        "Read(MissingRequired(8, 2))",
    ),
    (ToolFault::Read(ReadFault::Memory), "Read(Memory)"),
    (
        ToolFault::Breach(Breach::RootChanged),
        "Breach(RootChanged)",
    ),
    (
        ToolFault::Breach(Breach::TypeGone(TypeId(3))),
        "Breach(TypeGone(TypeId(3)))",
    ),
    (
        ToolFault::Breach(Breach::SlotGone(TypeId(3), 2)),
        "Breach(SlotGone(TypeId(3), 2))",
    ),
];

const SCHEMA: &[u8] = b"table T { a:int; } root_type T;";

// The table { a: 7 }.
const BUFFER: &[u8] = &[12, 0, 0, 0, 0, 0, 6, 0, 8, 0, 4, 0, 6, 0, 0, 0, 7, 0, 0, 0];

const EXPLANATIONS: &[(ToolFault, &str)] = &[
    (
        ToolFault::Build(BuildFault::Memory),
        "memory ran out while the buffer was built\n",
    ),
    (
        ToolFault::Read(ReadFault::Memory),
        "memory ran out while the buffer was read\n",
    ),
    (
        ToolFault::Text(TextFault::Memory),
        "memory ran out while the text was printed\n",
    ),
    (
        ToolFault::Write(WriteFault::WriteFailed(65_536)),
        "standard output took no more after 65536 bytes\n",
    ),
    (
        ToolFault::Read(ReadFault::TooLong(2_147_483_647)),
        "b.bin: the buffer is longer than 2147483647 bytes
 |          0  0c 00 00 00 00 00 06 00 08 00 04 00 06 00 00 00  ................
 |         16  07 00 00 00                                      ....
 |                         ^^
",
    ),
];

fn is_told(
    alloc: Global,
    fault: &ToolFault,
    line: &str,
    sentence: &str,
) -> Result<bool, AllocError> {
    Ok(fault_line(alloc, fault)?.as_str() == line && fault.to_string(alloc)?.as_str() == sentence)
}

#[test]
fn a_fault_has_a_line_and_a_sentence(rt: HostRuntime) -> Result<(), Fail> {
    for (fault, line, sentence) in FAULTS {
        assert!(rt; is_told(rt.alloc(), fault, line, sentence)?, "of {line}");
    }
    Ok(())
}

#[test]
fn a_fault_is_shown(rt: HostRuntime) -> Result<(), Fail> {
    for (fault, want) in SHOWN {
        let shown = format!(in rt.alloc(); "{fault:?}")?;
        assert!(rt; shown.as_str() == *want, "wanted {want}");
    }
    Ok(())
}

fn explanation_of(alloc: Global, fault: &ToolFault) -> Result<String, AllocError> {
    let sources = Sources {
        schema: Source {
            path: "s.fbs",
            bytes: SCHEMA,
        },
        input: Source {
            path: "b.bin",
            bytes: BUFFER,
        },
        limits: usual_limits(),
        unknown_json: false,
        raw_binary: false,
        size_prefixed: false,
        failure: None,
    };
    explain(alloc, *fault, &sources, COLUMNS)
}

#[test]
fn a_fault_is_explained(rt: HostRuntime) -> Result<(), Fail> {
    for (fault, want) in EXPLANATIONS {
        assert!(rt;
            explanation_of(rt.alloc(), fault)?.as_str() == *want,
            "wanted {want}"
        );
    }
    Ok(())
}
