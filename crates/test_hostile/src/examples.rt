//! Schemas, each with a value of its root: as JSON, as bytes, as the text that is printed, and as it is
//! under a newer schema.

/// A schema text and a value under it.
#[derive(Drop)]
pub(crate) struct Example {
    pub(crate) name: &'static str,
    pub(crate) schema: &'static [u8],
    /// How many types it declares.
    pub(crate) types: usize,
    /// The greatest alignment of what a buffer under it may hold.
    pub(crate) align: u32,
    /// The value as JSON, on one line.
    pub(crate) json: &'static [u8],
    pub(crate) bytes: &'static [u8],
    /// The value as it is printed.
    pub(crate) text: &'static str,
    pub(crate) newer: &'static [u8],
    /// The value under the newer schema, with fields that have default values.
    pub(crate) carried: &'static str,
    /// A JSON text that means nothing under the schema.
    pub(crate) refused_json: &'static [u8],
    /// A schema that doesn't conform to the schema.
    pub(crate) breaking: &'static [u8],
    /// A schema that conforms to the schema, and in which names stand for something else.
    pub(crate) moved: &'static [u8],
}

pub(crate) const EXAMPLES: &[Example] = &[
    Example {
        name: "tables",
        schema: b"table P { x:int; } table T { ps:[P]; } root_type T;",
        types: 2,
        align: 4,
        json: b"{\"ps\":[{\"x\":1},{\"x\":2}]}",
        bytes: b"\x04\x00\x00\x00\xe2\xff\xff\xff\x04\x00\x00\x00\x02\x00\x00\x00\x18\x00\x00\x00\
            \x04\x00\x00\x00\xf6\xff\xff\xff\x02\x00\x00\x00\x00\x00\x06\x00\x08\x00\x04\x00\
            \x06\x00\x00\x00\x01\x00\x00\x00",
        text: "{\n  \"ps\": [\n    {\n      \"x\": 1\n    },\n    {\n      \"x\": 2\n    }\n  ]\n}\n",
        newer: b"table P { x:int; y:int = 5; } table T { ps:[P]; n:string; } root_type T;",
        carried: "{\n  \"ps\": [\n    {\n      \"x\": 1,\n      \"y\": 5\n    },\n    {\n      \"x\": 2,\
            \n      \"y\": 5\n    }\n  ]\n}\n",
        refused_json: b"{\"ps\":[{\"x\":1},{\"x\":2147483648}]}",
        breaking: b"table P { x:int = 1; } table T { ps:[P]; } root_type T;",
        moved: b"table P { y:int; x:int; } table T { ps:[P]; } root_type T;",
    },
    Example {
        name: "structs",
        schema: b"struct S (force_align: 16) { a:ubyte; } table T { s:string; v:[S]; n:int; } root_type T;",
        types: 2,
        align: 16,
        json: b"{\"s\":\"hi\",\"v\":[{\"a\":1},{\"a\":2}],\"n\":5}",
        bytes: b"\x1c\x00\x00\x00\x00\x00\x00\x00\x00\x00\x00\x00\x00\x00\x00\x00\x00\x00\x0a\x00\
            \x10\x00\x0c\x00\x08\x00\x04\x00\x0a\x00\x00\x00\x05\x00\x00\x00\x08\x00\x00\x00\
            \x30\x00\x00\x00\x02\x00\x00\x00\x01\x00\x00\x00\x00\x00\x00\x00\x00\x00\x00\x00\
            \x00\x00\x00\x00\x02\x00\x00\x00\x00\x00\x00\x00\x00\x00\x00\x00\x00\x00\x00\x00\
            \x00\x00\x00\x00\x00\x00\x00\x00\x02\x00\x00\x00\x68\x69\x00\x00",
        text: "{\n  \"s\": \"hi\",\n  \"v\": [\n    {\n      \"a\": 1\n    },\n    {\n      \"a\": 2\n    }\n  \
            ],\n  \"n\": 5\n}\n",
        newer: b"struct S (force_align: 16) { a:ubyte; } table T { s:string; v:[S]; n:int; k:int = 3; } root_type T;",
        carried: "{\n  \"s\": \"hi\",\n  \"v\": [\n    {\n      \"a\": 1\n    },\n    {\n      \"a\": 2\n    }\
            \n  ],\n  \"n\": 5,\n  \"k\": 3\n}\n",
        refused_json: b"{\"v\":[{\"a\":1},{\"a\":256}]}",
        breaking: b"struct S (force_align: 16) { a:ubyte; } table T { s:string; v:[S]; n:uint; } root_type T;",
        moved: b"struct S (force_align: 16) { a:ubyte; } table T { n:string; v:[S]; s:int; } root_type T;",
    },
    Example {
        name: "union",
        schema: b"table A {} table B {} union U { A, B } table T { u:U; } root_type T;",
        types: 4,
        align: 4,
        json: b"{\"u_type\":\"B\",\"u\":{}}",
        bytes: b"\x0c\x00\x00\x00\x08\x00\x0c\x00\x07\x00\x08\x00\x08\x00\x00\x00\x00\x00\x00\x02\
            \x08\x00\x00\x00\x04\x00\x04\x00\x04\x00\x00\x00",
        text: "{\n  \"u_type\": \"B\",\n  \"u\": {}\n}\n",
        newer: b"table A {} table B {} table C {} union U { A, B, C } table T { u:U; k:int = 3; } root_type T;",
        carried: "{\n  \"u_type\": \"B\",\n  \"u\": {},\n  \"k\": 3\n}\n",
        refused_json: b"{\"u_type\":\"B\",\"u\":{\"z\":1}}",
        breaking: b"table A {} table B {} union U { B, A } table T { u:U; } root_type T;",
        moved: b"table A {} table B {} union U { B:A, A:B } table T { u:U; } root_type T;",
    },
];
