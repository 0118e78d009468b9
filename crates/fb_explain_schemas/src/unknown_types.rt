//! A name that no type has, and the one that was meant.
use crate::first_names::types_read;
use fb_findings::{Note, is_one_of, last_word, nearest, push_few, push_meant, value_of};
use fb_resolve::{BASIC_TYPES, Outline, TypeRead, name_of_type, word_of};
use std::alloc::{AllocError, Global};

/// What other languages call a type, and FlatBuffers' name of it.
const FOREIGN: &[(&str, &str)] = &[
    ("boolean", "bool"),
    ("Boolean", "bool"),
    ("str", "string"),
    ("text", "string"),
    ("integer", "int"),
    ("Integer", "int"),
    ("unsigned", "uint"),
    ("char", "int8"),
    ("i8", "int8"),
    ("int8_t", "int8"),
    ("u8", "uint8"),
    ("uint8_t", "uint8"),
    ("i16", "int16"),
    ("int16_t", "int16"),
    ("u16", "uint16"),
    ("uint16_t", "uint16"),
    ("i32", "int32"),
    ("int32_t", "int32"),
    ("u32", "uint32"),
    ("uint32_t", "uint32"),
    ("i64", "int64"),
    ("int64_t", "int64"),
    ("u64", "uint64"),
    ("uint64_t", "uint64"),
    ("size_t", "uint64"),
];

/// What other languages call integers that are wider than FlatBuffers has them.
const TOO_WIDE: &[&str] = &[
    "int128",
    "uint128",
    "int128_t",
    "uint128_t",
    "i128",
    "u128",
    "int256",
    "uint256",
];

/// The namespace in force at an offset among types.
fn scope_at<'d>(types: &[TypeRead<'d, '_>], offset: u64) -> Option<&'d str> {
    let mut types = types.iter();
    types
        .rfind(|read| word_of(read.declaration).at <= offset)?
        .scope
}

/// The namespace in force at the offset of a name of a type.
fn scope_of_name<'d>(outline: &Outline<'d, '_>, offset: u64) -> Option<&'d str> {
    if let Some(root) = &outline.root
        && root.name.at() == offset
    {
        return root.scope;
    }
    scope_at(types_read(outline), offset)
}

/// Whether a type of a namespace is found by its own name inside another.
fn is_seen(home: Option<&str>, scope: Option<&str>) -> bool {
    match (home, scope) {
        (None, _) => true,
        (Some(_), None) => false,
        (Some(home), Some(scope)) => scope
            .strip_prefix(home)
            .is_some_and(|rest| rest.is_empty() || rest.starts_with('.')),
    }
}

/// A type's name as it is written inside a namespace.
fn name_inside(
    alloc: Global,
    read: &TypeRead<'_, '_>,
    scope: Option<&str>,
) -> Result<String, AllocError> {
    if is_seen(read.scope, scope) {
        String::from_str(alloc, word_of(read.declaration).text)
    } else {
        name_of_type(alloc, read)
    }
}

/// The names of types as they are written inside a namespace.
fn names_inside(
    alloc: Global,
    types: &[TypeRead<'_, '_>],
    scope: Option<&str>,
) -> Result<Vec<String>, AllocError> {
    let mut names = Vec::new(alloc);
    for read in types {
        names.push(name_inside(alloc, read, scope)?)?;
    }
    Ok(names)
}

/// The names as they are.
fn whole_names<'n>(alloc: Global, names: &'n [String]) -> Result<Vec<&'n str>, AllocError> {
    let mut whole = Vec::with_capacity(alloc, names.len())?;
    for name in names {
        whole.push(name.as_str())?;
    }
    Ok(whole)
}

/// The names without their namespaces, and after them the basic types.
fn words_of<'n>(alloc: Global, names: &'n [String]) -> Result<Vec<&'n str>, AllocError> {
    let mut words = Vec::new(alloc);
    for name in names {
        words.push(last_word(name.as_str()))?;
    }
    words.extend_from_slice(BASIC_TYPES)?;
    Ok(words)
}

/// The type that was meant by a name, where one is near it.
fn meant<'n>(
    note: &mut Note,
    whole: &[&'n str],
    words: &[&'n str],
    wanted: &str,
) -> Option<&'n str> {
    let by_name = if wanted.contains('.') {
        nearest(note, whole, wanted)
    } else {
        None
    };
    let at = match by_name {
        Some(at) => at,
        None => nearest(note, words, last_word(wanted))?,
    };
    whole.get(at).or(words.get(at)).copied()
}

/// Adds the type that was meant by a name, else the few that there are.
fn push_known<'n>(note: &mut Note, whole: &[&'n str], words: &[&'n str], wanted: &str) {
    if is_one_of(TOO_WIDE, wanted.as_bytes()) {
        note.push_str("; an integer has 64 bits at most");
        return;
    }
    let near = meant(note, whole, words, wanted);
    match (near, value_of(FOREIGN, wanted.as_bytes())) {
        (Some(name), _) | (None, Some(name)) => push_meant(note, name),
        (None, None) => push_few(note, "the text declares", whole),
    }
}

fn push_known_names(note: &mut Note, names: &[String], wanted: &str) {
    let whole = whole_names(note.alloc(), names);
    let Some(whole) = note.keep(whole) else {
        return;
    };
    let words = words_of(note.alloc(), names);
    if let Some(words) = note.keep(words) {
        push_known(note, whole.as_slice(), words.as_slice(), wanted);
    }
}

/// Adds that no type has a name, with the one that was meant.
pub(crate) fn push_unknown_type(
    note: &mut Note,
    outline: &Outline<'_, '_>,
    wanted: &str,
    offset: u64,
) {
    note.push_str("no type is called ");
    note.push_name(wanted.as_bytes());
    let scope = scope_of_name(outline, offset);
    let names = names_inside(note.alloc(), types_read(outline), scope);
    if let Some(names) = note.keep(names) {
        push_known_names(note, names.as_slice(), wanted);
    }
}
