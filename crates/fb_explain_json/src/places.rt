//! Where a value is in a JSON text, by its path.
use crate::names::is_unknown;
use fb_schema::{Schema, TypeId};
use json::{Reader, Scratch, Token};
use std::alloc::{AllocError, Global};

// How deep brackets may be nested.
const DEPTH: usize = 128;

/// The text from an offset on.
pub(crate) fn rest_of(text: &str, offset: usize) -> &str {
    text.get(offset..).unwrap_or("")
}

/// The offset of the value of an object's last member of a name, from the object's begin on.
fn last_named(reader: &mut Reader<'_>, most: usize, name: &str) -> Option<usize> {
    let mut found = None;
    if !matches!(reader.next(), Some(Token::BeginObject)) {
        return None;
    }
    for _ in 0..most {
        let Ok(Some(key)) = reader.next_key() else {
            break;
        };
        let is_named = key == name;
        let offset = reader.offset();
        if is_named {
            found = Some(offset);
        }
        if reader.skip_value(DEPTH).is_err() {
            break;
        }
    }
    found
}

/// The offset of a member's value in an object; of a name that is repeated the last counts.
pub(crate) fn member_offset(
    alloc: Global,
    object: &str,
    name: &str,
) -> Result<Option<usize>, AllocError> {
    let mut scratch = Scratch::new(alloc);
    let mut reader = Reader::new(object, &mut scratch)?;
    Ok(last_named(&mut reader, object.len(), name))
}

/// The offset of the element of a number, from the array's begin on.
fn numbered(reader: &mut Reader<'_>, index: usize) -> Option<usize> {
    if !matches!(reader.next(), Some(Token::BeginArray)) {
        return None;
    }
    for _ in 0..index {
        if reader.skip_value(DEPTH).is_err() {
            return None;
        }
    }
    Some(reader.offset())
}

/// The offset of an element in an array.
pub(crate) fn element_offset(
    alloc: Global,
    array: &str,
    index: usize,
) -> Result<Option<usize>, AllocError> {
    let mut scratch = Scratch::new(alloc);
    let mut reader = Reader::new(array, &mut scratch)?;
    Ok(numbered(&mut reader, index))
}

/// A member's name, and the offset of its quote.
#[derive(Drop)]
pub(crate) struct Name {
    pub(crate) text: String,
    pub(crate) at: usize,
}

/// The unknown member of an object that is reported, from the object's begin on.
fn least_unknown(
    alloc: Global,
    reader: &mut Reader<'_>,
    most: usize,
    schema: &Schema,
    owner: TypeId,
) -> Result<Option<Name>, AllocError> {
    let mut least: Option<Name> = None;
    if !matches!(reader.next(), Some(Token::BeginObject)) {
        return Ok(None);
    }
    for _ in 0..most {
        let at = reader.offset();
        let Ok(Some(key)) = reader.next_key() else {
            break;
        };
        let is_before = least
            .as_ref()
            .map_or(true, |least| key <= least.text.as_str());
        if is_before && is_unknown(schema, owner, key) {
            let text = String::from_str(alloc, key)?;
            least = Some(Name { text, at });
        }
        if reader.skip_value(DEPTH).is_err() {
            break;
        }
    }
    Ok(least)
}

/// The unknown member of an object that is reported: of the least name, and of members of one name the last.
pub(crate) fn unknown_member(
    alloc: Global,
    schema: &Schema,
    owner: TypeId,
    object: &str,
) -> Result<Option<Name>, AllocError> {
    let mut scratch = Scratch::new(alloc);
    let mut reader = Reader::new(object, &mut scratch)?;
    least_unknown(alloc, &mut reader, object.len(), schema, owner)
}
