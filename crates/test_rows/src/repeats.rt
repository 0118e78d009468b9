//! Texts of a row that are too long to be written out.
use crate::faults::RowFault;
use json::Value;
use std::alloc::{AllocError, Global};

/// A text that stands for its name in the texts of a row, as often as it counts.
///
/// In each copy `#` is the copy's number, from 0, and `#+` the number after it.
#[derive(Drop)]
pub(crate) struct Repeat<'a> {
    name: &'a str,
    count: u64,
    text: &'a str,
}

impl<'a> Repeat<'a> {
    /// The repeat of a name: an object with a `count` and a `text`.
    fn parse(name: &'a str, value: Value<'a>) -> Result<Repeat<'a>, RowFault> {
        let Value::Object(members) = value else {
            return Err(RowFault::Invalid("repeats"));
        };
        let (mut count, mut text) = (None, None);
        for (key, value) in members {
            match (key, value) {
                ("text", Value::String(found)) => text = Some(found),
                ("count", value) => count = value.as_u64(),
                _ => return Err(RowFault::Invalid("repeats")),
            }
        }
        match (count, text) {
            (Some(count), Some(text)) => Ok(Repeat { name, count, text }),
            _ => Err(RowFault::Invalid("repeats")),
        }
    }

    /// Adds a copy of the text.
    fn push_copy(&self, all: &mut String, number: u64) -> Result<(), AllocError> {
        for (i, part) in self.text.split('#').enumerate() {
            if i == 0 {
                all.push_str(part)?;
            } else if let Some(rest) = part.strip_prefix('+') {
                write!(all, "{}{rest}", number.saturating_add(1))?;
            } else {
                write!(all, "{number}{part}")?;
            }
        }
        Ok(())
    }

    /// Adds all copies.
    fn push_copies(&self, all: &mut String) -> Result<(), AllocError> {
        for number in 0..self.count {
            self.push_copy(all, number)?;
        }
        Ok(())
    }
}

/// The repeats of a row, from the object that names them.
pub(crate) fn repeats_of<'a>(alloc: Global, value: Value<'a>) -> Result<Vec<Repeat<'a>>, RowFault> {
    let Value::Object(members) = value else {
        return Err(RowFault::Invalid("repeats"));
    };
    let mut repeats = Vec::new(alloc);
    for (name, value) in members {
        repeats.push(Repeat::parse(name, value)?)?;
    }
    Ok(repeats)
}

/// Adds what follows a `<` of a text: the copies of a repeat whose name ends at the next `>`, or the text as it is.
fn push_after_mark(all: &mut String, part: &str, repeats: &[Repeat<'_>]) -> Result<(), AllocError> {
    if let Some((name, rest)) = part.split_once('>') {
        if let Some(repeat) = repeats.iter().find(|repeat| repeat.name == name) {
            repeat.push_copies(all)?;
            return all.push_str(rest);
        }
    }
    write!(all, "<{part}")
}

/// A text in which each `<name>` of a repeat is replaced by its copies.
pub(crate) fn expand(
    alloc: Global,
    text: &str,
    repeats: &[Repeat<'_>],
) -> Result<String, AllocError> {
    let mut all = String::new(alloc);
    for (i, part) in text.split('<').enumerate() {
        if i == 0 {
            all.push_str(part)?;
        } else {
            push_after_mark(&mut all, part, repeats)?;
        }
    }
    Ok(all)
}
