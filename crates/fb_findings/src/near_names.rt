//! The name that was meant.
use crate::note::Note;
use std::alloc::{AllocError, Global};
use strsim::osa_distance;

// How many names are looked through, and how long they may be, in bytes.
const MOST_NAMES: usize = 10_000;

const LONGEST: usize = 64;

// One letter more or less makes any two shorter names alike.
const SHORTEST: usize = 3;

// How many names are listed where none is near.
const MOST_LISTED: usize = 5;

/// How many letters may differ.
fn greatest_distance(name: &str, wanted: &str) -> usize {
    if name.len().max(wanted.len()) < SHORTEST {
        return 0;
    }
    1usize.max(wanted.len() / 3)
}

/// The distance of two names where it is small; a name in other letters of the same case is nearest.
fn distance(alloc: Global, name: &str, wanted: &str) -> Result<Option<usize>, AllocError> {
    if name.eq_ignore_ascii_case(wanted) {
        return Ok(Some(0));
    }
    if name.len() > LONGEST || wanted.len() > LONGEST {
        return Ok(None);
    }
    let distance = osa_distance(alloc, name, wanted)?;
    Ok((distance <= greatest_distance(name, wanted)).then_some(distance))
}

/// The place of the nearest of some names, where one is near.
fn nearest_at(alloc: Global, names: &[&str], wanted: &str) -> Result<Option<usize>, AllocError> {
    let mut nearest = None;
    let mut least = usize::MAX;
    for (at, name) in names.iter().take(MOST_NAMES).enumerate() {
        if let Some(distance) = distance(alloc, name, wanted)?
            && distance < least
        {
            nearest = Some(at);
            least = distance;
        }
    }
    Ok(nearest)
}

/// The place of the nearest of some names, where one is near; none too where memory runs out.
pub fn nearest(note: &mut Note, names: &[&str], wanted: &str) -> Option<usize> {
    let found = nearest_at(note.alloc(), names, wanted);
    note.keep(found)?
}

/// Adds a name as a question.
pub fn push_meant(note: &mut Note, name: &str) {
    note.push_str("; did you mean ");
    note.push_name(name.as_bytes());
    note.push_str("?");
}

/// Adds some names, as 'A', 'B' and 'C'.
pub fn push_names(note: &mut Note, names: &[&str]) {
    let last = names.len().saturating_sub(1);
    for (at, name) in names.iter().enumerate() {
        if at > 0 {
            note.push_str(if at == last { " and " } else { ", " });
        }
        note.push_name(name.as_bytes());
    }
}

/// Adds all of some names after what has them, as `it has`, where they are few.
pub fn push_few(note: &mut Note, owner: &str, names: &[&str]) {
    if names.is_empty() || names.len() > MOST_LISTED {
        return;
    }
    note.push_str("; ");
    note.push_str(owner);
    note.push_str(" ");
    push_names(note, names);
}

/// Adds the nearest of some names as a question; where none is near and they are few, all of them.
pub fn push_nearest(note: &mut Note, owner: &str, names: &[&str], wanted: &str) {
    match nearest(note, names, wanted).and_then(|at| names.get(at)) {
        Some(name) => push_meant(note, *name),
        None => push_few(note, owner, names),
    }
}

/// The names of an enum's values or of a union's members.
pub fn names_in<T>(alloc: Global, named: &[(String, T)]) -> Result<Vec<&str>, AllocError> {
    let mut names = Vec::new(alloc);
    for (name, _) in named {
        names.push(name.as_str())?;
    }
    Ok(names)
}
