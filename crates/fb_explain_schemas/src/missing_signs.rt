//! The sign that a schema text needs at a place.
use crate::statements::Statement;
use fb_findings::{is_one_of, value_of};

/// What has fields.
const OWNERS: &[&str] = &["table", "struct"];

/// The first words of statements, and what is expected after their names.
const BEHIND_NAMES: &[(&str, &str)] = &[
    ("table", ": '{' is expected"),
    ("struct", ": '{' is expected"),
    ("union", ": '{' is expected"),
    ("enum", ": ':' is expected"),
    ("root_type", ": ';' is expected"),
    ("namespace", ": ';' is expected"),
    ("attribute", ": ';' is expected"),
    ("file_identifier", ": ';' is expected"),
    ("file_extension", ": ';' is expected"),
];

/// What is expected after a statement, where that is one sign.
pub(crate) fn sign_after(statement: Statement<'_>) -> Option<&'static str> {
    if !statement.ends_a_value() {
        return None;
    }
    if is_one_of(OWNERS, statement.owner) {
        return Some(if statement.count == 1 {
            ": ':' is expected"
        } else {
            ": ';' is expected"
        });
    }
    if statement.owner.is_empty() && statement.count == 2 {
        return value_of(BEHIND_NAMES, statement.first);
    }
    None
}
