//! Texts without control characters.
use std::alloc::AllocError;

/// Adds a character as its escape.
fn push_escape(text: &mut String, character: char) -> Result<(), AllocError> {
    for escaped in character.escape_unicode() {
        text.push(escaped)?;
    }
    Ok(())
}

/// Adds a text in which each control character is escaped, and every other one is kept.
pub fn push_escaped(text: &mut String, words: &str) -> Result<(), AllocError> {
    for character in words.chars() {
        if character.is_control() {
            push_escape(text, character)?;
        } else {
            text.push(character)?;
        }
    }
    Ok(())
}
