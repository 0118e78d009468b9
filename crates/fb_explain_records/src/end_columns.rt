//! Where the word ends that a place in a text begins.
use crate::context::Context;
use fb_findings::{Excerpt, Finding};

/// Whether a byte goes on in a word or a number.
fn is_of_word(byte: u8) -> bool {
    byte.is_ascii_alphanumeric() || matches!(byte, b'_' | b'.' | b'-' | b'+')
}

fn begins_character(byte: u8) -> bool {
    byte < 128 || 192 <= byte
}

/// The length of a quoted text with its quotes; of its line, where the text doesn't end there.
fn quoted_len(text: &[u8]) -> usize {
    let mut is_escaped = false;
    for (at, byte) in text.iter().enumerate().skip(1) {
        match *byte {
            b'\n' => return at,
            _ if is_escaped => is_escaped = false,
            b'\\' => is_escaped = true,
            b'"' => return at.saturating_add(1),
            _ => {}
        }
    }
    text.len()
}

/// The length of the word, the number or the quoted text that a text begins with, in bytes.
fn token_len(text: &[u8]) -> usize {
    match text.first() {
        Some(b'"') => quoted_len(text),
        _ => text.iter().take_while(|byte| is_of_word(**byte)).count(),
    }
}

/// The text of a finding's place from its offset on. None where the text isn't known.
fn text_at<'t>(finding: &Finding<'t>, context: &Context<'t>) -> Option<&'t [u8]> {
    if let Excerpt::Line(text, offset) = finding.excerpt {
        return text.get(offset..);
    }
    let place = finding.place?;
    if place.path == context.input.path {
        context.input.bytes.get(place.offset? as usize..)
    } else {
        None
    }
}

/// The column after the word, number or quoted text at a finding's place, or after one character where there is none.
pub(crate) fn end_column(finding: &Finding<'_>, context: &Context<'_>) -> Option<usize> {
    let position = finding.place?.position?;
    let text = text_at(finding, context)?;
    let token = text.get(..token_len(text)).unwrap_or(text);
    let columns = token.iter().filter(|byte| begins_character(**byte)).count();
    Some(position.column.saturating_add(columns.max(1)))
}
