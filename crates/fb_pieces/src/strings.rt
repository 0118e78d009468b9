//! JSON texts that are strings.
ghost use Rattle.std.specs.Prelude.{◌≡◌, ℕ, IfOk, IfSome, Some};
ghost use Rattle.serde_json.specs.Data.{string};
ghost use Rattle.fb_pieces.specs.Reads.{read_at};

use json::{Reader, Scratch, Token};
use std::alloc::AllocError;

/// What a text reads as that is a string, or `None` of another. A string with escapes is written to `scratch`.
pub fn string_of<'t>(text: &'t str, scratch: &'t mut Scratch) -> Result<Option<&'t str>, AllocError>
    ensures { IfOk result (λ found. IfSome found (λ s. (levels : ℕ)
        → read_at levels text.entry.now ≡ Some (string s.now))) }
{
    let mut reader = Reader::new(text, scratch)?;
    let Some(Token::String(string)) = reader.next() else {
        return Ok(None);
    };
    if reader.next().is_some() {
        return Ok(None);
    }
    Ok(Some(string))
}
