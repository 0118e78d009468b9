//! Blanks, which JSON allows round every value.
ghost use Rattle.std.specs.Prelude.{◌≡◌, ◌==◌, ◌≤◌, IfSome, Some, MatchOption, false, length, slice_get, take, ⊤};
ghost use Rattle.std.specs.List.{list_all};
ghost use Rattle.json.specs.Word.{is_space};
ghost use Rattle.fb_pieces.specs.Blanks.{AreBlanks};

fn is_blank(byte: u8) -> bool
    ensures { result ≡ is_space byte }
{
    matches!(byte, b' ' | b'\t' | b'\n' | b'\r')
}

/// How many blanks a text begins with.
pub fn leading_blanks(text: &[u8]) -> usize
    ensures within { result ≤ length text.now }
    ensures blanks { AreBlanks (take result text.now) }
    ensures all { MatchOption (slice_get text.now result) ⊤ (λ byte. is_space byte ≡ false) }
{
    for (at, byte) in text.iter().enumerate() {
        if !is_blank(*byte) {
            return at;
        }
    }
    text.len()
}

/// Whether a text has blanks alone.
pub(crate) fn are_blanks(text: &[u8]) -> bool
    ensures { result ≡ list_all is_space text.now }
{
    text.iter().all(|byte| is_blank(*byte))
}
