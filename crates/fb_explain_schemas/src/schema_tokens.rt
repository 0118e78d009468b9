//! The tokens of a schema text as people read them, also of one that isn't right.
use fb_findings::{WORD_BYTES, front_len};

/// A token, or bytes that are none, and its offset in bytes.
#[derive(Clone, Copy)]
pub(crate) struct Token<'t> {
    pub(crate) bytes: &'t [u8],
    pub(crate) at: usize,
}

/// The tokens of a text. Letters that touch a number or a sign belong to it.
#[derive(Clone, Copy, Drop)]
pub(crate) struct Tokens<'t>(fb_syntax::Tokens<'t>);

/// The bytes of words and of the dots between them.
const NAME_BYTES: &[u8] = b".0123456789ABCDEFGHIJKLMNOPQRSTUVWXYZ_abcdefghijklmnopqrstuvwxyz";

/// Whether a token is a word, and no number, text or sign.
pub(crate) fn is_word(token: &[u8]) -> bool {
    matches!(token, [b'a'..=b'z' | b'A'..=b'Z' | b'_', ..])
}

fn rest_from(text: &[u8], at: usize) -> &[u8] {
    text.get(at..).unwrap_or(&[])
}

impl<'t> Tokens<'t> {
    pub(crate) fn of(text: &'t [u8]) -> Tokens<'t> {
        Tokens(fb_syntax::Tokens::of(text))
    }
}

impl<'t> Iterator for Tokens<'t> {
    ghost use Rattle.std.specs.Prelude.{◌-◌, length};
    ghost use Rattle.std.specs.Iterator.{at_most};

    type Item = Token<'t>;

    ghost remaining = { λ tokens. at_most (length tokens.0.text.now - tokens.0.at) };

    fn next(&mut self) -> Option<Token<'t>> {
        let found = self.0.next()?;
        let at = found.map_or_else(|bad| bad.at, |token| token.at) as usize;
        let text = self.0.text;
        if let [b'0'..=b'9' | b'+' | b'-', ..] = rest_from(text, at) {
            let letters = front_len(rest_from(text, self.0.at), WORD_BYTES);
            self.0.at = self.0.at.saturating_add(letters);
        }
        let bytes = text.get(at..self.0.at).unwrap_or(&[]);
        Some(Token { bytes, at })
    }
}

/// The token at an offset, or the blank there; empty at the text's end.
pub(crate) fn token_at(text: &[u8], at: usize) -> &[u8] {
    match Tokens(fb_syntax::Tokens { text, at }).next() {
        Some(token) if token.at == at => token.bytes,
        _ => rest_from(text, at).get(..1).unwrap_or(&[]),
    }
}

/// The token after the one at an offset; empty at the text's end.
pub(crate) fn token_after(text: &[u8], at: usize) -> &[u8] {
    let mut tokens = Tokens(fb_syntax::Tokens { text, at });
    let Some(_) = tokens.next() else {
        return &[];
    };
    match tokens.next() {
        Some(token) => token.bytes,
        None => &[],
    }
}

/// The words at an offset with the dots between them; the token there where it is no word.
pub(crate) fn name_at(text: &[u8], at: usize) -> &[u8] {
    let token = token_at(text, at);
    if !is_word(token) {
        return token;
    }
    let rest = rest_from(text, at);
    rest.get(..front_len(rest, NAME_BYTES)).unwrap_or(rest)
}

#[cfg(test)]
mod tests {
    use super::*;

    /// Texts with an offset, and the token there.
    const TOKENS: &[(&str, usize, &str)] = &[
        ("first-name:string;", 5, "-name"),
        ("n:int = 1e5;", 8, "1e5"),
        ("n:int = 99999999999999999999f;", 8, "99999999999999999999f"),
        ("n:int = -5;", 8, "-5"),
        ("s:string = \"a\n\";", 13, "\n"),
        ("s:string = \"a\\n\";", 13, "\\"),
        ("größe:int;", 2, "ö"),
        ("n:int?;", 5, "?"),
        ("n:int; // a", 7, "/"),
        ("n:int;", 6, ""),
    ];

    #[test]
    fn finds_the_token_at_an_offset(rt: HostRuntime) {
        for (text, at, want) in TOKENS {
            assert_eq!(rt; token_at(text.as_bytes(), *at), want.as_bytes(), "{text}");
        }
    }

    #[test]
    fn goes_on_after_what_is_no_token(rt: HostRuntime) {
        let text = "\u{feff}s:string = \"a // b\nn?:int = -é /* c */ 1f, 2. /* d";
        let want = [
            "s", ":", "string", "=", "\"a // b", "n", "?", ":", "int", "=", "-", "é", "1f", ",",
            "2", ".", "/* d",
        ];
        let mut tokens = Tokens::of(text.as_bytes());
        for token in want {
            assert_eq!(rt;
                tokens.next().map(|found| found.bytes),
                Some(token.as_bytes())
            );
        }
        assert!(rt; tokens.next().is_none());
    }
}
