//! The bytes that tokens are made of, and runs of them.
ghost use Rattle.std.specs.Prelude.{◌≡◌, ◌≤◌, length};
ghost use Rattle.std.specs.List.{list_all, prefix_len};
ghost use Rattle.fb_syntax.specs.Bytes.{is_letter, is_digit, is_hex, is_blank, is_punct, is_sign, has};

pub(crate) fn is_letter(byte: u8) -> bool
    ensures { result ≡ is_letter byte }
{
    matches!(byte, b'a'..=b'z' | b'A'..=b'Z' | b'_')
}

pub(crate) fn is_digit(byte: u8) -> bool
    ensures { result ≡ is_digit byte }
{
    matches!(byte, b'0'..=b'9')
}

pub(crate) fn is_hex(byte: u8) -> bool
    ensures { result ≡ is_hex byte }
{
    matches!(byte, b'0'..=b'9' | b'a'..=b'f' | b'A'..=b'F')
}

pub(crate) fn is_blank(byte: u8) -> bool
    ensures { result ≡ is_blank byte }
{
    matches!(byte, b' ' | b'\t' | b'\r' | b'\n')
}

pub(crate) fn is_sign(byte: u8) -> bool
    ensures { result ≡ is_sign byte }
{
    matches!(byte, b'+' | b'-')
}

pub(crate) fn is_punct(byte: u8) -> bool
    ensures { result ≡ is_punct byte }
{
    matches!(
        byte,
        b'{' | b'}' | b'(' | b')' | b'[' | b']' | b':' | b';' | b',' | b'.' | b'='
    )
}

/// A class of bytes.
#[derive(Clone, Copy)]
pub(crate) enum ByteClass {
    Word,
    Digit,
    Hex,
    Quotable,
    /// Any byte but a line feed.
    Line,
    /// A byte of a character in UTF-8, after its first.
    Continuation,
}

impl ByteClass {
    fn has(self, byte: u8) -> bool
        ensures { result ≡ has self byte }
    {
        match self {
            ByteClass::Word => is_letter(byte) || is_digit(byte),
            ByteClass::Digit => is_digit(byte),
            ByteClass::Hex => is_hex(byte),
            ByteClass::Quotable => byte >= 0x20 && byte != b'"' && byte != b'\\',
            ByteClass::Line => byte != b'\n',
            ByteClass::Continuation => matches!(byte, 0x80..=0xbf),
        }
    }

    pub(crate) fn has_all(self, bytes: &[u8]) -> bool
        ensures { result ≡ list_all (has self) bytes.now }
    {
        bytes.iter().all(|byte| self.has(*byte))
    }

    /// How many bytes at the front are of the class.
    pub(crate) fn run(self, text: &[u8]) -> usize
        ensures run { result ≡ prefix_len (has self) text.now }
        ensures within { result ≤ length text.now }
    {
        text.iter().take_while(|byte| self.has(**byte)).count()
    }
}
