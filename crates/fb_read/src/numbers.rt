//! Numbers in bytes, read in place.
ghost use Rattle.std.specs.Prelude.{◌≡◌, ◌+◌, ◌≤◌, length};
ghost use Rattle.fb_schema.specs.declared.kinds.Base.TheVariants.{I8, I16, I32, I64};
ghost use Rattle.fb_schema.specs.Alignments.{base_size};
ghost use Rattle.fb_value.specs.Num.{num, scalar_of};

use byteorder::{ByteOrder, LittleEndian};
use fb_schema::Base;

/// The number in the two bytes from a position on.
// Not marked for inlining, it is made one load first: inlined as it stands, its two bytes stay apart where one of them
// is used again.
pub fn u16_at(bytes: &[u8], at: usize) -> u16
    requires { at + 2 ≤ length bytes.now }
    ensures { result ≡ num bytes.now at 2 }
{
    LittleEndian::read_u16(&bytes[at..])
}

/// The number in the four bytes from a position on.
#[inline(always)]
pub fn u32_at(bytes: &[u8], at: usize) -> u32
    requires { at + 4 ≤ length bytes.now }
    ensures { result ≡ num bytes.now at 4 }
{
    LittleEndian::read_u32(&bytes[at..])
}

/// The `int` in the four bytes from a position on.
pub fn i32_at(bytes: &[u8], at: usize) -> i32
    requires { at + 4 ≤ length bytes.now }
    ensures { result ≡ scalar_of I32 (num bytes.now at 4) }
{
    LittleEndian::read_i32(&bytes[at..])
}

/// The byte at a position, 0 past the end.
#[inline(always)]
#[tactic(auto, unfolding(fb_value::specs::Num::num))]
pub fn byte_at(bytes: &[u8], at: usize) -> u8
    ensures { result ≡ num bytes.now at 1 }
{
    bytes.get(at).copied().unwrap_or(0)
}

/// The number in the eight bytes from a position on.
pub fn u64_at(bytes: &[u8], at: usize) -> u64
    requires { at + 8 ≤ length bytes.now }
    ensures { result ≡ num bytes.now at 8 }
{
    LittleEndian::read_u64(&bytes[at..])
}

/// The `byte` at a position.
pub fn i8_at(bytes: &[u8], at: usize) -> i8
    ensures { result ≡ scalar_of I8 (num bytes.now at 1) }
{
    byte_at(bytes, at).cast_signed()
}

/// The `short` in the two bytes from a position on.
pub fn i16_at(bytes: &[u8], at: usize) -> i16
    requires { at + 2 ≤ length bytes.now }
    ensures { result ≡ scalar_of I16 (num bytes.now at 2) }
{
    LittleEndian::read_i16(&bytes[at..])
}

/// The `long` in the eight bytes from a position on.
pub fn i64_at(bytes: &[u8], at: usize) -> i64
    requires { at + 8 ≤ length bytes.now }
    ensures { result ≡ scalar_of I64 (num bytes.now at 8) }
{
    LittleEndian::read_i64(&bytes[at..])
}

/// The number of a basic type at a position.
pub fn number_at(bytes: &[u8], at: usize, base: Base) -> i128
    requires { at + base_size base ≤ length bytes.now }
    ensures { result ≡ scalar_of base (num bytes.now at (base_size base)) }
{
    match base {
        Base::Bool => { if byte_at(bytes, at) == 0 { 0 } else { 1 } }
        Base::I8 => i128::from(i8_at(bytes, at)),
        Base::U8 => i128::from(byte_at(bytes, at)),
        Base::I16 => i128::from(i16_at(bytes, at)),
        Base::U16 => i128::from(u16_at(bytes, at)),
        Base::I32 => i128::from(i32_at(bytes, at)),
        Base::U32 => i128::from(u32_at(bytes, at)),
        Base::I64 => i128::from(i64_at(bytes, at)),
        Base::U64 => i128::from(u64_at(bytes, at)),
    }
}
