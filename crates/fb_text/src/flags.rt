//! The names of a number's bits.
ghost use Rattle.std.specs.Prelude.{◌≡◌, ◌-◌, ◌%◌, ◌^◌, ◌<◌, ◌++◌, [], codes, pos, option_copied, if◌then◌else◌};
ghost use Rattle.std.specs.Int.{trailing_zeros, w64};
ghost use Rattle.std.specs.Option.{unwrap_or};
ghost use Rattle.fb_schema.specs.Schema.{body_at};
ghost use Rattle.fb_schema.specs.Found.{name_numbered};
ghost use Rattle.fb_text.specs.Bits.{AreBitsNamed};
ghost use Rattle.fb_text.specs.Texts.{are_flags, are_named, bits_of, bits_text};
ghost use Rattle.fb_text.specs.Writes.{Prints};

use crate::names::Names;
use crate::noted::Noted;
use std::io::Write;

/// The bits of a number, up to 64 of them; a negative one has none here.
pub(crate) fn bits_of(number: i128) -> u64
    ensures { result ≡ bits_of number % 2 ^ 64 }
{
    if number < 0 {
        return 0;
    }
    (number as u128 % (1 << 64)) as u64
}

/// The name of the bit at a place.
fn bit_name<'a>(names: &Names<'a>, place: u32) -> Option<&'a str>
    requires { place < 64 }
    ensures { option_copied result
        ≡ name_numbered (body_at names.now.schema.now names.now.enumeration.0) (pos (2 ^ place)) }
{
    names.name(i128::from(1u64 << place), place as usize)
}

/// How many of the lowest bits have names: the place of the first bit without one, at most 63.
pub(crate) fn named_bits(names: &Names) -> u32
    ensures few { result < 64 }
    ensures named { AreBitsNamed (body_at names.now.schema.now names.now.enumeration.0) result }
{
    let mut place = 0;
    while place < 63 && bit_name(names, place).is_some() {
        place += 1;
    }
    place
}

/// The bits that are set but for the lowest.
fn higher_bits(bits: u64) -> u64
    requires { 0 < bits }
    ensures is { result ≡ bits - 2 ^ trailing_zeros w64 bits }
    ensures less { result < bits }
{
    bits - (1 << bits.trailing_zeros())
}

/// Whether each bit that is set has a name.
fn are_named(names: &Names, bits: u64) -> bool
    ensures { result
        ≡ are_named (name_numbered (body_at names.now.schema.now names.now.enumeration.0)) 64 1 bits }
{
    if bits == 0 {
        return true;
    }
    if bit_name(names, bits.trailing_zeros()).is_none() {
        return false;
    }
    are_named(names, higher_bits(bits))
}

/// Whether each bit that is set has a name. Bits that are known to have names aren't looked up.
fn have_names(names: &Names, bits: u64) -> bool
    ensures { result
        ≡ are_named (name_numbered (body_at names.now.schema.now names.now.enumeration.0)) 64 1 bits }
{
    names.are_known(bits) || are_named(names, bits)
}

/// Whether a number has bits and each has a name.
pub(crate) fn are_flags(names: &Names, number: i128) -> bool
    ensures { result
        ≡ are_flags (body_at names.now.schema.now names.now.enumeration.0) (bits_of number) }
{
    number > 0 && have_names(names, bits_of(number))
}

/// Adds a blank after an earlier name.
#[tactic(auto, using(crate::proofs::noted::PiecesAddUp::added_none))]
fn put_gap<W: Write>(out: &mut Noted<W>, some: bool)
    ensures { Prints W.contents out.old out.new (if some then codes " " else []) }
{
    if some {
        out.put_str(" ");
    }
}

/// Adds the name of the bit at a place; nothing where it has none.
fn put_bit<W: Write>(out: &mut Noted<W>, names: &Names, place: u32)
    requires { place < 64 }
    ensures { Prints W.contents out.old out.new
        (unwrap_or (name_numbered (body_at names.now.schema.now names.now.enumeration.0) (pos (2 ^ place))) []) }
{
    out.put_str(bit_name(names, place).unwrap_or(""));
}

/// Adds the names of the bits that are set, with a blank between two.
pub(crate) fn put_bits<W: Write>(out: &mut Noted<W>, names: &Names, bits: u64, some: bool)
    ensures { Prints W.contents out.old out.new
        (bits_text (name_numbered (body_at names.now.schema.now names.now.enumeration.0)) 64 1 bits some) }
{
    if bits == 0 {
        return;
    }
    put_gap(out, some);
    put_bit(out, names, bits.trailing_zeros());
    put_bits(out, names, higher_bits(bits), true);
}
