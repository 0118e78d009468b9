//! Numbers in JSON texts.
ghost use Rattle.std.specs.Prelude.{ℤ, ◌≡◌};
ghost use Rattle.std.specs.Fmt.{signed_decimal};
ghost use Rattle.std.specs.Option.{option_map_or};
ghost use Rattle.fb_schema.specs.Schema.{body_at};
ghost use Rattle.fb_schema.specs.Found.{name_numbered};
ghost use Rattle.fb_text.specs.Texts.{flags_text, in_quotes, number_text};
ghost use Rattle.fb_text.specs.Writes.{Prints};

use crate::flags::{are_flags, bits_of, named_bits, put_bits};
use crate::lines::put_name;
use crate::names::Names;
use crate::noted::Noted;
use fb_json::has_flags;
use fb_schema::{Base, Kind, Schema};
use itoa::Buffer;
use std::io::Write;

/// How the numbers of a kind are printed. What is looked up for that is found once for all the numbers of a vector.
#[derive(Clone, Copy)]
pub(crate) enum NumberForm<'a> {
    Boolean,
    /// By the name of an enum's value.
    Name(Names<'a>),
    /// By the names of an enum's flags.
    Flags(Names<'a>),
    Digits,
}

impl<'a> NumberForm<'a> {
    ghost use Rattle.fb_text.specs.Forms.{form_text};

    /// That of a kind's numbers.
    #[inline]
    pub(crate) fn of(schema: &'a Schema, kind: Kind) -> NumberForm<'a>
        ensures { (n : ℤ) → form_text result n ≡ number_text schema.now kind n }
    {
        match kind {
            Kind::Scalar(Base::Bool) => NumberForm::Boolean,
            Kind::Enum(enumeration) => {
                let names = Names::of(schema, enumeration);
                if has_flags(schema, enumeration) {
                    NumberForm::Flags(names)
                } else {
                    NumberForm::Name(names)
                }
            }
            _ => NumberForm::Digits,
        }
    }

    /// That of a vector's numbers, with the bits that have names, which are found once for all of them.
    pub(crate) fn of_many(schema: &'a Schema, kind: Kind) -> NumberForm<'a>
        ensures { (n : ℤ) → form_text result n ≡ number_text schema.now kind n }
    {
        match NumberForm::of(schema, kind) {
            NumberForm::Flags(names) => {
                NumberForm::Flags(names.with_named_bits(named_bits(&names)))
            }
            form => form,
        }
    }

    /// Adds a number.
    #[inline]
    pub(crate) fn put<W: Write>(&self, out: &mut Noted<W>, number: i128)
        ensures { Prints W.contents out.old out.new (form_text self.now number) }
    {
        match self {
            NumberForm::Boolean => out.put_str(if number == 0 { "false" } else { "true" }),
            NumberForm::Name(names) => put_named(out, names, number),
            NumberForm::Flags(names) => put_flags(out, names, number),
            NumberForm::Digits => put_digits(out, number),
        }
    }
}

/// Adds a number's digits. Most numbers fit 64 bits, whose digits take less.
fn put_digits<W: Write>(out: &mut Noted<W>, number: i128)
    ensures { Prints W.contents out.old out.new (signed_decimal number) }
{
    match i64::try_from(number) {
        Ok(short) => out.put_str(Buffer::new().format(short)),
        Err(_) => out.put_str(Buffer::new().format(number)),
    }
}

/// Adds a number of a kind. Most are digits, for which no form is looked up.
pub(crate) fn put_number<W: Write>(out: &mut Noted<W>, schema: &Schema, kind: Kind, number: i128)
    ensures { Prints W.contents out.old out.new (number_text schema.now kind number) }
{
    match kind {
        Kind::Enum(_) | Kind::Scalar(Base::Bool) => NumberForm::of(schema, kind).put(out, number),
        _ => put_digits(out, number),
    }
}

/// Adds the name of an enum's number, or the number.
fn put_named<W: Write>(out: &mut Noted<W>, names: &Names, number: i128)
    ensures { Prints W.contents out.old out.new (option_map_or in_quotes
        (name_numbered (body_at names.now.schema.now names.now.enumeration.0) number) (signed_decimal number)) }
{
    let counted = usize::try_from(number).unwrap_or(usize::MAX);
    match names.name(number, counted) {
        Some(name) => put_name(out, name),
        None => put_digits(out, number),
    }
}

/// Adds the names of a number's bits, where it has bits and each has a name, or the number.
#[inline(never)]
#[tactic(auto, using(crate::proofs::noted::PiecesAddUp::added_then))]
fn put_flags<W: Write>(out: &mut Noted<W>, names: &Names, number: i128)
    ensures { Prints W.contents out.old out.new
        (flags_text (body_at names.now.schema.now names.now.enumeration.0) number) }
{
    if !are_flags(names, number) {
        return put_digits(out, number);
    }
    out.put_str("\"");
    put_bits(out, names, bits_of(number), false);
    out.put_str("\"");
}
