//! The bytes of numbers and structs.
ghost use Rattle.std.specs.Prelude.{ℕ, ◌≡◌, ◌≤◌, ◌<◌, ◌+◌, ◌^◌, ◌++◌, replicate, length, IsTrue, OnOk, OnErr};
ghost use Rattle.std.specs.Prelude.{is_ok, if◌then◌else◌};
ghost use Rattle.fb_schema.specs.Alignments.{base_size};
ghost use Rattle.fb_schema.specs.Schema.{body_at, is_struct};
ghost use Rattle.fb_schema.specs.WellDeclared.{InRange};
ghost use Rattle.fb_layout.specs.Laid.{LaidSchema, one_of, scalar_kind, struct_kind, parts_of};
ghost use Rattle.fb_layout.specs.Seen.{kind_seen};
ghost use Rattle.fb_value.specs.Datum.{a_number, a_struct};
ghost use Rattle.fb_value.specs.Fits.{Fits, PartsFit};
ghost use Rattle.fb_value.specs.Num.{num, scalar_of};
ghost use Rattle.fb_value.specs.View.{view, parts_view};
ghost use Rattle.fb_tape.specs.InlineBytes.{AddsInline, OnlyAdds, IsBit, IsInline};
ghost use Rattle.fb_tape.specs.StoredFields.{scalar_in};

use byteorder::{ByteOrder, LittleEndian};
use fb_layout::{Layout, kind_in, layout_is_well_made};
use fb_schema::{Base, Kind, TypeId};
use fb_value::Value;
use std::alloc::AllocError;

/// The bits of a number in its bytes.
fn bits_of(base: Base, number: i128) -> u64
    requires { InRange base number }
    ensures fits { result < 256 ^ base_size base }
    ensures means { number ≡ scalar_of base result }
    ensures bit { IsBit base result }
{
    match base {
        Base::Bool | Base::U8 | Base::U16 | Base::U32 | Base::U64 => number as u64,
        Base::I8 => u64::from((number as i8).cast_unsigned()),
        Base::I16 => u64::from((number as i16).cast_unsigned()),
        Base::I32 => u64::from((number as i32).cast_unsigned()),
        Base::I64 => (number as i64).cast_unsigned(),
    }
}

/// Adds the bytes of a number.
pub(crate) fn push_number(bytes: &mut Vec<u8>, base: Base, number: i128) -> Result<(), AllocError>
    requires range { InRange base number }
    ensures adds { (L : LaidSchema) → OnOk result (AddsInline L (scalar_kind base) (a_number number)
        bytes.old.items bytes.new.items) }
    ensures kept { OnErr result (bytes.new.items ≡ bytes.old.items) }
{
    let bits = bits_of(base, number);
    let mut all = [0u8; 8];
    LittleEndian::write_u64(&mut all, bits);
    push_few(bytes, &all[..usize::from(base.size())])
}

/// Adds bytes, which are four mostly, or one, or none.
#[inline(always)]
pub(crate) fn push_few(bytes: &mut Vec<u8>, own: &[u8]) -> Result<(), AllocError>
    ensures items { bytes.new.items ≡ (if is_ok result then bytes.old.items ++ own.now else bytes.old.items) }
{
    match own {
        [] => Ok(()),
        [one] => {
            bytes.push(*one)?;
            Ok(())
        }
        [a, b, c, d] => {
            bytes.reserve(4)?;
            bytes.push_reserved(*a);
            bytes.push_reserved(*b);
            bytes.push_reserved(*c);
            bytes.push_reserved(*d);
            Ok(())
        }
        _ => bytes.extend_from_slice(own),
    }
}

/// Adds zeros.
fn push_zeros(bytes: &mut Vec<u8>, count: usize) -> Result<(), AllocError>
    requires few { count ≤ 65535 }
    ensures adds { OnOk result (bytes.new.items ≡ bytes.old.items ++ replicate count 0) }
    ensures kept { OnErr result (bytes.new.items ≡ bytes.old.items) }
{
    bytes.resize(bytes.len() + count, 0)
}

/// The basic type of a number's kind.
#[inline(always)]
pub(crate) fn scalar_base(layout: &Layout, kind: Kind) -> Option<Base>
    ensures { result ≡ scalar_in (one_of (kind_seen layout.now kind)) }
{
    match kind {
        Kind::Scalar(base) => Some(base),
        Kind::Enum(enumeration) => Some(layout.base_of(enumeration)),
        Kind::Code(_) => Some(Base::U8),
        Kind::Struct(_) | Kind::Table(_) | Kind::Union(_) | Kind::Text => None,
    }
}

/// Adds the bytes of a number or a struct.
#[inline(always)]
#[cycle(inline)]
pub(crate) fn push_inline(
    bytes: &mut Vec<u8>,
    layout: &Layout,
    kind: Kind,
    value: &Value,
) -> Result<(), AllocError>
    requires inline { IsInline layout.now (kind_seen layout.now kind) }
    requires fits { Fits layout.now (one_of (kind_seen layout.now kind)) (view value.now) }
    ensures adds { OnOk result (AddsInline layout.now (kind_seen layout.now kind) (view value.now)
        bytes.old.items bytes.new.items) }
    ensures kept { OnlyAdds bytes.old.items bytes.new.items }
{
    match (value, scalar_base(layout, kind), kind) {
        (Value::Number(number), Some(base), _) => push_number(bytes, base, *number),
        (Value::Fixed(parts), None, Kind::Struct(structure)) => {
            push_struct(bytes, layout, structure, parts)
        }
        _ => unreachable!(),
    }
}

/// Adds the fields of a struct, with the zeros before and after them.
#[cycle(inline)]
pub(crate) fn push_struct(
    bytes: &mut Vec<u8>,
    layout: &Layout,
    structure: TypeId,
    parts: &[Value],
) -> Result<(), AllocError>
    requires there { IsTrue (is_struct (body_at layout.now.schema structure.0)) }
    requires fits { PartsFit layout.now (parts_of layout.now structure.0) (parts_view parts.now) }
    ensures adds { OnOk result (AddsInline layout.now (struct_kind structure.0) (a_struct (parts_view parts.now))
        bytes.old.items bytes.new.items) }
    ensures kept { OnlyAdds bytes.old.items bytes.new.items }
{
    layout_is_well_made(layout);
    let fields = layout.parts_of(structure);
    let first = bytes.len();
    for k in 0..fields.len() {
        let kind = kind_in(fields[k].shape);
        let offset = layout.offset_of(structure, k as u16) as usize;
        push_zeros(bytes, offset - (bytes.len() - first))?;
        push_inline(bytes, layout, kind, &parts[k])?;
    }
    let size = layout.size_of(Kind::Struct(structure)) as usize;
    push_zeros(bytes, size - (bytes.len() - first))
}
