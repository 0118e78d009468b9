//! Enums' values with their numbers, and these by their names.
ghost use Rattle.std.specs.Prelude.{◌≡◌, ◌≤◌, ◌+◌, ◌*◌, ℕ, List, Option, None, Some, IfOk, OnOk, if◌then◌else◌, map};
ghost use Rattle.std.specs.Prelude.{string_bytes};
ghost use Rattle.std.specs.Int.RustNames.{unsigned_abs};
ghost use Rattle.std.specs.Option.{option_and_then, option_copied, option_or, is_some};
ghost use Rattle.std.specs.Str.{bytes_eq};
ghost use Rattle.fb_syntax.specs.Integers.{greatest_magnitude};
ghost use Rattle.fb_schema.specs.Alignments.{base_size};
ghost use Rattle.fb_schema.specs.Schema.{Name};
ghost use Rattle.fb_resolve.specs.Outline.{TypeRead};
ghost use Rattle.fb_resolve.specs.declared.namespaces.path_tree.PathTree.{PathTree};
ghost use Rattle.fb_resolve.specs.Meaning.{meaning_of};
ghost use Rattle.fb_resolve.specs.Paths.{names_used, IsNoted, AreUses};
ghost use Rattle.fb_resolve.specs.EnumValues.{integer_type, enum_values, name_of_value, value_over};
ghost use Rattle.fb_resolve.specs.RepeatedNames.{repeated_names};
ghost use Rattle.fb_resolve.specs.EnumValues.{values_over, number_named, number_of, IndexesValues};
ghost use Rattle.fb_resolve.specs.EnumValues.{value_number, may_be_written, written_number, resolved_values};

use crate::attributes::has_attribute;
use crate::meanings::Meaning;
use crate::outline::TypeUse;
use crate::resolved::ResolvedValue;
use fb_index::HashKey;
use fb_schema::{Base, Kind};
use fb_syntax::{BuiltInAttribute, EnumValue, TypeDecl};
use indexmap::IndexMap;
use std::alloc::{AllocError, Global};
use std::marker::Model;

/// What an enum is over, if that is an integer type, whether it has `bit_flags`, and its values; no
/// type and none of what is no enum.
#[derive(Drop)]
pub struct EnumValues<'d, 's> {
    pub base: Option<Base>,
    pub bit_flags: bool,
    pub values: Vec<ResolvedValue<'d, 's>>,
    /// Of each value whether one before it has its name.
    pub repeats: Vec<bool>,
    /// The number of the first value of each name.
    pub(crate) numbers: IndexMap<&'s str, i128, HashKey>,
}

impl<'d, 's> Model for EnumValues<'d, 's> {
    ghost use Rattle.std.specs.Prelude.{◌≡◌};
    ghost use Rattle.fb_resolve.specs.ResolvedFields.{EnumValues as Values};
    ghost use Rattle.fb_resolve.specs.EnumValues.{name_of_value, values_over, IndexesValues};
    ghost use Rattle.fb_resolve.specs.RepeatedNames.{repeated_names};

    ghost Value = { Values };

    ghost view = { λ e. record { base = e.base; bit_flags = e.bit_flags; values = e.values.items } };

    ghost invariant = { λ e. IndexesValues e.numbers (values_over e.base e.bit_flags e.values.items)
        × (e.repeats.items ≡ repeated_names name_of_value e.values.items) };
}

impl<'d, 's> EnumValues<'d, 's> {
    /// The values of a type in the text of a key, of whose names this is noted. The only error is a
    /// refused allocation.
    pub(crate) fn of(
        alloc: Global,
        key: HashKey,
        declaration: &'d TypeDecl<'s>,
        uses: &[TypeUse],
    ) -> Result<EnumValues<'d, 's>, AllocError>
        requires { (used : PathTree) × AreUses used uses.now (names_used declaration.now) }
        ensures { (types : List TypeRead) (scope : Option Name)
            → IfOk result (λ e. e ≡ enum_values types scope declaration.now) }
    {
        let TypeDecl::Enum(read) = declaration else {
            return Ok(EnumValues {
                base: None,
                bit_flags: false,
                values: Vec::new(alloc),
                repeats: Vec::new(alloc),
                numbers: IndexMap::with_hasher(alloc, key),
            });
        };
        let base = underlying(uses[0]);
        let bit_flags = has_attribute(BuiltInAttribute::BitFlags, read.attributes.as_slice());
        let values = resolved_values(alloc, read.values.as_slice())?;
        let over = base.unwrap_or(Base::U8);
        let (repeats, numbers) = numbers_over(alloc, key, over, bit_flags, values.as_slice())?;
        Ok(EnumValues {
            base,
            bit_flags,
            values,
            repeats,
            numbers,
        })
    }

    /// The number of the first value of a name, which may be missing.
    pub(crate) fn number(&self, name: Option<&str>) -> Option<i128>
        ensures { result ≡ option_and_then
            (number_named (values_over self.now.base self.now.bit_flags self.now.values))
            (option_copied name.entry) }
    {
        self.numbers.get(name?).copied()
    }
}

/// The underlying type of an enum of whose name this is noted, if it is an integer type. The name
/// alone tells, whatever types the text declares.
#[tactic(auto, unfolding(crate::specs::Meaning::meaning_of))]
fn underlying(noted: TypeUse) -> Option<Base>
    ensures { (used : PathTree) (types : List TypeRead) (scope : Option Name) (name : Name)
        → IsNoted used noted name → result ≡ integer_type (meaning_of types scope name) }
{
    match noted {
        TypeUse::Basic(basic) => integer_type(basic.meaning()),
        TypeUse::Named(_) => None,
    }
}

/// Notes the number of a name that has none yet; returns whether it had one, which then stays.
fn note_number<'s>(
    numbers: &mut IndexMap<&'s str, i128, HashKey>,
    name: &'s str,
    number: i128,
) -> Result<bool, AllocError>
    ensures again { IfOk result (λ again. again ≡ is_some (number_of numbers.old name.now)) }
    ensures numbers { (other : Name) → OnOk result (number_of numbers.new other
        ≡ option_or (number_of numbers.old other) (if bytes_eq other name.now then Some number else None)) }
{
    let first = numbers.insert(name, number)?;
    if let Some(first) = first {
        numbers.insert(name, first)?;
    }
    Ok(first.is_some())
}

/// Of each value whether one before it has its name, and the numbers that they have in an enum over
/// a type, by their names, of which the first stands.
#[tactic(auto, unfolding(crate::specs::EnumValues::number_named))]
fn numbers_over<'s>(
    alloc: Global,
    key: HashKey,
    base: Base,
    flags: bool,
    values: &[ResolvedValue<'_, 's>],
) -> Result<(Vec<bool>, IndexMap<&'s str, i128, HashKey>), AllocError>
    ensures repeats { IfOk result
        (λ n. n.0.items ≡ repeated_names name_of_value values.now) }
    ensures numbers { IfOk result (λ n. IndexesValues n.1 (map (value_over base flags) values.now)) }
{
    let mut repeats = Vec::with_capacity(alloc, values.len())?;
    let mut numbers = IndexMap::with_capacity_and_hasher(alloc, values.len(), key)?;
    for resolved in values {
        let value = resolved.value;
        let number = value_number(base, flags, resolved.number);
        repeats.push_reserved(note_number(&mut numbers, value.name.text, number)?);
    }
    Ok((repeats, numbers))
}

/// An integer type, which a `bool` isn't.
pub fn integer_type(meaning: Meaning) -> Option<Base>
    ensures { result ≡ integer_type meaning }
{
    match meaning {
        Meaning::Known(Kind::Scalar(Base::Bool)) => None,
        Meaning::Known(Kind::Scalar(base)) => Some(base),
        _ => None,
    }
}

/// How many bits the numbers of a type have.
pub fn bits_of(base: Base) -> u8
    ensures bits { result ≡ 8 * base_size base }
    ensures few { result ≤ 64 }
{
    match base {
        Base::Bool | Base::I8 | Base::U8 => 8,
        Base::I16 | Base::U16 => 16,
        Base::I32 | Base::U32 => 32,
        Base::I64 | Base::U64 => 64,
    }
}

/// The number that a value has where this one is written.
pub(crate) fn value_number(base: Base, flags: bool, number: i128) -> i128
    ensures { result ≡ value_number base flags number }
{
    match u128::try_from(number) {
        Ok(bit) if flags && bit < u128::from(bits_of(base)) => 1 << bit,
        _ => number,
    }
}

/// Whether a number may be written in an enum over a type.
pub fn may_be_written(base: Base, flags: bool, number: i128) -> bool
    ensures { result ≡ may_be_written base flags number }
{
    if flags {
        number >= 0 && number < i128::from(bits_of(base))
    } else {
        base.holds(number)
    }
}

/// The number that is written for a value, or else the next one.
fn written_number(next: i128, value: &EnumValue<'_>) -> i128
    ensures number { result ≡ written_number next value.now }
    ensures near { (past : ℕ) → unsigned_abs next ≤ greatest_magnitude + past
        → unsigned_abs result ≤ greatest_magnitude + past }
{
    match &value.number {
        Some(number) => number.value(),
        None => next,
    }
}

/// The values of an enum with their numbers. The only error is a refused allocation.
#[tactic(auto, unfolding(crate::specs::EnumValues::values_from))]
pub(crate) fn resolved_values<'d, 's>(
    alloc: Global,
    values: &'d [EnumValue<'s>],
) -> Result<Vec<ResolvedValue<'d, 's>>, AllocError>
    ensures { IfOk result (λ r. r.items ≡ resolved_values values.now) }
{
    let mut resolved = Vec::with_capacity(alloc, values.len())?;
    let mut next = 0;
    for value in values {
        let number = written_number(next, value);
        resolved.push_reserved(ResolvedValue { value, number });
        next = number + 1;
    }
    Ok(resolved)
}

fn value_over(
    alloc: Global,
    base: Base,
    flags: bool,
    resolved: &ResolvedValue<'_, '_>,
) -> Result<(String, i128), AllocError>
    ensures { IfOk result (λ v. (string_bytes v.0, v.1) ≡ value_over base flags resolved.now) }
{
    let value = resolved.value;
    let name = String::from_str(alloc, value.name.text)?;
    Ok((name, value_number(base, flags, resolved.number)))
}

/// The names and numbers that these values have in an enum over a type, with `bit_flags` or
/// without. The only error is a refused allocation.
pub fn values_over(
    alloc: Global,
    base: Option<Base>,
    flags: bool,
    values: &[ResolvedValue<'_, '_>],
) -> Result<Vec<(String, i128)>, AllocError>
    ensures { IfOk result
        (λ r. map (λ v. (string_bytes v.0, v.1)) r.items ≡ values_over base flags values.now) }
{
    let base = base.unwrap_or(Base::U8);
    let mut read = Vec::with_capacity(alloc, values.len())?;
    for resolved in values {
        read.push_reserved(value_over(alloc, base, flags, resolved)?);
    }
    Ok(read)
}
