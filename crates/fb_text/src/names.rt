//! The names of an enum's values.
ghost use Rattle.std.specs.Prelude.{◌≡◌, ◌≢◌, ◌<◌, AllPairs, map, option_copied, string_bytes, IsTrue, true};
ghost use Rattle.fb_schema.specs.Schema.{body_at, values_in};
ghost use Rattle.fb_schema.specs.Found.{name_numbered};
ghost use Rattle.fb_schema.specs.Indexed.{inner_numbers};
ghost use Rattle.fb_text.specs.Bits.{AreBitsNamed};
ghost use Rattle.fb_text.specs.Texts.{are_named};

use fb_schema::{Schema, TypeId};

/// The values of an enum; none of another type.
fn values_of(schema: &Schema, enumeration: TypeId) -> &[(String, i128)]
    ensures { map (λ v. (string_bytes v.0, v.1)) result.now
        ≡ values_in (body_at schema.now enumeration.0) }
{
    let Some(info) = schema.types().get(enumeration.0 as usize) else {
        return &[];
    };
    match info.body.as_enum() {
        Some((_, _, values)) => values,
        None => &[],
    }
}

/// No two values of an enum have the same number.
fn numbers_differ(schema: &Schema, enumeration: TypeId)
    ensures { AllPairs (λ a b. a ≢ b) (inner_numbers (body_at schema.now enumeration.0)) }
{
    let _types = schema.types();
}

/// An enum and its values, so that they are looked up once for all the names of a number.
#[derive(Clone, Copy)]
pub(crate) struct Names<'a> {
    pub schema: &'a Schema,
    pub enumeration: TypeId,
    values: &'a [(String, i128)],
    /// Each bit at a place below this is known to have a name.
    named: u32,
    ghost few: { named < 64 },
    ghost known: { AreBitsNamed (body_at schema.now enumeration.0) named },
    ghost same: { map (λ v. (string_bytes v.0, v.1)) values.now
        ≡ values_in (body_at schema.now enumeration.0) },
}

impl<'a> Names<'a> {
    /// Those of an enum.
    #[inline(always)]
    pub(crate) fn of(schema: &'a Schema, enumeration: TypeId) -> Names<'a>
        ensures schema { result.schema.now ≡ schema.now }
        ensures enumeration { result.enumeration ≡ enumeration }
    {
        Names {
            schema,
            enumeration,
            values: values_of(schema, enumeration),
            named: 0,
        }
    }

    /// These names, with the knowledge that each bit at a place below `named` has one.
    pub(crate) fn with_named_bits(self, named: u32) -> Names<'a>
        requires few { named < 64 }
        requires known { AreBitsNamed (body_at self.schema.now self.enumeration.0) named }
        ensures schema { result.schema.now ≡ self.entry.schema.now }
        ensures enumeration { result.enumeration ≡ self.entry.enumeration }
    {
        Names {
            schema: self.schema,
            enumeration: self.enumeration,
            values: self.values,
            named,
        }
    }

    /// Whether each bit that is set is known to have a name.
    #[inline(always)]
    pub(crate) fn are_known(&self, bits: u64) -> bool
        ensures { IsTrue result
            → are_named (name_numbered (body_at self.now.schema.now self.now.enumeration.0)) 64 1 bits ≡ true }
    {
        bits >> self.named == 0
    }

    /// The name of a number. The value at a place is tried first.
    #[inline(always)]
    pub(crate) fn name(self, number: i128, place: usize) -> Option<&'a str>
        ensures { option_copied result
            ≡ name_numbered (body_at self.entry.schema.now self.entry.enumeration.0) number }
    {
        numbers_differ(self.schema, self.enumeration);
        if let Some(value) = self.values.get(place)
            && value.1 == number
        {
            return Some(value.0.as_str());
        }
        self.schema.name_of_number(self.enumeration, number)
    }
}
