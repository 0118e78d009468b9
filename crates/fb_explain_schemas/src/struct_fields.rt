//! Fields of a struct that it can't have.
use fb_resolve::{Meaning, ResolvedDecl, ResolvedField, ResolvedStruct, ResolvedType, type_name};
use fb_schema::Kind;
use std::alloc::{AllocError, Global};

/// Why a struct can't be the type of a struct's field.
#[derive(Clone, Copy)]
pub(crate) enum Misplaced {
    /// It is the struct that has the field.
    InItself,
    /// It has that struct in turn, at any depth.
    InACircle,
    /// It is declared later.
    TooLate,
}

/// The number of the struct that a field is of.
fn struct_of(field: &ResolvedField<'_, '_>) -> Option<usize> {
    match field.meaning {
        Meaning::Known(Kind::Struct(number)) => Some(number.0 as usize),
        _ => None,
    }
}

/// The struct of a number.
fn struct_at<'r, 't, 'd, 's>(
    types: &'r [ResolvedType<'t, 'd, 's>],
    number: usize,
) -> Option<&'r ResolvedStruct<'d, 's>> {
    match &types.get(number)?.declaration {
        ResolvedDecl::Struct(declared) => Some(declared),
        _ => None,
    }
}

/// Structs that are to be looked through, each once.
#[derive(Drop)]
struct Pending {
    numbers: Vec<usize>,
    is_met: Vec<bool>,
}

impl Pending {
    /// None of this many.
    fn none(alloc: Global, len: usize) -> Result<Pending, AllocError> {
        let is_met = vec![in alloc; false; len]?;
        let numbers = Vec::new(alloc);
        Ok(Pending { numbers, is_met })
    }

    fn add(&mut self, number: usize) -> Result<(), AllocError> {
        if let Some(is_met) = self.is_met.get_mut(number)
            && !*is_met
        {
            *is_met = true;
            self.numbers.push(number)?;
        }
        Ok(())
    }

    fn add_fields(&mut self, fields: &[ResolvedField<'_, '_>]) -> Result<(), AllocError> {
        for field in fields {
            if let Some(number) = struct_of(field) {
                self.add(number)?;
            }
        }
        Ok(())
    }

    /// Looks through those that are left, and what they have inside.
    fn look_through(&mut self, types: &[ResolvedType<'_, '_, '_>]) -> Result<(), AllocError> {
        for _ in 0..types.len() {
            let Some(number) = self.numbers.pop() else {
                break;
            };
            if let Some(declared) = struct_at(types, number) {
                self.add_fields(declared.fields.as_slice())?;
            }
        }
        Ok(())
    }
}

/// Whether a struct has another in it, at any depth.
fn has_inside(
    alloc: Global,
    types: &[ResolvedType<'_, '_, '_>],
    outer: usize,
    inner: usize,
) -> Result<bool, AllocError> {
    let mut pending = Pending::none(alloc, types.len())?;
    pending.add(outer)?;
    pending.look_through(types)?;
    Ok(pending.is_met.get(inner).copied().unwrap_or(false))
}

/// Whether a field's type is named at an offset.
fn is_named_at(resolved: &ResolvedField<'_, '_>, offset: u64) -> bool {
    let field = resolved.field;
    type_name(&field.kind).at() == offset
}

/// The struct of the field of a struct whose type is named at an offset.
fn struct_named_at(declared: &ResolvedStruct<'_, '_>, offset: u64) -> Option<usize> {
    let mut fields = declared.fields.iter();
    struct_of(fields.find(|field| is_named_at(field, offset))?)
}

/// The numbers of a struct and of the struct that one of its fields is of, whose type is named at an offset.
fn numbers_at(types: &[ResolvedType<'_, '_, '_>], offset: u64) -> Option<(usize, usize)> {
    (0..types.len()).find_map(|number| {
        let inner = struct_named_at(struct_at(types, number)?, offset)?;
        Some((number, inner))
    })
}

/// Why the struct that is named at an offset can't be the type of the struct's field there.
pub(crate) fn misplaced_at(
    alloc: Global,
    types: &[ResolvedType<'_, '_, '_>],
    offset: u64,
) -> Result<Misplaced, AllocError> {
    match numbers_at(types, offset) {
        Some((outer, inner)) if inner == outer => Ok(Misplaced::InItself),
        Some((outer, inner)) if has_inside(alloc, types, inner, outer)? => {
            Ok(Misplaced::InACircle)
        }
        _ => Ok(Misplaced::TooLate),
    }
}
