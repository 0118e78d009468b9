//! Laws of layouts.
ghost use Rattle.std.specs.Prelude.{ℕ};
ghost use Rattle.fb_layout.specs.OneLayout.{NoLayoutWhereRefused, OneLayout};
ghost use Rattle.fb_layout.specs.Sizes.{IsLeastMultiple, ceil4};
ghost use Rattle.fb_layout.specs.Laws.{KindsAligned, TablesAligned, GreatestAligned, NoneAlignedToZero};
ghost use Rattle.fb_layout.specs.Laws.{SizesAreMultiples, SizesFit, StructsHaveFewParts};
ghost use Rattle.fb_layout.specs.WellMade.{IsWellMade};

use crate::layouts::Layout;

/// A layout is well made: its schema keeps what schemas keep, and its sizes are those of the definition.
pub fn layout_is_well_made(layout: &Layout)
    ensures { IsWellMade layout.now }
{
    let _schema = layout.schema();
}

/// A declared schema has one list of sizes at most.
pub fn one_layout()
    ensures { OneLayout }
{}

/// A schema that `lay` refuses has no layout.
pub fn no_layout_where_refused()
    ensures { NoLayoutWhereRefused }
{}

/// A width that is rounded to 4 is the least multiple of 4 that isn't below it.
pub fn least_multiple_of_four()
    ensures { (n : ℕ) → IsLeastMultiple 4 n (ceil4 n) }
{}

/// The alignment of what is stored is a power of two, 256 at most.
pub fn kinds_aligned()
    ensures { KindsAligned }
{}

/// The alignment of a table is a power of two, 256 at most.
pub fn tables_aligned()
    ensures { TablesAligned }
{}

/// The greatest alignment of a layout is a power of two, 256 at most.
pub fn greatest_aligned()
    ensures { GreatestAligned }
{}

/// No alignment is 0.
pub fn none_aligned_to_zero()
    ensures { NoneAlignedToZero }
{}

/// The size of what is stored is a multiple of its alignment.
pub fn sizes_are_multiples()
    ensures { SizesAreMultiples }
{}

/// Sizes fit 16 bits.
pub fn sizes_fit()
    ensures { SizesFit }
{}

/// A struct has 65,535 fields at most.
pub fn structs_have_few_parts()
    ensures { StructsHaveFewParts }
{}
