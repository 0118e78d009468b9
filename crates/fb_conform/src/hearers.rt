//! What the differences between two schemas are reported to.
ghost use Rattle.std.specs.Prelude.{⊤, ◌≡◌, Bool, true, false, List, [], ◌∷◌, ◌++◌, map, IfErr, OnOk, refl};
ghost use Rattle.fb_conform.specs.declared.names.MovedName.{MovedName};
ghost use Rattle.fb_conform.specs.declared.difference.Difference.{Difference};
ghost use Rattle.fb_conform.specs.declared.difference.Difference.TheVariants.{Breach as Broken, Moved};
ghost use Rattle.fb_conform.specs.Listed.{is_breach, is_name};

use crate::breaches::Breach;
use crate::difference::Difference;
use crate::names::MovedName;
use std::alloc::AllocError;

/// Takes differences, one after another, until it stops.
pub(crate) trait DifferenceHearer {
    type Error;

    /// Whether it wants moved names; otherwise they aren't looked up.
    const WANTS_NAMES: bool;

    ghost WANTS_NAMES: { Bool };

    // Which differences it keeps; it ignores the others.
    ghost wants: { Difference → Bool };

    // What it kept.
    ghost heard: { Self → List Difference };

    // By what error it stops at a difference, if it had kept these before.
    ghost stops: { List Difference → Difference → Self.Error → Type 0 };

    /// Reports one more difference to it.
    fn hear(&mut self, difference: Difference) -> Result<(), Self::Error>
        ensures kept { OnOk result (wants difference ≡ true
            → heard self.new ≡ heard self.old ++ difference ∷ []) }
        ensures ignored { OnOk result (wants difference ≡ false → heard self.new ≡ heard self.old) }
        ensures stopped { IfErr result (stops (heard self.old) difference) };

    ghost names: { (m : MovedName) → wants (Moved m) ≡ WANTS_NAMES };
}

/// Stops at the first breach.
#[derive(Drop)]
pub(crate) struct FirstBreach;

impl DifferenceHearer for FirstBreach {
    type Error = Breach;

    const WANTS_NAMES: bool = false;

    ghost WANTS_NAMES = { false };

    ghost wants = { is_breach };

    ghost heard = { λ first. [] };

    ghost stops = { λ before difference error. (before ≡ []) × (difference ≡ Broken error) };

    fn hear(&mut self, difference: Difference) -> Result<(), Breach> {
        match difference {
            Difference::Breach(breach) => Err(breach),
            Difference::Moved(_) => Ok(()),
        }
    }

    ghost names = { λ m. refl };
}

/// Lists each breach, and stops where memory runs out.
impl DifferenceHearer for Vec<Breach> {
    type Error = AllocError;

    const WANTS_NAMES: bool = false;

    ghost WANTS_NAMES = { false };

    ghost wants = { is_breach };

    ghost heard = { λ list. map Broken list.items };

    ghost stops = { λ before difference error. ⊤ };

    fn hear(&mut self, difference: Difference) -> Result<(), AllocError> {
        if let Difference::Breach(breach) = difference {
            self.push(breach)?;
        }
        Ok(())
    }

    ghost names = { λ m. refl };
}

/// Lists each moved name, and stops where memory runs out.
impl DifferenceHearer for Vec<MovedName> {
    type Error = AllocError;

    const WANTS_NAMES: bool = true;

    ghost WANTS_NAMES = { true };

    ghost wants = { is_name };

    ghost heard = { λ list. map Moved list.items };

    ghost stops = { λ before difference error. ⊤ };

    fn hear(&mut self, difference: Difference) -> Result<(), AllocError> {
        if let Difference::Moved(name) = difference {
            self.push(name)?;
        }
        Ok(())
    }

    ghost names = { λ m. refl };
}

/// Lists each difference, and stops where memory runs out.
impl DifferenceHearer for Vec<Difference> {
    type Error = AllocError;

    const WANTS_NAMES: bool = true;

    ghost WANTS_NAMES = { true };

    ghost wants = { λ difference. true };

    ghost heard = { λ list. list.items };

    ghost stops = { λ before difference error. ⊤ };

    fn hear(&mut self, difference: Difference) -> Result<(), AllocError> {
        self.push(difference)?;
        Ok(())
    }

    ghost names = { λ m. refl };
}
