// Operands that have passed their checks.
ghost use Rattle.std.specs.Prelude.{◌≡◌, MatchResult, true, false, cond, Ok, Err};
ghost use Rattle.biomass.specs.Whole.{inside};
ghost use Rattle.biomass.specs.Bounds.{Inside};
ghost use Rattle.biomass.specs.declared.report.Refusal.TheVariants.{Operand};

use super::limits::MOST_ESTIMATED;
use super::report::Refusal;
use super::whole::within;
use powers::diameter::{GREATEST_D, LEAST_D};

// The check of an operand: from least to most, ends included.
pub fn check(least: u64, operand: u64, most: u64) -> Result<(), Refusal>
    ensures { result ≡ cond (inside least operand most) (Ok tt) (Err Operand) }
{
    if within(least, operand, most) {
        Ok(())
    } else {
        Err(Refusal::Operand)
    }
}

// A number from LEAST to MOST: what a step asks of an operand is told once, where it is checked.
#[derive(Clone, Copy)]
pub(crate) struct Within<const LEAST: u64, const MOST: u64> {
    pub(crate) number: u64,
    ghost in_range: { Inside LEAST number MOST },
}

// A mean diameter, UNITS_TO_CM to the cm.
pub(crate) type Diameter = Within<LEAST_D, GREATEST_D>;

// A number of trees, in hundredths.
pub(crate) type Hundredths = Within<0, MOST_ESTIMATED>;

impl<const LEAST: u64, const MOST: u64> Within<LEAST, MOST> {
    pub(crate) fn new(number: u64) -> Result<Within<LEAST, MOST>, Refusal>
        ensures { MatchResult result (λ w. (w.number ≡ number) × (inside LEAST number MOST ≡ true)) (λ why. (why ≡ Operand) × (inside LEAST number MOST ≡ false)) }
    {
        check(LEAST, number, MOST)?;
        Ok(Within { number })
    }
}
