// Document 02, Q-1: the biomass of a line's small trees.
ghost use Rattle.std.specs.Prelude.{◌≡◌};
ghost use Rattle.biomass.specs.Report.{report, refusal_number};
ghost use Rattle.biomass.specs.SmallTrees.{small_trees};

use super::limits::GREATEST_CARBON;
use super::operand::{Hundredths, Within};
use super::report::Refusal;
use super::units::{BiomassRange, Milligrams, Range};

// The carbon of one small tree, in mg.
type Carbon = Within<1, GREATEST_CARBON>;

// The biomass of so many hundredths of a small tree, each of so many mg of carbon: carbon is half of biomass.
#[tactic(auto, unfolding(crate::specs::SmallTrees::small_trees))]
pub fn small_trees(number: u64, carbon: u64) -> Result<BiomassRange, Refusal>
    ensures { report refusal_number result ≡ small_trees number carbon }
{
    let number = Hundredths::new(number)?;
    let carbon = Carbon::new(carbon)?;
    let low = number.number * (2 * carbon.number) / 100;
    Ok(Range::of_trees(number.number, Milligrams(low), Milligrams(low + 1)))
}
