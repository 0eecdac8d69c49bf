// The project's two figures, in grams of carbon dioxide.
ghost use Rattle.std.specs.Prelude.{◌≡◌, ◌≤◌};
ghost use Rattle.biomass.specs.Report.{report, refusal_number};
ghost use Rattle.biomass.specs.Project.{project, dioxide, greatest_sum};

use super::operand::check;
use super::report::Refusal;
use super::units::{BiomassRange, CarbonRange, Grams, Milligrams, Range};

// The greatest sum of milligrams whose elevenfold is within 64 bits.
const GREATEST_SUM: u64 = 1_676_976_733_973_595_601;

// Whole grams of carbon dioxide in so much biomass: half of it is carbon, and a gram of carbon is 11/3 of dioxide.
fn dioxide(biomass: Milligrams) -> Grams
    requires { biomass.0 ≤ greatest_sum }
    ensures { result ≡ dioxide biomass }
{
    Grams(11 * biomass.0 / 6000)
}

// The project's figures from the sums of all rows' lows and highs and of all rows' trees in hundredths.
#[tactic(auto, unfolding(crate::specs::Project::project, crate::specs::Project::project_of))]
pub fn project(sums: BiomassRange, trees: u64) -> Result<CarbonRange, Refusal>
    ensures { report refusal_number result ≡ project sums trees }
{
    check(0, sums.low.0, GREATEST_SUM)?;
    check(0, sums.high.0, GREATEST_SUM)?;
    let low = dioxide(sums.low);
    let high = dioxide(sums.high);
    Ok(Range::of_trees(trees, low, Grams(high.0 + 1)))
}
