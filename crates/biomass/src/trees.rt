// Step 3: the number of trees that a line's measured trees stand for.
ghost use Rattle.std.specs.Prelude.{◌≡◌};
ghost use Rattle.biomass.specs.Report.{report, refusal_number};
ghost use Rattle.biomass.specs.Trees.{trees, trees_of};

use super::limits::{GREATEST_AREA, MOST_MEASURED};
use super::operand::Within;
use super::report::Refusal;

// A plot's area, or a line's.
type Area = Within<1, GREATEST_AREA>;

// Step 3's quotient.
fn trees_of(n: Within<0, MOST_MEASURED>, p: Area, q: Area) -> u64
    ensures { result ≡ trees_of n.number p.number q.number }
{
    (200 * n.number * p.number + q.number) / (2 * q.number)
}

// Estimated trees in hundredths: n measured ones, scaled by p over q.
#[tactic(auto, unfolding(crate::specs::Trees::trees))]
pub fn trees(n: u64, p: u64, q: u64) -> Result<u64, Refusal>
    ensures { report refusal_number result ≡ trees n p q }
{
    Ok(trees_of(Within::new(n)?, Area::new(p)?, Area::new(q)?))
}
