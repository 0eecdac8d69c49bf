// Step 2: the mean diameter.
ghost use Rattle.std.specs.Prelude.{◌≡◌, ◌*◌};
ghost use Rattle.biomass.specs.Report.{report, refusal_number};
ghost use Rattle.biomass.specs.Mean.{mean, mean_of};
ghost use Rattle.biomass.specs.Bounds.{Inside};

use super::limits::MOST_MEASURED;
use super::operand::{Within, check};
use super::report::Refusal;
use powers::diameter::{GREATEST_D, LEAST_D};

// Squares of half a unit of d to the square cm.
const SQUARE_SCALE: u64 = 40_000;

// How many trees were measured.
type Measured = Within<1, MOST_MEASURED>;

// The mean itself: the interval of diameters that holds it is halved until one is left.
#[tactic(auto, using(crate::proofs::Law::Mean::mean_between))]
fn mean_of(n: Measured, squares: u64) -> u64
    requires { Inside (49 * n.number) squares (10000 * n.number) }
    ensures { result ≡ mean_of n.number squares }
{
    let mut low = LEAST_D;
    let mut above = GREATEST_D + 1;
    while 1 < above - low {
        let middle = low + (above - low) / 2;
        let side = 2 * middle - 1;
        if side * side * n.number <= SQUARE_SCALE * squares {
            low = middle;
        } else {
            above = middle;
        }
    }
    low
}

// The mean diameter d, UNITS_TO_CM to the cm, of n trees whose classes in cm, squared, add up to `squares`.
#[tactic(auto, unfolding(crate::specs::Mean::mean))]
pub fn mean(n: u64, squares: u64) -> Result<u64, Refusal>
    ensures { report refusal_number result ≡ mean n squares }
{
    let n = Measured::new(n)?;
    check(49 * n.number, squares, 10_000 * n.number)?;
    Ok(mean_of(n, squares))
}
