// Step 1: the tariff of one height tree, and of a line.
ghost use Rattle.std.specs.Prelude.{◌≡◌, ◌≤◌, ◌*◌, ◌^◌, pos, nat_abs, ◌*ℤ◌};
ghost use Rattle.biomass.specs.Whole.{◌div◌};
ghost use Rattle.biomass.specs.Report.{report, refusal_number};
ghost use Rattle.biomass.specs.Tariff.{tariff_sum, from_one_to_fifty, single_tariff, line_tariff};

use super::limits::MOST_HEIGHTS;
use super::operand::{Within, check};
use super::report::Refusal;

// The constants of Equation 2, in units of 10^-7.
#[derive(Clone, Copy, Debug, PartialEq, Eq)]
pub struct Constants {
    pub c1: i32,
    pub c2: i32,
    pub c3: i32,
    pub c4: i32,
}

// A height tree's diameter in cm, and its height in tenths of a metre.
type Cm = Within<10, 100>;

type Tenths = Within<1, 600>;

// A constant, so many times.
fn times(constant: i32, by: u64) -> i64
    requires { by ≤ 60000 }
    ensures { (result ≡ constant *ℤ pos by) × (nat_abs result ≤ 2 ^ 31 * 60000) }
{
    i64::from(constant) * (by as i64)
}

// Equation 2's sum, in units of 10^-8 of a tariff, with the half that rounds it.
fn tariff_sum(constants: Constants, cm: Cm, tenths: Tenths) -> i64
    ensures { result ≡ tariff_sum constants.c1 constants.c2 constants.c3 constants.c4 cm.number tenths.number }
{
    times(constants.c1, 10)
        + times(constants.c2, tenths.number)
        + times(constants.c3, 10 * cm.number)
        + times(constants.c4, cm.number * tenths.number)
        + 50_000_000
}

// A hundred-millionth, with the remainder dropped toward the lesser number, below 0 too. A routine of its own, since inside
// `single_tariff` its proof does not close.
fn hundred_millionth(sum: i64) -> i64
    ensures { result ≡ sum div 100000000 }
{
    sum.div_euclid(100_000_000)
}

// The tariff where it is one that document 01 takes.
fn one_to_fifty(tariff: i64) -> Result<u64, Refusal>
    ensures { report refusal_number result ≡ from_one_to_fifty tariff }
{
    match tariff {
        1..=50 => Ok(tariff as u64),
        _ => Err(Refusal::Tariff),
    }
}

// The tariff of a height tree: the species' constants, the diameter in cm, the height in tenths of a metre.
#[tactic(auto, unfolding(crate::specs::Tariff::single_tariff))]
pub fn single_tariff(constants: Constants, cm: u64, tenths: u64) -> Result<u64, Refusal>
    ensures { report refusal_number result ≡ single_tariff constants.c1 constants.c2 constants.c3 constants.c4 cm tenths }
{
    let cm = Cm::new(cm)?;
    let tenths = Tenths::new(tenths)?;
    one_to_fifty(hundred_millionth(tariff_sum(constants, cm, tenths)))
}

// The tariff of a line, from the sum of its height trees' tariffs and their number.
#[tactic(auto, unfolding(crate::specs::Tariff::line_tariff))]
pub fn line_tariff(sum: u64, number: u64) -> Result<u64, Refusal>
    ensures { report refusal_number result ≡ line_tariff sum number }
{
    check(1, number, MOST_HEIGHTS)?;
    check(number, sum, 50 * number)?;
    Ok(sum / number)
}
