// A part of a tree that is worked by groups, the crown and the root: on a curve up to some diameter, and on a straight line above it.
ghost use Rattle.std.specs.Prelude.{◌≡◌, ◌≤◌, ◌<◌, ◌^◌, ℕ, ℤ, List, [], get_or};
ghost use Rattle.biomass.specs.Report.{report, refusal_number};
ghost use Rattle.biomass.specs.Ends.{range, part, part_ends};
ghost use Rattle.biomass.specs.Bounds.{SoundRow};

use super::ends::{on_curve, on_line};
use super::operand::{Diameter, check};
use super::report::Refusal;
use super::units::BiomassRange;

// What such a part is worked from. A group's row is the coefficient of its curve, and the start and the rise of its line.
pub(crate) trait Part {
    // The rows of the groups, which are numbered from 0 to LAST.
    ghost table: { List (List ℤ) };

    const LAST: u64;

    ghost LAST: { ℕ };

    // The greatest d on the curve.
    const LIMIT: u64;

    ghost LIMIT: { ℕ };

    // The whole units of a power of d, and how many of them, times the coefficient, make a milligram.
    ghost power: { ℕ → ℕ };

    const UNIT: u64;

    ghost UNIT: { ℕ };

    // A group's row, whose coefficient is small, and whose line has risen above 0 past the curve.
    fn row(group: u64) -> [i64; 3]
        requires { group ≤ LAST }
        ensures { (result ≡ get_or table group []) × SoundRow LIMIT result };

    // The power of a diameter on the curve.
    fn power(d: Diameter) -> u64
        requires { d.number ≤ LIMIT }
        ensures { (result ≡ power d.number) × (result < 2 ^ 32) };

    ghost some_units: { 0 < UNIT };
}

// The part's biomass where the operands are in their ranges.
fn part_in_range<P: Part>(group: u64, d: Diameter) -> BiomassRange
    requires { group ≤ P.LAST }
    ensures { result ≡ range (part_ends P.table P.LIMIT P.power P.UNIT group d.number) }
{
    let [coefficient, start, rise] = P::row(group);
    if d.number <= P::LIMIT {
        on_curve(coefficient as u64, P::power(d), P::UNIT)
    } else {
        on_line(start, rise, d.number)
    }
}

// The biomass of the part of a tree of the mean diameter d, UNITS_TO_CM to the cm.
pub(crate) fn biomass_of<P: Part>(group: u64, d: u64) -> Result<BiomassRange, Refusal>
    ensures { report refusal_number result ≡ part P.LAST (part_ends P.table P.LIMIT P.power P.UNIT) group d }
{
    check(0, group, P::LAST)?;
    Ok(part_in_range::<P>(group, Diameter::new(d)?))
}
