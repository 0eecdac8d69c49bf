// The two forms that a crown and a root take: a coefficient times a power of the diameter, and above a certain diameter a straight line.
ghost use Rattle.std.specs.Prelude.{◌≡◌, ◌<◌, ◌^◌, pos};
ghost use Rattle.biomass.specs.Ends.{range, curve, straight};
ghost use Rattle.biomass.specs.Bounds.{Rising};

use super::units::{BiomassRange, Milligrams};
use powers::diameter::UNITS_TO_CM;

// The coefficient times a power of which so many whole units are known, `unit` of them to the milligram.
pub(crate) fn on_curve(coefficient: u64, power: u64, unit: u64) -> BiomassRange
    requires { (0 < unit) × (coefficient < 2 ^ 20) × (power < 2 ^ 32) }
    ensures { result ≡ range (curve (pos coefficient) power unit) }
{
    BiomassRange {
        low: Milligrams(coefficient * power / unit),
        high: Milligrams(coefficient * (power + 1) / unit + 1),
    }
}

// The straight line from `start` milligrams, `rise` more to the cm. It has risen above 0 at every diameter that it is used for.
pub(crate) fn on_line(start: i64, rise: i64, d: u64) -> BiomassRange
    requires { Rising start rise d }
    ensures { result ≡ range (straight start rise d) }
{
    let risen = (UNITS_TO_CM as i64) * start + rise * (d as i64);
    let low = risen as u64 / UNITS_TO_CM;
    BiomassRange {
        low: Milligrams(low),
        high: Milligrams(low + 1),
    }
}
