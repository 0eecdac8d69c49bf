// Step 4: the stem's biomass.
ghost use Rattle.std.specs.Prelude.{◌≡◌, ◌≤◌, pos};
ghost use Rattle.biomass.specs.Report.{report, refusal_number};
ghost use Rattle.biomass.specs.Ends.{range};
ghost use Rattle.biomass.specs.Stem.{stem, stem_ends, VL, VH};
ghost use Rattle.biomass.specs.Bounds.{greatest_volume};

use super::operand::{Diameter, Within};
use super::report::Refusal;
use super::units::{BiomassRange, Milligrams, Range};

// Pi is in units of 10^-8, d of 10^-4 m, and the basal area, a quarter of pi times d squared, of 10^-9 m².
const AREA_SCALE: u64 = 40_000_000;

// A line's tariff, the factor from merchantable to total volume and the specific gravity, both in hundredths.
type Tariff = Within<1, 50>;

type Factor = Within<100, 200>;

type Gravity = Within<1, 100>;

// Equation 5: the merchantable volume between two ends, in document 01's unit for VL and VH. Below 0.118288 m² of basal area the
// slope counts against the volume, so there the greater slope gives the low.
fn volume(tariff: Tariff, d: Diameter) -> Range<u64>
    ensures { (VL tariff.number d.number ≡ pos result.low) × (VH tariff.number d.number ≡ pos result.high) × (result.high ≤ greatest_volume) }
{
    let area = 314_159_265 * (d.number * d.number) / AREA_SCALE;
    let slope = 315_049_301 * (1_000_000_000 * tariff.number - 138_763_302) / 10_000_000_000;
    let base = 3_605_410_000_000_000 * tariff.number;
    if 118_288_000 <= area {
        let excess = area - 118_288_000;
        return Range {
            low: base + slope * excess,
            high: base + (slope + 1) * (excess + 1),
        };
    }
    let deficit = 118_288_000 - area;
    Range {
        low: base - (slope + 1) * deficit,
        high: base - slope * (deficit - 1),
    }
}

// The stem's biomass: volume times factor times gravity.
fn stem_in_range(tariff: Tariff, d: Diameter, factor: Factor, gravity: Gravity) -> BiomassRange
    ensures { result ≡ range (stem_ends tariff.number d.number factor.number gravity.number) }
{
    let v = volume(tariff, d);
    let low = v.low / 100_000_000;
    let high = v.high / 100_000_000 + 1;
    BiomassRange {
        low: Milligrams(low * factor.number * gravity.number / 10_000),
        high: Milligrams(high * factor.number * gravity.number / 10_000 + 1),
    }
}

// The biomass of a stem of the mean diameter d, UNITS_TO_CM to the cm, at a tariff; the factor and the gravity are in hundredths.
// Four operands and no struct, as the single figure has them in document 01 and in C; a tree's are in `AverageTree`.
#[tactic(auto, unfolding(crate::specs::Stem::stem))]
pub fn stem(tariff: u64, d: u64, factor: u64, gravity: u64) -> Result<BiomassRange, Refusal>
    ensures { report refusal_number result ≡ stem tariff d factor gravity }
{
    let tariff = Tariff::new(tariff)?;
    let d = Diameter::new(d)?;
    let factor = Factor::new(factor)?;
    let gravity = Gravity::new(gravity)?;
    Ok(stem_in_range(tariff, d, factor, gravity))
}
