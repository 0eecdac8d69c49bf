// Step 5: the crown's biomass.
ghost use Rattle.std.specs.Prelude.{◌≡◌};
ghost use Rattle.std.proofs.Common.{rules};
ghost use Rattle.powers.specs.Diameter.{crown_limit};
ghost use Rattle.powers.specs.Crown.{w};
ghost use Rattle.biomass.specs.Report.{report, refusal_number};
ghost use Rattle.biomass.specs.Crown.{crown, crown_table};

use super::operand::Diameter;
use super::part::{Part, biomass_of};
use super::report::Refusal;
use super::units::BiomassRange;
use powers::crown::crown_power;
use powers::diameter::CROWN_LIMIT;

// Larches, Corsican pine, lodgepole pine, Scots pine, firs and spruces and cedars and hemlocks, Douglas fir, beech, oak.
// Each row: k of Table 5.2.2 in 10^-10 t, a and b of Table 5.2.3 in mg.
const CROWN: [[i64; 3]; 8] = [
    [438_717, -129_046_967, 5_039_011],
    [122_645, -299_529_453, 9_948_982],
    [176_287, -430_536_496, 14_300_429],
    [161_411, -394_205_622, 13_093_685],
    [144_620, -353_197_843, 11_731_597],
    [168_602, -411_767_824, 13_677_021],
    [188_154, -459_518_648, 15_263_082],
    [168_513, -411_550_464, 13_669_801],
];

struct Crowns;

impl Part for Crowns {
    ghost table = { crown_table };

    const LAST: u64 = 7;

    ghost LAST = { 7 };

    const LIMIT: u64 = CROWN_LIMIT;

    ghost LIMIT = { crown_limit };

    ghost power = { w };

    const UNIT: u64 = 1_000_000;

    ghost UNIT = { 1000000 };

    fn row(group: u64) -> [i64; 3] {
        CROWN[group as usize]
    }

    #[tactic(auto, using(crate::proofs::Fits::crown_power_fits))]
    fn power(d: Diameter) -> u64 {
        crown_power(d.number)
    }

    ghost some_units = { Prim.search rules };
}

// The biomass of the crown of a tree of the mean diameter d, UNITS_TO_CM to the cm.
#[tactic(auto, unfolding(crate::specs::Crown::crown, crate::specs::Crown::crown_ends))]
pub fn crown(group: u64, d: u64) -> Result<BiomassRange, Refusal>
    ensures { report refusal_number result ≡ crown group d }
{
    biomass_of::<Crowns>(group, d)
}
