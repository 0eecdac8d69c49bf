// Step 6: the root's biomass.
ghost use Rattle.std.specs.Prelude.{◌≡◌};
ghost use Rattle.std.proofs.Common.{rules};
ghost use Rattle.powers.specs.Diameter.{root_limit};
ghost use Rattle.biomass.specs.Report.{report, refusal_number};
ghost use Rattle.biomass.specs.Root.{root, root_table, y};

use super::operand::Diameter;
use super::part::{Part, biomass_of};
use super::report::Refusal;
use super::square_root::square_root;
use super::units::BiomassRange;
use powers::diameter::ROOT_LIMIT;

// Western red cedar and noble fir and Corsican pine, Norway spruce, grand fir and Scots pine and western hemlock,
// Douglas fir and Japanese larch and lodgepole pine, Sitka spruce, red alder.
// Each row: b of Table 5.2.4, a and b of Table 5.2.5, in mg.
const ROOT: [[i64; 3]; 6] = [
    [10_722, -82_602_857, 4_515_233],
    [11_883, -91_547_262, 5_004_152],
    [15_404, -118_673_233, 6_486_910],
    [17_326, -133_480_423, 7_296_300],
    [20_454, -157_578_701, 8_613_559],
    [22_700, -174_882_004, 9_559_391],
];

struct Roots;

impl Part for Roots {
    ghost table = { root_table };

    const LAST: u64 = 5;

    ghost LAST = { 5 };

    const LIMIT: u64 = ROOT_LIMIT;

    ghost LIMIT = { root_limit };

    ghost power = { y };

    const UNIT: u64 = 100_000;

    ghost UNIT = { 100000 };

    fn row(group: u64) -> [i64; 3] {
        ROOT[group as usize]
    }

    #[tactic(auto, using(crate::proofs::Fits::root_power_fits), unfolding(crate::specs::Root::y, crate::specs::SquareRoot::square_root))]
    fn power(d: Diameter) -> u64 {
        let d = d.number;
        square_root(d * d * d * d * d).root
    }

    ghost some_units = { Prim.search rules };
}

// The biomass of the root of a tree of the mean diameter d, UNITS_TO_CM to the cm.
#[tactic(auto, unfolding(crate::specs::Root::root, crate::specs::Root::root_ends))]
pub fn root(group: u64, d: u64) -> Result<BiomassRange, Refusal>
    ensures { report refusal_number result ≡ root group d }
{
    biomass_of::<Roots>(group, d)
}
