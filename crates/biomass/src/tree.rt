// Step 7: one tree, and one row.
ghost use Rattle.std.specs.Prelude.{◌≡◌};
ghost use Rattle.biomass.specs.Report.{report, refusal_number};
ghost use Rattle.biomass.specs.Tree.{tree, row_biomass};

use super::crown::crown;
use super::operand::Hundredths;
use super::report::Refusal;
use super::root::root;
use super::stem::stem;
use super::units::{BiomassRange, Milligrams, Range};

// The tree of a line's mean diameter: all that steps 4 to 6 are worked from.
#[derive(Clone, Copy)]
pub struct AverageTree {
    // The line tariff, 1 to 50.
    pub tariff: u64,
    // The mean diameter d, UNITS_TO_CM to the cm, LEAST_D to GREATEST_D.
    pub d: u64,
    // Total over merchantable stem volume, in hundredths, 100 to 200.
    pub factor: u64,
    // Specific gravity in hundredths, 1 to 100.
    pub gravity: u64,
    // Crown group, 0 to 7.
    pub crown: u64,
    // Root group, 0 to 5.
    pub root: u64,
}

// The biomass of one tree: its stem, crown and root together.
#[tactic(auto, using(crate::proofs::Fits::tree_fits), unfolding(crate::specs::Tree::tree))]
pub fn tree(t: AverageTree) -> Result<BiomassRange, Refusal>
    ensures { report refusal_number result ≡ tree t }
{
    let s = stem(t.tariff, t.d, t.factor, t.gravity)?;
    let c = crown(t.crown, t.d)?;
    let r = root(t.root, t.d)?;
    Ok(BiomassRange {
        low: Milligrams(s.low.0 + c.low.0 + r.low.0),
        high: Milligrams(s.high.0 + c.high.0 + r.high.0),
    })
}

// The biomass of a row: so many hundredths of a tree, each the average one.
#[tactic(auto, using(crate::proofs::Fits::row_fits), unfolding(crate::specs::Tree::row_biomass))]
pub fn row_biomass(trees: u64, t: AverageTree) -> Result<BiomassRange, Refusal>
    ensures { report refusal_number result ≡ row_biomass trees t }
{
    let trees = Hundredths::new(trees)?;
    let m = tree(t)?;
    let low = trees.number * m.low.0 / 100;
    let high = trees.number * m.high.0 / 100 + 1;
    Ok(Range::of_trees(trees.number, Milligrams(low), Milligrams(high)))
}
