// A line: what is noted of it while it is open, and the row that it leaves.
ghost use Rattle.std.specs.Prelude.{◌≡◌, ◌≤◌};
ghost use Rattle.biomass.specs.Report.{report, refusal_number, after, leaves};
ghost use Rattle.codec.specs.Refusal.{number};
ghost use Rattle.biomass.specs.Ends.{between};
ghost use Rattle.powers.specs.Diameter.{least_d, greatest_d};
ghost use Rattle.biomass.specs.Limits.{most_estimated};
ghost use Rattle.biomass.specs.Bounds.{Inside, greatest_row};
ghost use Rattle.line.specs.Line.{new_line, tariff_of, add_small, row_with, empty_row};
ghost use Rattle.line.specs.AnyLine.{add_trees, add_height, scaled, row_gaining, worked, some_row, small_row, line_row};

use super::row::Row;
use biomass::limits::{GREATEST_CARBON, MOST_ESTIMATED, MOST_HEIGHTS, MOST_MEASURED, MOST_SMALL};
use biomass::mean::mean;
use biomass::operand::check;
use biomass::small_trees::small_trees;
use biomass::tariff::{line_tariff, single_tariff};
use biomass::tree::{AverageTree, row_biomass};
use biomass::trees::trees;
use biomass::units::{BiomassRange, Milligrams};
use codec::command::Species;
use codec::refusal::Refusal;
use powers::diameter::UNITS_TO_CM;

// What the squares of a line add up to at most: no class is above 100 cm.
const MOST_SQUARES: u64 = 10_000 * MOST_MEASURED;

// And the tariffs of its height trees: none is above 50.
const MOST_TARIFFS: u64 = 50 * MOST_HEIGHTS;

// Measured trees: how many, and their classes in cm, squared and added.
#[derive(Clone, Copy, Default)]
pub struct Tally {
    pub n: u64,
    pub squares: u64,
}

// Height trees: how many, and their tariffs added.
#[derive(Clone, Copy, Default)]
pub struct Heights {
    pub number: u64,
    pub tariffs: u64,
}

// Small trees: the carbon of one in mg, and how many; a count of 0: none are given. No `Option`: step 3 makes 0 of a count of 0, and
// of another where the plots are far above the net area, as in no line that a book opens; so the row asks for the number 0 in any case.
#[derive(Clone, Copy, Default)]
pub struct SmallTrees {
    pub carbon: u64,
    pub count: u64,
}

#[derive(Clone, Copy)]
pub struct Line {
    pub stratum: u8,
    // The species' id, and what it was declared with.
    pub id: u8,
    pub species: Species,
    pub p: u32,
    pub q: u32,
    pub tally: Tally,
    pub heights: Heights,
    pub small: SmallTrees,
}

// The single tariff of a tree of a species.
fn tariff_of(s: Species, cm: u8, tenths: u16) -> Result<u64, biomass::report::Refusal>
    ensures { report refusal_number result ≡ tariff_of s cm tenths }
{
    single_tariff(s.constants, cm as u64, tenths as u64)
}

// The biomass of no tree.
fn no_biomass() -> BiomassRange
    ensures { result ≡ between 0 0 }
{
    BiomassRange {
        low: Milligrams(0),
        high: Milligrams(0),
    }
}

// Step 3, and whether the line may have so many.
fn scale(n: u64, p: u32, q: u32) -> Result<u64, Refusal>
    ensures { report number result ≡ scaled n p q }
{
    let number = trees(n, p as u64, q as u64)?;
    if MOST_ESTIMATED < number {
        return Err(Refusal::TooManyTrees);
    }
    Ok(number)
}

impl Line {
    // A line on which nothing is noted yet.
    pub fn new(stratum: u8, id: u8, species: Species, p: u32, q: u32) -> Self
        ensures { result ≡ new_line stratum id species p q }
    {
        Line {
            stratum,
            id,
            species,
            p,
            q,
            tally: Tally::default(),
            heights: Heights::default(),
            small: SmallTrees::default(),
        }
    }

    // So many trees of a class more.
    #[tactic(auto, unfolding(crate::specs::AnyLine::add_trees))]
    pub fn add_trees(&mut self, class: u8, count: u16) -> Result<(), Refusal>
        ensures { after number result self.new ≡ leaves self.old (add_trees class count self.old) }
    {
        let cm = class as u64;
        let trees = count as u64;
        check(7, cm, 100)?;
        if trees < 1 {
            return Err(Refusal::Operand);
        }
        if MOST_MEASURED - trees < self.tally.n {
            return Err(Refusal::Limit);
        }
        // No survey reaches a line of which this is true.
        if MOST_SQUARES < self.tally.squares {
            return Err(Refusal::Operand);
        }
        self.tally.n += trees;
        self.tally.squares += trees * (cm * cm);
        Ok(())
    }

    // One height tree more.
    #[tactic(auto, unfolding(crate::specs::AnyLine::add_height))]
    pub fn add_height(&mut self, cm: u8, tenths: u16) -> Result<(), Refusal>
        ensures { after number result self.new ≡ leaves self.old (add_height cm tenths self.old) }
    {
        let tariff = tariff_of(self.species, cm, tenths)?;
        if MOST_HEIGHTS <= self.heights.number {
            return Err(Refusal::Limit);
        }
        // No survey reaches a line of which this is true.
        if MOST_TARIFFS < self.heights.tariffs {
            return Err(Refusal::Operand);
        }
        self.heights.number += 1;
        self.heights.tariffs += tariff;
        Ok(())
    }

    // The small trees, which are given once.
    #[tactic(auto, unfolding(crate::specs::Line::add_small))]
    pub fn add_small(&mut self, carbon: u32, count: u32) -> Result<(), Refusal>
        ensures { after number result self.new ≡ leaves self.old (add_small carbon count self.old) }
    {
        let small = SmallTrees {
            carbon: carbon as u64,
            count: count as u64,
        };
        check(1, small.carbon, GREATEST_CARBON)?;
        check(1, small.count, MOST_SMALL)?;
        if 0 < self.small.count {
            return Err(Refusal::AlreadyGiven);
        }
        self.small = small;
        Ok(())
    }

    // The line's row with these figures.
    fn row_with(self, tariff: u8, d: u16, trees: u32, biomass: BiomassRange) -> Row
        ensures { result ≡ row_with self tariff d trees biomass }
    {
        Row {
            stratum: self.stratum,
            species: self.id,
            tariff,
            d,
            trees,
            biomass,
        }
    }

    // The row of a line of which nothing is estimated.
    pub fn empty_row(self) -> Row
        ensures { result ≡ empty_row self }
    {
        self.row_with(0, 0, 0, no_biomass())
    }

    // The row with these figures, to which the biomass of so many small trees is added.
    #[tactic(auto, unfolding(crate::specs::AnyLine::row_gaining))]
    fn row_gaining(
        self,
        tariff: u8,
        d: u16,
        trees: u32,
        measured: BiomassRange,
        small: u64,
    ) -> Result<Row, Refusal>
        requires { (measured.low.0 ≤ measured.high.0) × (measured.high.0 ≤ greatest_row) }
        ensures { report number result ≡ row_gaining self tariff d trees measured small }
    {
        if small == 0 {
            return Ok(self.row_with(tariff, d, trees, measured));
        }
        let gained = small_trees(small, self.small.carbon)?;
        // End by end, as in `biomass::tree::tree`, which adds three: a sum of ranges would have to ask for bounds of its own.
        let both = BiomassRange {
            low: Milligrams(measured.low.0 + gained.low.0),
            high: Milligrams(measured.high.0 + gained.high.0),
        };
        Ok(self.row_with(tariff, d, trees, both))
    }

    // The row of a line whose tariff, mean diameter, factor and numbers of measured and of small trees are known.
    #[tactic(auto, unfolding(crate::specs::AnyLine::worked))]
    fn worked(
        self,
        tariff: u64,
        d: u64,
        factor: u8,
        measured: u64,
        small: u64,
    ) -> Result<Row, Refusal>
        requires { Inside 1 tariff 50 × Inside least_d d greatest_d × (measured ≤ most_estimated) × (small ≤ most_estimated) }
        ensures { report number result ≡ worked self tariff d factor measured small }
    {
        let s = self.species;
        let average = AverageTree {
            tariff,
            d,
            factor: factor as u64,
            gravity: s.gravity as u64,
            crown: s.crown as u64,
            root: s.root as u64,
        };
        let both = measured + small;
        let biomass = row_biomass(measured, average)?;
        self.row_gaining(tariff as u8, d as u16, both as u32, biomass, small)
    }

    // The row of a line with measured trees and height trees, worked with the factor at its mean diameter.
    fn some_row(&self, factors: &[Option<u8>; 101]) -> Result<Row, Refusal>
        ensures { report number result ≡ some_row factors.now self.now }
    {
        let d = mean(self.tally.n, self.tally.squares)?;
        let cm = (d / UNITS_TO_CM) as usize;
        let factor = factors[cm].ok_or(Refusal::NoFactor)?;
        let measured = scale(self.tally.n, self.p, self.q)?;
        let small = scale(self.small.count, self.p, self.q)?;
        let tariff = line_tariff(self.heights.tariffs, self.heights.number)?;
        self.worked(tariff, d, factor, measured, small)
    }

    // The row of a line without measured trees.
    fn small_row(&self) -> Result<Row, Refusal>
        ensures { report number result ≡ small_row self.now }
    {
        let small = scale(self.small.count, self.p, self.q)?;
        self.row_gaining(0, 0, small as u32, no_biomass(), small)
    }

    // The line closed: its row.
    #[tactic(auto, unfolding(crate::specs::AnyLine::line_row))]
    pub fn row(&self, factors: &[Option<u8>; 101]) -> Result<Row, Refusal>
        ensures { report number result ≡ line_row factors.now self.now }
    {
        if self.tally.n == 0 {
            return self.small_row();
        }
        if self.heights.number == 0 {
            return Err(Refusal::NoHeightTree);
        }
        self.some_row(factors)
    }
}
