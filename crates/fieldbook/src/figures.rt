// The figures of the crate `biomass`, a function to each, since C calls each by its own name.
ghost use Rattle.std.specs.Prelude.{◌≡◌, ℕ, [], ◌∷◌};
ghost use Rattle.biomass.specs.Report.{report, refusal_number};
ghost use Rattle.biomass.specs.Ends.{between};
ghost use Rattle.biomass.specs.Tariff.{single_tariff, line_tariff};
ghost use Rattle.biomass.specs.Mean.{mean};
ghost use Rattle.biomass.specs.Trees.{trees};
ghost use Rattle.biomass.specs.Stem.{stem};
ghost use Rattle.biomass.specs.Crown.{crown};
ghost use Rattle.biomass.specs.Root.{root};
ghost use Rattle.biomass.specs.Tree.{tree, row_biomass, average_tree};
ghost use Rattle.biomass.specs.SmallTrees.{small_trees};
ghost use Rattle.biomass.specs.SquareRoot.{square_root};
ghost use Rattle.biomass.specs.Project.{project};
ghost use Rattle.fieldbook.specs.Layout.{refusal, laid, figure, range_numbers, ends, carbon_ends};

use super::layout::{Laid, lay};
use biomass::crown::crown;
use biomass::mean::mean;
use biomass::project::project;
use biomass::root::root;
use biomass::small_trees::small_trees;
use biomass::square_root::square_root;
use biomass::stem::stem;
use biomass::tariff::{Constants, line_tariff, single_tariff};
use biomass::tree::{AverageTree, row_biomass, tree};
use biomass::trees::trees;
use biomass::units::{BiomassRange, Grams, Milligrams, Range};
use codec::refusal::Refusal;

impl Laid for u64 {
    type Numbers = u64;

    ghost numbers = { λ c. c };

    ghost zeros = { 0 };

    fn numbers(self) -> u64 {
        self
    }

    fn zeros() -> u64 {
        0
    }
}

// A mass in its unit, which the two ends of a range have in common.
trait Mass {
    ghost mass: { Self → ℕ };

    fn mass(self) -> u64
        ensures { result ≡ mass self };
}

impl Mass for Milligrams {
    ghost mass = { λ m. m.0 };

    fn mass(self) -> u64 {
        self.0
    }
}

impl Mass for Grams {
    ghost mass = { λ m. m.0 };

    fn mass(self) -> u64 {
        self.0
    }
}

impl<U: Mass> Laid for Range<U> {
    type Numbers = [u64; 2];

    ghost numbers = { range_numbers U.mass };

    ghost zeros = { 0 ∷ 0 ∷ [] };

    fn numbers(self) -> [u64; 2] {
        [self.low.mass(), self.high.mass()]
    }

    fn zeros() -> [u64; 2] {
        [0; 2]
    }
}

// A figure, with its refusals among the survey's.
fn lay_figure<A: Laid>(figure: Result<A, biomass::report::Refusal>, answer: &mut A::Numbers) -> u8
    ensures refusal { result ≡ refusal (report refusal_number figure) }
    ensures answer { answer.new ≡ laid A.numbers A.zeros (report refusal_number figure) }
{
    lay(figure.map_err(Refusal::from), answer)
}

// The five single figures of document 01. Here and below, C has a function of its own name for each, however alike they are.

#[unsafe(no_mangle)]
pub extern "C" fn fieldbook_single_tariff(
    c1: i32,
    c2: i32,
    c3: i32,
    c4: i32,
    cm: u64,
    tenths: u64,
    answer: &mut u64,
) -> u8
    ensures refusal { result ≡ refusal (single_tariff c1 c2 c3 c4 cm tenths) }
    ensures answer { answer.new ≡ figure (single_tariff c1 c2 c3 c4 cm tenths) }
{
    let constants = Constants { c1, c2, c3, c4 };
    lay_figure(single_tariff(constants, cm, tenths), answer)
}

#[unsafe(no_mangle)]
pub extern "C" fn fieldbook_mean(n: u64, squares: u64, answer: &mut u64) -> u8
    ensures refusal { result ≡ refusal (mean n squares) }
    ensures answer { answer.new ≡ figure (mean n squares) }
{
    lay_figure(mean(n, squares), answer)
}

#[unsafe(no_mangle)]
pub extern "C" fn fieldbook_stem(
    tariff: u64,
    d: u64,
    factor: u64,
    gravity: u64,
    answer: &mut [u64; 2],
) -> u8
    ensures refusal { result ≡ refusal (stem tariff d factor gravity) }
    ensures answer { answer.new ≡ ends (stem tariff d factor gravity) }
{
    lay_figure(stem(tariff, d, factor, gravity), answer)
}

#[unsafe(no_mangle)]
pub extern "C" fn fieldbook_crown(group: u64, d: u64, answer: &mut [u64; 2]) -> u8
    ensures refusal { result ≡ refusal (crown group d) }
    ensures answer { answer.new ≡ ends (crown group d) }
{
    lay_figure(crown(group, d), answer)
}

#[unsafe(no_mangle)]
pub extern "C" fn fieldbook_root(group: u64, d: u64, answer: &mut [u64; 2]) -> u8
    ensures refusal { result ≡ refusal (root group d) }
    ensures answer { answer.new ≡ ends (root group d) }
{
    lay_figure(root(group, d), answer)
}

// The steps between them.

#[unsafe(no_mangle)]
pub extern "C" fn fieldbook_line_tariff(sum: u64, number: u64, answer: &mut u64) -> u8
    ensures refusal { result ≡ refusal (line_tariff sum number) }
    ensures answer { answer.new ≡ figure (line_tariff sum number) }
{
    lay_figure(line_tariff(sum, number), answer)
}

#[unsafe(no_mangle)]
pub extern "C" fn fieldbook_trees(n: u64, p: u64, q: u64, answer: &mut u64) -> u8
    ensures refusal { result ≡ refusal (trees n p q) }
    ensures answer { answer.new ≡ figure (trees n p q) }
{
    lay_figure(trees(n, p, q), answer)
}

fn average_tree(
    tariff: u64,
    d: u64,
    factor: u64,
    gravity: u64,
    crown: u64,
    root: u64,
) -> AverageTree
    ensures { result ≡ average_tree tariff d factor gravity crown root }
{
    AverageTree {
        tariff,
        d,
        factor,
        gravity,
        crown,
        root,
    }
}

#[unsafe(no_mangle)]
pub extern "C" fn fieldbook_tree(
    tariff: u64,
    d: u64,
    factor: u64,
    gravity: u64,
    crown: u64,
    root: u64,
    answer: &mut [u64; 2],
) -> u8
    ensures refusal { result ≡ refusal (tree (average_tree tariff d factor gravity crown root)) }
    ensures answer { answer.new ≡ ends (tree (average_tree tariff d factor gravity crown root)) }
{
    lay_figure(
        tree(average_tree(tariff, d, factor, gravity, crown, root)),
        answer,
    )
}

#[unsafe(no_mangle)]
pub extern "C" fn fieldbook_row(
    trees: u64,
    tariff: u64,
    d: u64,
    factor: u64,
    gravity: u64,
    crown: u64,
    root: u64,
    answer: &mut [u64; 2],
) -> u8
    ensures refusal { result ≡ refusal (row_biomass trees (average_tree tariff d factor gravity crown root)) }
    ensures answer { answer.new ≡ ends (row_biomass trees (average_tree tariff d factor gravity crown root)) }
{
    lay_figure(
        row_biomass(trees, average_tree(tariff, d, factor, gravity, crown, root)),
        answer,
    )
}

// The small trees of document 02: so many hundredths of one, each of so many mg of carbon.
#[unsafe(no_mangle)]
pub extern "C" fn fieldbook_small_trees(number: u64, carbon: u64, answer: &mut [u64; 2]) -> u8
    ensures refusal { result ≡ refusal (small_trees number carbon) }
    ensures answer { answer.new ≡ ends (small_trees number carbon) }
{
    lay_figure(small_trees(number, carbon), answer)
}

#[unsafe(no_mangle)]
pub extern "C" fn fieldbook_project(low: u64, high: u64, trees: u64, answer: &mut [u64; 2]) -> u8
    ensures refusal { result ≡ refusal (project (between low high) trees) }
    ensures answer { answer.new ≡ carbon_ends (project (between low high) trees) }
{
    let sums = BiomassRange {
        low: Milligrams(low),
        high: Milligrams(high),
    };
    lay_figure(project(sums, trees), answer)
}

// The search that the root figure takes its power by, which document 02 has as a routine of its own. It refuses nothing.
#[unsafe(no_mangle)]
pub extern "C" fn fieldbook_square_root(x: u64, root: &mut u64, square: &mut u64)
    ensures root { root.new ≡ (square_root x).root }
    ensures square { square.new ≡ (square_root x).square }
{
    let found = square_root(x);
    *root = found.root;
    *square = found.square;
}
