// What a declaration, a factor, an opening and the end decline, in the papers' order, by the values that they look at of a
// survey. What a line's own commands decline stands with the line.
ghost use Rattle.std.specs.Prelude.{◌≡◌, ◌≤◌, IfOk, is_some};
ghost use Rattle.biomass.specs.Report.{report, gives};
ghost use Rattle.codec.specs.Refusal.{number};
ghost use Rattle.rules.specs.Checks.{species_in_range, declaring, giving, areas_in_range, opening, ending};

use biomass::limits::GREATEST_AREA;
use biomass::operand::check;
use biomass::whole::within;
use codec::command::Species;
use codec::refusal::Refusal;

// How many lines a book has at most.
pub const MOST_LINES: usize = 32;

// Whether a species' operands are in their ranges. The constants may be any.
fn species_in_range(id: u8, s: Species) -> bool
    ensures { result ≡ species_in_range id s }
{
    id <= 15 && s.crown <= 7 && s.root <= 5 && within(1, s.gravity as u64, 100)
}

// Whether the net area and the plots' are in their range.
fn areas_in_range(p: u32, q: u32) -> bool
    ensures { result ≡ areas_in_range p q }
{
    within(1, p as u64, GREATEST_AREA) && within(1, q as u64, GREATEST_AREA)
}

// 01: a species declared, by what stands at its id.
pub fn declaring(id: u8, species: Species, there: Option<Species>) -> Result<(), Refusal>
    ensures answer { report number result ≡ declaring id species (is_some there) (gives tt) }
    ensures place { IfOk result (λ _. id ≤ 15) }
{
    if !species_in_range(id, species) {
        return Err(Refusal::Operand);
    }
    if there.is_some() {
        return Err(Refusal::AlreadyGiven);
    }
    Ok(())
}

// 02: a factor given, by what stands at its whole cm. It looks like `declaring`, but its checks are other ones.
pub fn giving(cm: u8, factor: u8, there: Option<u8>) -> Result<(), Refusal>
    ensures answer { report number result ≡ giving cm factor (is_some there) (gives tt) }
    ensures place { IfOk result (λ _. cm ≤ 100) }
{
    check(7, cm as u64, 100)?;
    check(100, factor as u64, 200)?;
    if there.is_some() {
        return Err(Refusal::AlreadyGiven);
    }
    Ok(())
}

// 03: a line opened, by its areas, whether one is open, what stands at its species' id, whether it was closed before, and how many
// were: the species that it is opened with.
pub fn opening(
    p: u32,
    q: u32,
    is_open: bool,
    there: Option<Species>,
    before: bool,
    closed: usize,
) -> Result<Species, Refusal>
    ensures { report number result ≡ opening p q is_open there before closed }
{
    if !areas_in_range(p, q) {
        return Err(Refusal::Operand);
    }
    // Most often the two are exchanged, and hardly a tree would be estimated.
    if p < q {
        return Err(Refusal::PlotsAboveArea);
    }
    if is_open {
        return Err(Refusal::LineOpen);
    }
    let species = there.ok_or(Refusal::Undeclared)?;
    if before {
        return Err(Refusal::AlreadyGiven);
    }
    if MOST_LINES <= closed {
        return Err(Refusal::Limit);
    }
    Ok(species)
}

// 07: the book ended, by whether a line is open.
pub fn ending(line_open: bool) -> Result<(), Refusal>
    ensures { report number result ≡ ending line_open (gives tt) }
{
    if line_open {
        return Err(Refusal::LineOpen);
    }
    Ok(())
}
