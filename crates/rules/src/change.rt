// What a command changes, decided without a survey on the few values that it looks at of one. `Survey::take` makes the same checks
// and changes the survey in its place; that deciding and then storing the change comes to the same is survey's Law.Change.
ghost use Rattle.std.specs.Prelude.{◌≡◌, is_some};
ghost use Rattle.biomass.specs.Report.{report, gives};
ghost use Rattle.codec.specs.Refusal.{number};
ghost use Rattle.line.specs.Line.{factor_at, add_small};
ghost use Rattle.line.specs.AnyLine.{add_trees, add_height};
ghost use Rattle.rules.specs.Checks.{declaring, giving, any_line};
ghost use Rattle.rules.specs.Change.{named, declared_at, opens, updates, closes, ends, decided};

use super::checks::{MOST_LINES, declaring, ending, giving, opening};
use codec::command::{Command, Species};
use codec::refusal::Refusal;
use line::line::Line;
use line::row::Row;

// What a taken command changes.
#[derive(Clone, Copy)]
pub enum Change {
    // A species declared.
    Species(u8, Species),
    // A factor given, at a whole cm.
    Factor(u8, u8),
    // The line that is open from here on.
    Line(Line),
    // A row more, and no line open.
    Row(Row),
    End,
}

// What a command names: a species' id, or the stratum and the species of a line.
#[derive(Clone, Copy)]
pub enum Named {
    Nothing,
    Species(u8),
    Line { stratum: u8, species: u8 },
}

// What a command looks at of a survey, besides the open line and the factors.
#[derive(Clone, Copy)]
pub struct Seen {
    // What the species that it names is declared with, where it is.
    pub there: Option<Species>,
    // Whether the line that it names was closed before.
    pub before: bool,
    // How many lines are closed.
    pub closed: usize,
    // Whether the book has ended.
    pub ended: bool,
}

// A declaration names a species, and an opening a line.
pub fn names(command: Command) -> Named
    ensures { result ≡ named command }
{
    match command {
        Command::Species(id, _) => Named::Species(id),
        Command::Open {
            stratum,
            species,
            ..
        } => Named::Line { stratum, species },
        _ => Named::Nothing,
    }
}

// Whether a line of this stratum and species has its row among these.
pub fn any_line(rows: &[Row], stratum: u8, id: u8) -> bool
    ensures { result ≡ any_line stratum id rows.now }
{
    rows.iter()
        .any(|row| row.stratum == stratum && row.species == id)
}

// What a species is declared with, by what is seen of it: none above 15 is declared.
fn declared_at(id: u8, there: Option<Species>) -> Option<Species>
    ensures { result ≡ declared_at id there }
{
    if 15 < id {
        return None;
    }
    there
}

// 01: declares a species.
fn decide_species(id: u8, species: Species, there: Option<Species>) -> Result<Change, Refusal>
    ensures { report number result ≡ declaring id species (is_some (declared_at id there)) (gives (Change.Species id species)) }
{
    declaring(id, species, declared_at(id, there))?;
    Ok(Change::Species(id, species))
}

// 02: gives the factor at a whole cm.
fn decide_factor(cm: u8, factor: u8, factors: &[Option<u8>; 101]) -> Result<Change, Refusal>
    ensures { report number result ≡ giving cm factor (is_some (factor_at factors.now cm)) (gives (Change.Factor cm factor)) }
{
    giving(cm, factor, factors.get(cm as usize).copied().flatten())?;
    Ok(Change::Factor(cm, factor))
}

// 03: opens a line.
fn decide_opening(
    stratum: u8,
    id: u8,
    p: u32,
    q: u32,
    seen: Seen,
    line: Option<Line>,
) -> Result<Change, Refusal>
    ensures { report number result ≡ opens stratum id p q seen line }
{
    let species = opening(
        p,
        q,
        line.is_some(),
        declared_at(id, seen.there),
        seen.before,
        seen.closed,
    )?;
    Ok(Change::Line(Line::new(stratum, id, species, p, q)))
}

// 04: measured trees of the open line.
fn decide_measured(class: u8, count: u16, line: Option<Line>) -> Result<Change, Refusal>
    ensures { report number result ≡ updates line (add_trees class count) }
{
    let mut noted = line.ok_or(Refusal::NoLine)?;
    noted.add_trees(class, count)?;
    Ok(Change::Line(noted))
}

// 05: a height tree of the open line.
fn decide_height(cm: u8, tenths: u16, line: Option<Line>) -> Result<Change, Refusal>
    ensures { report number result ≡ updates line (add_height cm tenths) }
{
    let mut noted = line.ok_or(Refusal::NoLine)?;
    noted.add_height(cm, tenths)?;
    Ok(Change::Line(noted))
}

// 06: closes the line.
fn decide_closing(
    closed: usize,
    line: Option<Line>,
    factors: &[Option<u8>; 101],
) -> Result<Change, Refusal>
    ensures { report number result ≡ closes closed line factors.now }
{
    let row = line.ok_or(Refusal::NoLine)?.row(factors)?;
    // No survey reaches this with a line open.
    if MOST_LINES <= closed {
        return Err(Refusal::Limit);
    }
    Ok(Change::Row(row))
}

// 07: ends the book.
fn decide_end(line: Option<Line>) -> Result<Change, Refusal>
    ensures { report number result ≡ ends line }
{
    ending(line.is_some())?;
    Ok(Change::End)
}

// 08: the small trees of the open line.
fn decide_small(carbon: u32, count: u32, line: Option<Line>) -> Result<Change, Refusal>
    ensures { report number result ≡ updates line (add_small carbon count) }
{
    let mut noted = line.ok_or(Refusal::NoLine)?;
    noted.add_small(carbon, count)?;
    Ok(Change::Line(noted))
}

// What a command changes of a survey of which it sees this, with this line open or none.
pub fn decide(
    command: Command,
    seen: Seen,
    line: Option<Line>,
    factors: &[Option<u8>; 101],
) -> Result<Change, Refusal>
    ensures { report number result ≡ decided command seen line factors.now }
{
    if seen.ended {
        return Err(Refusal::Ended);
    }
    match command {
        Command::Species(id, species) => decide_species(id, species, seen.there),
        Command::Factor { cm, factor } => decide_factor(cm, factor, factors),
        Command::Open {
            stratum,
            species,
            p,
            q,
        } => decide_opening(stratum, species, p, q, seen, line),
        Command::Measured { class, count } => decide_measured(class, count, line),
        Command::Height { cm, tenths } => decide_height(cm, tenths, line),
        Command::Close => decide_closing(seen.closed, line, factors),
        Command::End => decide_end(line),
        Command::Small { carbon, count } => decide_small(carbon, count, line),
    }
}
