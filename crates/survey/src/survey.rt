// The survey: what a field book has given so far. Each command makes its own checks, in the papers' order, and changes the
// survey in its place; where it is refused, the survey is as it was.
ghost use Rattle.std.specs.Prelude.{◌≡◌, get_or, None};
ghost use Rattle.biomass.specs.Report.{report, gives, when, after, leaves};
ghost use Rattle.codec.specs.Refusal.{number};
ghost use Rattle.survey.specs.Survey.{fresh, rows_of, declared_with, opened, declare, give_factor, open_line, give_small, end};
ghost use Rattle.survey.specs.Apply.{apply_measured, apply_height, apply_close, apply};

use biomass::units::{BiomassRange, Milligrams};
use codec::command::{Command, Species};
use codec::refusal::Refusal;
use line::line::Line;
use line::row::Row;
use rules::change::any_line;
use rules::checks::{MOST_LINES, declaring, ending, giving, opening};

// What stands where no line has closed yet.
const NO_ROW: Row = Row {
    stratum: 0,
    species: 0,
    tariff: 0,
    d: 0,
    trees: 0,
    biomass: BiomassRange {
        low: Milligrams(0),
        high: Milligrams(0),
    },
};

#[derive(Clone, Copy)]
pub struct Survey {
    // What each species was declared with, by its id.
    pub species: [Option<Species>; 16],
    // The factor at each whole cm, in hundredths.
    pub factors: [Option<u8>; 101],
    // The rows of the closed lines, in closing order: so many as `closed` says. No `Vec`, since the library allocates nothing.
    pub rows: [Row; MOST_LINES],
    pub closed: usize,
    // The line that is open.
    pub line: Option<Line>,
    // Whether the book has ended.
    pub ended: bool,
}

// What stands at a place of a table, where it was given. Past the table's end nothing was.
fn standing<T: Copy, const N: usize>(table: &[Option<T>; N], place: u8) -> Option<T>
    ensures { result ≡ get_or table.now place None }
{
    table.get(place as usize).copied().flatten()
}

impl Survey {
    // A survey of which nothing is known yet.
    #[tactic(auto, unfolding(crate::specs::Survey::fresh))]
    pub fn new() -> Self
        ensures { result ≡ fresh }
    {
        Survey {
            species: [None; 16],
            factors: [None; 101],
            rows: [NO_ROW; MOST_LINES],
            closed: 0,
            line: None,
            ended: false,
        }
    }

    // The rows of the closed lines.
    pub fn closed_rows(&self) -> &[Row]
        ensures { result.now ≡ rows_of self.now }
    {
        self.rows.get(..self.closed).unwrap_or(&self.rows)
    }

    // Whether a line of this stratum and species was closed before.
    #[tactic(auto, unfolding(crate::specs::Survey::opened))]
    fn opened(&self, stratum: u8, id: u8) -> bool
        ensures { result ≡ opened stratum id self.now }
    {
        any_line(self.closed_rows(), stratum, id)
    }

    // What a species is declared with, where it is. No id above 15 has a place in the table.
    fn declared_with(&self, id: u8) -> Option<Species>
        ensures { result ≡ declared_with id self.now }
    {
        standing(&self.species, id)
    }

    // 5: the book has ended, first of all. Asked by each command, and not once by `take`: so each answers for any survey.
    fn unless_ended(&self) -> Result<(), Refusal>
        ensures { report number result ≡ when self.now.ended 5 (gives tt) }
    {
        if self.ended {
            return Err(Refusal::Ended);
        }
        Ok(())
    }

    // 01: declares a species.
    #[tactic(auto, unfolding(crate::specs::Survey::declare))]
    fn take_species(&mut self, id: u8, species: Species) -> Result<(), Refusal>
        ensures { after number result self.new ≡ leaves self.old (declare id species self.old) }
    {
        self.unless_ended()?;
        declaring(id, species, self.declared_with(id))?;
        self.species[id as usize] = Some(species);
        Ok(())
    }

    // 02: gives the factor at a whole cm.
    #[tactic(auto, unfolding(crate::specs::Survey::give_factor))]
    fn take_factor(&mut self, cm: u8, factor: u8) -> Result<(), Refusal>
        ensures { after number result self.new ≡ leaves self.old (give_factor cm factor self.old) }
    {
        self.unless_ended()?;
        giving(cm, factor, standing(&self.factors, cm))?;
        self.factors[cm as usize] = Some(factor);
        Ok(())
    }

    // 03: opens a line.
    #[tactic(auto, unfolding(crate::specs::Survey::open_line))]
    fn take_opening(&mut self, stratum: u8, id: u8, p: u32, q: u32) -> Result<(), Refusal>
        ensures { after number result self.new ≡ leaves self.old (open_line stratum id p q self.old) }
    {
        self.unless_ended()?;
        let species = opening(
            p,
            q,
            self.line.is_some(),
            self.declared_with(id),
            self.opened(stratum, id),
            self.closed,
        )?;
        self.line = Some(Line::new(stratum, id, species, p, q));
        Ok(())
    }

    // 04: measured trees of the open line. Here, in 05 and in 08 the same three calls stand, but for the last: a routine that lends
    // the open line, or takes what is done with it, would promise more words than it saves.
    #[tactic(auto, unfolding(crate::specs::Apply::apply_measured))]
    fn take_measured(&mut self, class: u8, count: u16) -> Result<(), Refusal>
        ensures { after number result self.new ≡ leaves self.old (apply_measured class count self.old) }
    {
        self.unless_ended()?;
        self.line
            .as_mut()
            .ok_or(Refusal::NoLine)?
            .add_trees(class, count)
    }

    // 05: a height tree of the open line.
    #[tactic(auto, unfolding(crate::specs::Apply::apply_height))]
    fn take_height(&mut self, cm: u8, tenths: u16) -> Result<(), Refusal>
        ensures { after number result self.new ≡ leaves self.old (apply_height cm tenths self.old) }
    {
        self.unless_ended()?;
        self.line
            .as_mut()
            .ok_or(Refusal::NoLine)?
            .add_height(cm, tenths)
    }

    // 06: closes the line and keeps its row.
    #[tactic(auto, unfolding(crate::specs::Apply::apply_close))]
    fn take_closing(&mut self) -> Result<(), Refusal>
        ensures { after number result self.new ≡ leaves self.old (apply_close self.old) }
    {
        self.unless_ended()?;
        let line = self.line.as_ref().ok_or(Refusal::NoLine)?;
        let row = line.row(&self.factors)?;
        let place = self.closed;
        // No survey reaches this with a line open.
        if MOST_LINES <= place {
            return Err(Refusal::Limit);
        }
        self.rows[place] = row;
        self.closed = place + 1;
        self.line = None;
        Ok(())
    }

    // 07: ends the book.
    #[tactic(auto, unfolding(crate::specs::Survey::end))]
    fn take_end(&mut self) -> Result<(), Refusal>
        ensures { after number result self.new ≡ leaves self.old (end self.old) }
    {
        self.unless_ended()?;
        ending(self.line.is_some())?;
        self.ended = true;
        Ok(())
    }

    // 08: the small trees of the open line.
    #[tactic(auto, unfolding(crate::specs::Survey::give_small))]
    fn take_small(&mut self, carbon: u32, count: u32) -> Result<(), Refusal>
        ensures { after number result self.new ≡ leaves self.old (give_small carbon count self.old) }
    {
        self.unless_ended()?;
        self.line
            .as_mut()
            .ok_or(Refusal::NoLine)?
            .add_small(carbon, count)
    }

    // Any command, with the survey changed in its place.
    pub fn take(&mut self, command: Command) -> Result<(), Refusal>
        ensures { after number result self.new ≡ leaves self.old (apply command self.old) }
    {
        match command {
            Command::Species(id, species) => self.take_species(id, species),
            Command::Factor { cm, factor } => self.take_factor(cm, factor),
            Command::Open {
                stratum,
                species,
                p,
                q,
            } => self.take_opening(stratum, species, p, q),
            Command::Measured { class, count } => self.take_measured(class, count),
            Command::Height { cm, tenths } => self.take_height(cm, tenths),
            Command::Close => self.take_closing(),
            Command::End => self.take_end(),
            Command::Small { carbon, count } => self.take_small(carbon, count),
        }
    }

    // Any command. The survey comes back beside what became of the command; where that was refused, it is the one given. This one
    // and the eight below are in the form that document 01 names: they take `self`, and hand back the survey beside the refusal.
    pub fn apply(mut self, command: Command) -> (Self, Result<(), Refusal>)
        ensures { after number result.1 result.0 ≡ leaves self (apply command self) }
    {
        let outcome = self.take(command);
        (self, outcome)
    }

    // 01: declares a species.
    pub fn declare(self, id: u8, species: Species) -> (Self, Result<(), Refusal>)
        ensures { after number result.1 result.0 ≡ leaves self (declare id species self) }
    {
        self.apply(Command::Species(id, species))
    }

    // 02: gives the factor at a whole cm.
    pub fn give_factor(self, cm: u8, factor: u8) -> (Self, Result<(), Refusal>)
        ensures { after number result.1 result.0 ≡ leaves self (give_factor cm factor self) }
    {
        self.apply(Command::Factor { cm, factor })
    }

    // 03: opens a line.
    pub fn open_line(self, stratum: u8, id: u8, p: u32, q: u32) -> (Self, Result<(), Refusal>)
        ensures { after number result.1 result.0 ≡ leaves self (open_line stratum id p q self) }
    {
        self.apply(Command::Open {
            stratum,
            species: id,
            p,
            q,
        })
    }

    // 04: measured trees of the open line.
    pub fn measure(self, class: u8, count: u16) -> (Self, Result<(), Refusal>)
        ensures { after number result.1 result.0 ≡ leaves self (apply_measured class count self) }
    {
        self.apply(Command::Measured { class, count })
    }

    // 05: a height tree of the open line.
    pub fn give_height(self, cm: u8, tenths: u16) -> (Self, Result<(), Refusal>)
        ensures { after number result.1 result.0 ≡ leaves self (apply_height cm tenths self) }
    {
        self.apply(Command::Height { cm, tenths })
    }

    // 06: closes the line and keeps its row.
    pub fn close(self) -> (Self, Result<(), Refusal>)
        ensures { after number result.1 result.0 ≡ leaves self (apply_close self) }
    {
        self.apply(Command::Close)
    }

    // 07: ends the book.
    pub fn end(self) -> (Self, Result<(), Refusal>)
        ensures { after number result.1 result.0 ≡ leaves self (end self) }
    {
        self.apply(Command::End)
    }

    // 08: the small trees of the open line.
    pub fn give_small(self, carbon: u32, count: u32) -> (Self, Result<(), Refusal>)
        ensures { after number result.1 result.0 ≡ leaves self (give_small carbon count self) }
    {
        self.apply(Command::Small { carbon, count })
    }
}
