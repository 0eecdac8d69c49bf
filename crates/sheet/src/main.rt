// Reads a field book from standard input, totals it and prints the sheet, as document 01 says under "Reading out": a line
// for each row, then one for the project. Input longer than 65,536 bytes prints `too long` and nothing else; a refused
// book prints the number of the refusal and its place.
#![tactic(auto)]

ghost use Rattle.std.specs.Prelude.{Some};
ghost use Rattle.sheet.specs.Lines.{estimate, project_line, row_line, two_places};

use console::{Output, PrintsBook, RefusalLine, print_of_book};
use line::row::Row;
use std::fmt::{Display, Formatter};
use std::io::Write;
use std::{fmt, io};
use survey::playing::Stopped;
use survey::sheet::{SHEET_LENGTH, find_row};
use survey::total::{Totals, total};

// Trees, in hundredths, printed to two places. Both are digits of their own, and not one number by `{:02}`: a line goes out in the
// parts in which it always did, since they decide what is out before a write that fails.
#[derive(Clone, Copy)]
struct Trees(u64);

impl Display for Trees {
    ghost output = { λ trees. Some (two_places trees.0) };

    fn fmt<W: fmt::Write>(&self, f: &mut Formatter<W>) -> fmt::Result {
        let Trees(hundredths) = *self;
        let whole = hundredths / 100;
        let tens = hundredths / 10 % 10;
        let ones = hundredths % 10;
        write!(f, "{whole}.{tens}{ones}")
    }
}

// What a row's line and the project's line end with.
#[derive(Clone, Copy)]
struct Estimate {
    trees: Trees,
    low: u64,
    high: u64,
}

impl Display for Estimate {
    ghost output = { λ e. Some (estimate e.trees.0 e.low e.high) };

    fn fmt<W: fmt::Write>(&self, f: &mut Formatter<W>) -> fmt::Result {
        let Estimate { trees, low, high } = *self;
        write!(f, "{trees} {low} {high}")
    }
}

#[derive(Clone, Copy)]
struct RowLine(Row);

impl Display for RowLine {
    ghost output = { λ line. Some (row_line line.0) };

    fn fmt<W: fmt::Write>(&self, f: &mut Formatter<W>) -> fmt::Result {
        let row = self.0;
        let (stratum, species) = (row.stratum, row.species);
        let estimate = Estimate {
            trees: Trees(u64::from(row.trees)),
            low: row.biomass.low.0,
            high: row.biomass.high.0,
        };
        write!(f, "{stratum} {species} {estimate}")
    }
}

#[derive(Clone, Copy)]
struct ProjectLine(Totals);

impl Display for ProjectLine {
    ghost output = { λ line. Some (project_line line.0) };

    fn fmt<W: fmt::Write>(&self, f: &mut Formatter<W>) -> fmt::Result {
        let totals = self.0;
        let estimate = Estimate {
            trees: Trees(totals.trees),
            low: totals.carbon.low.0,
            high: totals.carbon.high.0,
        };
        write!(f, "project {estimate}")
    }
}

// Totalling stored so many rows in the sheet, so none is passed over.
fn print_rows<W: Write + Drop>(
    output: &mut Output<W>,
    sheet: &[u8],
    rows: usize,
) -> io::Result<()> {
    for row in (0..rows).filter_map(|i| find_row(sheet, i).ok()) {
        writeln!(output, "{}", RowLine(row))?;
    }
    Ok(())
}

// The sheet of a book, or its refusal.
#[derive(Clone, Copy)]
struct Sheet;

impl<W: Write + Drop> PrintsBook<W> for Sheet {
    fn print(self, output: &mut Output<W>, book: &[u8]) -> io::Result<()> {
        let mut sheet = [0u8; SHEET_LENGTH];
        match total(book, &mut sheet) {
            Ok(totals) => {
                print_rows(output, &sheet, totals.rows)?;
                writeln!(output, "{}", ProjectLine(totals))
            }
            Err(Stopped { why, at }) => {
                let number = why.number();
                write!(output, "{}", RefusalLine { number, at })
            }
        }
    }
}

fn main(rt: HostRuntime) {
    // A write that fails ends the text, and the status does not tell.
    let _ = print_of_book(&mut rt.stdin(), Output::new(&rt), Sheet);
}
