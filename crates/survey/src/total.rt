// Totalling a book into a lent sheet.
ghost use Rattle.std.specs.Prelude.{◌≡◌, ℕ, ◌≤◌, length};
ghost use Rattle.codec.specs.Bytes.{stored_at};
ghost use Rattle.survey.specs.Sheet.{sheet_length, sheet_bytes};
ghost use Rattle.survey.specs.Bounds.{FewSmall};
ghost use Rattle.survey.specs.Total.{answer, sums, refused_at, total_of};
ghost use Rattle.survey.specs.Promise.{Promised};

use super::playing::{Stopped, play};
use super::sheet::{SHEET_LENGTH, store_rows};
use super::survey::Survey;
use biomass::project::project;
use biomass::units::{BiomassRange, CarbonRange, Milligrams};
use codec::refusal::Refusal;
use line::row::Row;

// What comes of an accepted book.
#[derive(Clone, Copy)]
pub struct Totals {
    // How many rows stand in the sheet.
    pub rows: usize,
    // The estimated trees of all lines added, in hundredths.
    pub trees: u64,
    // The project's low and high.
    pub carbon: CarbonRange,
}

// The lows and the highs of all rows, each added.
fn sums(rows: &[Row]) -> BiomassRange
    requires { FewSmall rows.now }
    ensures { result ≡ sums rows.now }
{
    BiomassRange {
        low: Milligrams(rows.iter().map(|row| row.biomass.low.0).sum()),
        high: Milligrams(rows.iter().map(|row| row.biomass.high.0).sum()),
    }
}

// The rows stored, and their totals.
fn total_rows(sheet: &mut [u8], rows: &[Row]) -> Totals
    requires { FewSmall rows.now × (sheet_length ≤ length sheet.old) }
    ensures totals { result ≡ total_of rows.now }
    ensures stored { sheet.new ≡ stored_at sheet.old 0 (sheet_bytes rows.now) }
{
    store_rows(sheet, rows);
    let trees = rows.iter().map(|row| u64::from(row.trees)).sum();
    // No survey has rows whose sums, eleven times, pass 64 bits, so that there is always a figure.
    let carbon = project(sums(rows), trees).unwrap();
    Totals {
        rows: rows.len(),
        trees,
        carbon,
    }
}

// Totals a book into a sheet. Where it is refused, the sheet is as it was.
pub fn total(book: &[u8], sheet: &mut [u8]) -> Result<Totals, Stopped>
    ensures promise { Promised book.now sheet.old (answer result) sheet.new }
    ensures kept { (n at : ℕ) → answer result ≡ refused_at n at → sheet.new ≡ sheet.old }
{
    if sheet.len() < SHEET_LENGTH {
        return Err(Stopped {
            why: Refusal::ShortSheet,
            at: 0,
        });
    }
    let mut survey = Survey::new();
    play(book, &mut survey)?;
    Ok(total_rows(sheet, survey.closed_rows()))
}
