// Totalling a book into a sheet, and reading a row of the sheet back.
ghost use Rattle.std.specs.Prelude.{◌≡◌, replicate};
ghost use Rattle.survey.specs.Sheet.{find_row};
ghost use Rattle.survey.specs.Total.{total, sheet_after};
ghost use Rattle.survey.specs.Demand3.{Demanded};
ghost use Rattle.survey.specs.Recorded.{AsRecorded};
ghost use Rattle.fieldbook.specs.Layout.{refusal, book_refusal, totals, answered, found_row, row_numbers};

use super::layout::{Laid, lay};
use line::row::Row;
use survey::playing::Stopped;
use survey::sheet::find_row;
use survey::total::total;

// Totals a book into a sheet of 800 bytes or more. The answer: rows, trees in hundredths, low and high in grams of carbon
// dioxide, and the place of a refusal. Where the book is refused, the sheet is as it was.
#[unsafe(no_mangle)]
pub extern "C" fn fieldbook_total(book: &[u8], sheet: &mut [u8], answer: &mut [u64; 5]) -> u8
    ensures refusal { result ≡ book_refusal (total book.now sheet.old) }
    ensures answer { answer.new ≡ totals (total book.now sheet.old) }
    ensures stored { sheet.new ≡ sheet_after book.now sheet.old }
    ensures demand3 { Demanded book.now (answered result answer.new) }
    ensures recorded { AsRecorded book.now (answered result answer.new) }
{
    match total(book, sheet) {
        Ok(t) => {
            *answer = [t.rows as u64, t.trees, t.carbon.low.0, t.carbon.high.0, 0];
            0
        }
        Err(Stopped { why, at }) => {
            *answer = [0, 0, 0, 0, at as u64];
            why.number()
        }
    }
}

impl Laid for Row {
    type Numbers = [u64; 7];

    ghost numbers = { row_numbers };

    ghost zeros = { replicate 7 0 };

    // A row's figures, in the order of its bytes.
    fn numbers(self) -> [u64; 7] {
        [
            self.stratum as u64,
            self.species as u64,
            self.tariff as u64,
            self.d as u64,
            self.trees as u64,
            self.biomass.low.0,
            self.biomass.high.0,
        ]
    }

    fn zeros() -> [u64; 7] {
        [0; 7]
    }
}

// The i-th row of a sheet, counted from 0: stratum, species, tariff, mean diameter in hundredths of a cm, trees in
// hundredths, low and high in milligrams of biomass.
#[unsafe(no_mangle)]
pub extern "C" fn fieldbook_sheet_row(sheet: &[u8], i: usize, answer: &mut [u64; 7]) -> u8
    ensures refusal { result ≡ refusal (find_row sheet.now i) }
    ensures answer { answer.new ≡ found_row (find_row sheet.now i) }
{
    lay(find_row(sheet, i), answer)
}
