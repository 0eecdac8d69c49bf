// The sheet: the rows of the closed lines, one after the other, from byte 0 on in closing order.
ghost use Rattle.std.specs.Prelude.{◌≡◌, ◌*◌, ◌≤◌, length};
ghost use Rattle.biomass.specs.Report.{report};
ghost use Rattle.codec.specs.Bytes.{stored_at};
ghost use Rattle.codec.specs.Refusal.{number};
ghost use Rattle.line.specs.Row.{row_length};
ghost use Rattle.survey.specs.Sheet.{sheet_bytes, find_row};

use codec::refusal::Refusal;
use line::row::{ROW_LENGTH, Row, row_at, store_row};
use rules::checks::MOST_LINES;

// How many bytes a sheet has at least: room for the rows of all lines that a book may have.
pub const SHEET_LENGTH: usize = MOST_LINES * ROW_LENGTH;

// Stores rows one after the other, where there is room for them.
pub(crate) fn store_rows(sheet: &mut [u8], rows: &[Row])
    requires { row_length * length rows.now ≤ length sheet.old }
    ensures { sheet.new ≡ stored_at sheet.old 0 (sheet_bytes rows.now) }
{
    for (i, row) in rows.iter().enumerate() {
        store_row(sheet, ROW_LENGTH * i, *row);
    }
}

// The i-th row of a sheet, counted from 0.
#[tactic(auto, unfolding(crate::specs::Sheet::find_row))]
pub fn find_row(sheet: &[u8], i: usize) -> Result<Row, Refusal>
    ensures { report number result ≡ find_row sheet.now i }
{
    if sheet.len() / ROW_LENGTH <= i {
        return Err(Refusal::AtEnd);
    }
    Ok(row_at(sheet, ROW_LENGTH * i))
}
