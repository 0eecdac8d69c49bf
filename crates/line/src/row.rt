// The row that a closed line leaves, and its bytes in a sheet.
ghost use Rattle.std.specs.Prelude.{◌≡◌, ◌+◌, ◌≤◌, length};
ghost use Rattle.codec.specs.Bytes.{stored_at, store};
ghost use Rattle.line.specs.Row.{row_length, row_bytes, row_from};

use biomass::units::{BiomassRange, Milligrams};
use codec::bytes::{byte, eight, four, store, two};

// How many bytes a row has in a sheet.
pub const ROW_LENGTH: usize = 25;

#[derive(Clone, Copy)]
pub struct Row {
    pub stratum: u8,
    // The species' id.
    pub species: u8,
    // The line tariff T.
    pub tariff: u8,
    // The mean diameter d, powers::diameter::UNITS_TO_CM to the cm.
    pub d: u16,
    // The estimated trees N, in hundredths: measured and small ones together.
    pub trees: u32,
    // The row's low and high.
    pub biomass: BiomassRange,
}

// The figures of a row, one after the other, where there is room for them. Each place is called after the figure that comes next.
fn store_figures(sheet: &mut [u8], at: usize, row: Row)
    requires { at + row_length ≤ length sheet.old }
    ensures { sheet.new ≡ stored_at sheet.old at (row_bytes row) }
{
    let species = store(sheet, at, 1, row.stratum as u64);
    let tariff = store(sheet, species, 1, row.species as u64);
    let d = store(sheet, tariff, 1, row.tariff as u64);
    let trees = store(sheet, d, 2, row.d as u64);
    let low = store(sheet, trees, 4, row.trees as u64);
    let high = store(sheet, low, 8, row.biomass.low.0);
    store(sheet, high, 8, row.biomass.high.0);
}

// Stores a row from a place on. Where there is no room for it, nothing is written: looked at here, so that none of its figures is.
pub fn store_row(sheet: &mut [u8], at: usize, row: Row)
    ensures { sheet.new ≡ store sheet.old at (row_bytes row) }
{
    if sheet.len() < ROW_LENGTH {
        return;
    }
    if sheet.len() - ROW_LENGTH < at {
        return;
    }
    store_figures(sheet, at, row);
}

// The row in the bytes from a place on that is not past the end.
#[tactic(auto, unfolding(crate::specs::Row::row_from))]
fn row_from(sheet: &[u8], at: usize) -> Row
    requires { at ≤ length sheet.now }
    ensures { result ≡ row_from sheet.now at }
{
    let biomass = BiomassRange {
        low: Milligrams(eight(sheet, at + 9)),
        high: Milligrams(eight(sheet, at + 17)),
    };
    Row {
        stratum: byte(sheet, at),
        species: byte(sheet, at + 1),
        tariff: byte(sheet, at + 2),
        d: two(sheet, at + 3),
        trees: four(sheet, at + 5),
        biomass,
    }
}

// The row in the bytes from a place on. A byte past the end is 0, as in all routines that read bytes and cannot fail.
pub fn row_at(sheet: &[u8], at: usize) -> Row
    ensures { result ≡ row_from sheet.now at }
{
    // Far past the end there may be no number for the places after this one; every figure is 0 there, as at the end.
    if sheet.len() < at {
        return row_from(sheet, sheet.len());
    }
    row_from(sheet, at)
}
