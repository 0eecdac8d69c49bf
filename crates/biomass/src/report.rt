// Why a routine declines. specs/Report.antt gives document 01's number of each case.
ghost use Rattle.std.specs.Prelude.{◌≡◌};
ghost use Rattle.biomass.specs.Report.{refusal_number};

#[derive(Clone, Copy, Debug, PartialEq, Eq)]
pub enum Refusal {
    // An operand is outside its range.
    Operand = 6,
    // The tariff is outside 1 to 50.
    Tariff = 13,
}

impl Refusal {
    // Document 01's number of the refusal.
    pub fn number(self) -> u8
        ensures { result ≡ refusal_number self }
    {
        self as u8
    }
}
