// Why an operation declines. specs/Refusal.antt gives the number of each case in documents 01 and 02.
ghost use Rattle.std.specs.Prelude.{◌≡◌};
ghost use Rattle.biomass.specs.Report.{refusal_number};
ghost use Rattle.codec.specs.Refusal.{number};

#[derive(Clone, Copy, Debug, PartialEq, Eq)]
pub enum Refusal {
    // Reading: the place is at or past the end.
    AtEnd = 1,
    // Reading: no command has this byte.
    UnknownByte = 2,
    // Reading: operands cut short.
    CutShort = 3,
    // Writing: too few bytes from there.
    NoRoom = 4,
    // The book has ended.
    Ended = 5,
    // An operand is outside its range.
    Operand = 6,
    // Already given, or already opened.
    AlreadyGiven = 7,
    // The species is undeclared.
    Undeclared = 8,
    // A line is open.
    LineOpen = 9,
    // No line is open.
    NoLine = 10,
    // 32 lines are opened, or the line would be over its limit.
    Limit = 11,
    // No height tree.
    NoHeightTree = 12,
    // A tariff outside 1 to 50.
    Tariff = 13,
    // No factor for the mean diameter.
    NoFactor = 14,
    // More estimated trees than a line may have.
    TooManyTrees = 15,
    // Totalling: the sheet has too few bytes.
    ShortSheet = 16,
    // The plots' area is above the net area.
    PlotsAboveArea = 17,
}

impl Refusal {
    // The refusal's number in documents 01 and 02.
    pub fn number(self) -> u8
        ensures { result ≡ number self }
    {
        self as u8
    }
}

// What a figure declines, as a refusal of the survey: the number is the same. Two enums, since a figure declines with these two
// numbers alone, and says so by its type.
impl From<biomass::report::Refusal> for Refusal {
    ghost from_gives = { λ why refusal. number refusal ≡ refusal_number why };

    fn from(why: biomass::report::Refusal) -> Refusal {
        match why {
            biomass::report::Refusal::Operand => Refusal::Operand,
            biomass::report::Refusal::Tariff => Refusal::Tariff,
        }
    }
}
