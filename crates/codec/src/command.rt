// The eight commands of a field book, each with its operands as they are written.
ghost use Rattle.std.specs.Prelude.{◌≡◌};
ghost use Rattle.biomass.specs.Report.{report};
ghost use Rattle.codec.specs.Refusal.{number};
ghost use Rattle.codec.specs.Kind.{kind_byte, kind, kind_of};

use super::refusal::Refusal;
use biomass::tariff::Constants;

// What a species is declared with.
#[derive(Clone, Copy, Debug, PartialEq, Eq)]
pub struct Species {
    // Crown group, 0 to 7.
    pub crown: u8,
    // Root group, 0 to 5.
    pub root: u8,
    // Specific gravity in hundredths, 1 to 100.
    pub gravity: u8,
    pub constants: Constants,
}

#[derive(Clone, Copy, Debug, PartialEq, Eq)]
pub enum Command {
    // 01: the species' id, and what it is declared with.
    Species(u8, Species),
    // 02: whole cm, and total over merchantable stem volume in hundredths.
    Factor {
        cm: u8,
        factor: u8,
    },
    // 03: the line's stratum and species, p and q.
    Open {
        stratum: u8,
        species: u8,
        p: u32,
        q: u32,
    },
    // 04: the class in cm, and how many trees.
    Measured {
        class: u8,
        count: u16,
    },
    // 05: cm, and the height in tenths of a metre.
    Height {
        cm: u8,
        tenths: u16,
    },
    // 06
    Close,
    // 07
    End,
    // 08: the carbon of one small tree in mg, and how many trees.
    Small {
        carbon: u32,
        count: u32,
    },
}

// What a command is, by its byte.
#[derive(Clone, Copy, Debug, PartialEq, Eq)]
pub enum Kind {
    Species = 0x01,
    Factor = 0x02,
    Open = 0x03,
    Measured = 0x04,
    Height = 0x05,
    Close = 0x06,
    End = 0x07,
    Small = 0x08,
}

impl Kind {
    // The byte that a command of the kind begins with.
    pub fn byte(self) -> u8
        ensures { result ≡ kind_byte self }
    {
        self as u8
    }
}

// The kind that a command's byte says, by document 01's form: a match, with ranges of unknown bytes.
impl TryFrom<u8> for Kind {
    type Error = Refusal;

    ghost try_from_gives = { λ byte outcome. report number outcome ≡ kind_of byte };

    fn try_from(byte: u8) -> Result<Kind, Refusal> {
        match byte {
            0x01 => Ok(Kind::Species),
            0x02 => Ok(Kind::Factor),
            0x03 => Ok(Kind::Open),
            0x04 => Ok(Kind::Measured),
            0x05 => Ok(Kind::Height),
            0x06 => Ok(Kind::Close),
            0x07 => Ok(Kind::End),
            0x08 => Ok(Kind::Small),
            0x00 | 0x09..=0xff => Err(Refusal::UnknownByte),
        }
    }
}

impl Command {
    pub fn kind(self) -> Kind
        ensures { result ≡ kind self }
    {
        match self {
            Command::Species(..) => Kind::Species,
            Command::Factor { .. } => Kind::Factor,
            Command::Open { .. } => Kind::Open,
            Command::Measured { .. } => Kind::Measured,
            Command::Height { .. } => Kind::Height,
            Command::Close => Kind::Close,
            Command::End => Kind::End,
            Command::Small { .. } => Kind::Small,
        }
    }
}
