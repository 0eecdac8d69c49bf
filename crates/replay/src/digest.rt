// A digest of numbers below 2^32, one after the other: 31 times the digest so far and the number, modulo 2^31 - 1.
use biomass::tariff::Constants;
use codec::command::{Command, Species};
use codec::writing::write;
use line::line::Line;
use line::row::Row;
use survey::survey::Survey;

// What stands in a digest for a species that is not declared: the outside tests make theirs over sixteen species in any case.
pub const UNDECLARED: Species = Species {
    crown: 0,
    root: 0,
    gravity: 0,
    constants: Constants {
        c1: 0,
        c2: 0,
        c3: 0,
        c4: 0,
    },
};

#[derive(Clone, Copy)]
pub struct Digest(pub u64);

impl Digest {
    // The remainders inside are the numbers themselves.
    fn number(self, x: impl Into<u64>) -> Digest {
        let x: u64 = x.into();
        Digest((self.0 % 2_147_483_647 * 31 + x % 4_294_967_296) % 2_147_483_647)
    }

    // Both halves of a number, high half first.
    fn wide(self, x: u64) -> Digest {
        self.number(x / 4_294_967_296).number(x % 4_294_967_296)
    }

    pub fn bytes(self, bytes: &[u8]) -> Digest {
        bytes.iter().fold(self, |digest, &byte| digest.number(byte))
    }

    // A species: the bytes of the command that declares it with id 0.
    fn species(self, species: Species) -> Digest {
        let mut bytes = [0u8; 21];
        let _ = write(&mut bytes, 0, Command::Species(0, species));
        self.bytes(&bytes)
    }

    fn row(self, row: Row) -> Digest {
        let biomass = row.biomass;
        self.number(row.stratum)
            .number(row.species)
            .number(row.tariff)
            .number(row.d)
            .number(row.trees)
            .wide(biomass.low.0)
            .wide(biomass.high.0)
    }

    fn line(self, line: Line) -> Digest {
        self.number(line.stratum)
            .number(line.id)
            .species(line.species)
            .number(line.p)
            .number(line.q)
            .wide(line.tally.n)
            .wide(line.tally.squares)
            .wide(line.heights.number)
            .wide(line.heights.tariffs)
            .wide(line.small.carbon)
            .wide(line.small.count)
    }

    // The 16 species and the 32 rows, two rows to a species.
    fn tables(self, survey: &Survey) -> Digest {
        let (first, second) = survey.rows.split_at(16);
        let rows = first.iter().zip(second);
        survey
            .species
            .iter()
            .zip(rows)
            .fold(self, |digest, (&species, (&first, &second))| {
                digest
                    .species(species.unwrap_or(UNDECLARED))
                    .row(first)
                    .row(second)
            })
    }

    // The factors, with 0 for each that was not given.
    fn factors(self, factors: &[Option<u8>]) -> Digest {
        factors
            .iter()
            .fold(self, |digest, factor| digest.number(factor.unwrap_or(0)))
    }

    // Every field of a survey, and the line that was opened last.
    pub fn survey(self, survey: &Survey, line: Line) -> Digest {
        self.tables(survey)
            .factors(&survey.factors)
            .wide(survey.closed as u64)
            .number(survey.line.is_some())
            .line(line)
            .number(survey.ended)
    }
}
