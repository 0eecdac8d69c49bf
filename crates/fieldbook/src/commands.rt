// Reading and writing one command. A command passes as nine numbers: its byte, its operands in the order of the book, and 0
// for each that it does not have. Signed operands are in two's complement, of 64 bits.
ghost use Rattle.std.specs.Prelude.{◌≡◌, ◌%◌, replicate};
ghost use Rattle.biomass.specs.Report.{report};
ghost use Rattle.codec.specs.Bytes.{signed, unsigned};
ghost use Rattle.codec.specs.Refusal.{number};
ghost use Rattle.codec.specs.Kind.{kind_of};
ghost use Rattle.codec.specs.Reading.{read, place_after};
ghost use Rattle.fieldbook.specs.Numbers.{extended, numbers, species_of, cut, command_of};
ghost use Rattle.fieldbook.specs.Layout.{refusal, command, write_numbers, next_place, buffer_after};

use super::layout::{Laid, lay};
use biomass::tariff::Constants;
use codec::bytes::signed_of;
use codec::command::{Command, Kind, Species};
use codec::reading::{place_after, read};
use codec::refusal::Refusal;
use codec::writing::write;

// The nine numbers of a command.
#[derive(Clone, Copy, PartialEq, Eq)]
struct Numbers([u64; 9]);

// A signed number, in two's complement of 64 bits.
fn wide(x: i32) -> u64
    ensures { result ≡ extended (unsigned x) }
{
    i64::from(x).cast_unsigned()
}

// The signed number in the low 32 bits.
fn narrow(x: u64) -> i32
    ensures { result ≡ signed (x % 4294967296) }
{
    signed_of((x % 4_294_967_296) as u32)
}

// The kind of command whose byte this is.
fn kind(byte: u64) -> Result<Kind, Refusal>
    ensures { report number result ≡ kind_of byte }
{
    Kind::try_from(u8::try_from(byte).map_err(|_| Refusal::UnknownByte)?)
}

impl From<Command> for Numbers {
    ghost from_gives = { λ command n. n.0 ≡ numbers command };

    fn from(command: Command) -> Numbers {
        let byte = u64::from(command.kind().byte());
        Numbers(match command {
            Command::Species(id, s) => [
                byte,
                id as u64,
                s.crown as u64,
                s.root as u64,
                s.gravity as u64,
                wide(s.constants.c1),
                wide(s.constants.c2),
                wide(s.constants.c3),
                wide(s.constants.c4),
            ],
            Command::Factor { cm, factor } => [byte, cm as u64, factor as u64, 0, 0, 0, 0, 0, 0],
            Command::Open {
                stratum,
                species,
                p,
                q,
            } => [
                byte,
                stratum as u64,
                species as u64,
                p as u64,
                q as u64,
                0,
                0,
                0,
                0,
            ],
            Command::Measured { class, count } => [
                byte,
                class as u64,
                count as u64,
                0,
                0,
                0,
                0,
                0,
                0,
            ],
            Command::Height { cm, tenths } => [byte, cm as u64, tenths as u64, 0, 0, 0, 0, 0, 0],
            Command::Close => [byte, 0, 0, 0, 0, 0, 0, 0, 0],
            Command::End => [byte, 0, 0, 0, 0, 0, 0, 0, 0],
            Command::Small { carbon, count } => [
                byte,
                carbon as u64,
                count as u64,
                0,
                0,
                0,
                0,
                0,
                0,
            ],
        })
    }
}

impl Numbers {
    fn species(self) -> Species
        ensures { result ≡ species_of self.0 }
    {
        let n = self.0;
        Species {
            crown: (n[2] % 256) as u8,
            root: (n[3] % 256) as u8,
            gravity: (n[4] % 256) as u8,
            constants: Constants {
                c1: narrow(n[5]),
                c2: narrow(n[6]),
                c3: narrow(n[7]),
                c4: narrow(n[8]),
            },
        }
    }

    // The command of that byte, with its operands cut to their widths.
    #[tactic(auto, unfolding(crate::specs::Numbers::cut))]
    fn cut(self) -> Result<Command, Refusal>
        ensures { report number result ≡ cut self.0 }
    {
        let n = self.0;
        let first = (n[1] % 256) as u8;
        let second = (n[2] % 256) as u8;
        let pair = (n[2] % 65_536) as u16;
        let carbon = (n[1] % 4_294_967_296) as u32;
        let count = (n[2] % 4_294_967_296) as u32;
        let p = (n[3] % 4_294_967_296) as u32;
        let q = (n[4] % 4_294_967_296) as u32;
        match kind(n[0])? {
            Kind::Species => Ok(Command::Species(first, self.species())),
            Kind::Factor => Ok(Command::Factor {
                cm: first,
                factor: second,
            }),
            Kind::Open => Ok(Command::Open {
                stratum: first,
                species: second,
                p,
                q,
            }),
            Kind::Measured => Ok(Command::Measured {
                class: first,
                count: pair,
            }),
            Kind::Height => Ok(Command::Height {
                cm: first,
                tenths: pair,
            }),
            Kind::Close => Ok(Command::Close),
            Kind::End => Ok(Command::End),
            Kind::Small => Ok(Command::Small { carbon, count }),
        }
    }
}

// The command whose numbers these are.
impl TryFrom<Numbers> for Command {
    type Error = Refusal;

    ghost try_from_gives = { λ n outcome. report number outcome ≡ command_of n.0 };

    #[tactic(auto, unfolding(crate::specs::Numbers::command_of))]
    fn try_from(n: Numbers) -> Result<Command, Refusal> {
        let command = n.cut()?;
        if Numbers::from(command) == n {
            Ok(command)
        } else {
            Err(Refusal::Operand)
        }
    }
}

// A command that was read. The place after it is answered beside it.
impl Laid for (Command, usize) {
    type Numbers = [u64; 9];

    ghost numbers = { λ read. numbers read.0 };

    ghost zeros = { replicate 9 0 };

    fn numbers(self) -> [u64; 9] {
        Numbers::from(self.0).0
    }

    fn zeros() -> [u64; 9] {
        [0; 9]
    }
}

// The command at a place of a book, and the place to go on from, which after a refusal is where it was.
#[unsafe(no_mangle)]
pub extern "C" fn fieldbook_read(
    book: &[u8],
    at: usize,
    answer: &mut [u64; 9],
    next: &mut usize,
) -> u8
    ensures refusal { result ≡ refusal (read book.now at) }
    ensures answer { answer.new ≡ command (read book.now at) }
    ensures next { next.new ≡ place_after at (read book.now at) }
{
    let found = read(book, at);
    *next = place_after(at, found);
    lay(found, answer)
}

// The place after the command that numbers stand for, written from a place on.
fn write_numbers(buffer: &mut [u8], at: usize, numbers: [u64; 9]) -> Result<usize, Refusal>
    ensures place { report number result ≡ write_numbers buffer.old at numbers }
    ensures stored { buffer.new ≡ buffer_after buffer.old at (command_of numbers) }
{
    let command = Command::try_from(Numbers(numbers))?;
    write(buffer, at, command)
}

// Writes the command that numbers stand for from a place on. Where it is refused, nothing is written.
#[unsafe(no_mangle)]
pub extern "C" fn fieldbook_write(
    buffer: &mut [u8],
    at: usize,
    command: &[u64; 9],
    next: &mut usize,
) -> u8
    ensures refusal { result ≡ refusal (write_numbers buffer.old at command.now) }
    ensures stored { buffer.new ≡ buffer_after buffer.old at (command_of command.now) }
    ensures next { next.new ≡ next_place at (write_numbers buffer.old at command.now) }
{
    match write_numbers(buffer, at, *command) {
        Ok(after) => {
            *next = after;
            0
        }
        Err(why) => {
            *next = at;
            why.number()
        }
    }
}
