// Reading one command at a place of any bytes.
ghost use Rattle.std.specs.Prelude.{◌≡◌, ◌+◌, ◌≤◌, ◌<◌, length, leb, take, drop, MatchResult};
ghost use Rattle.biomass.specs.Report.{report, unless, gives};
ghost use Rattle.codec.specs.Bytes.{byte, number_at};
ghost use Rattle.codec.specs.Refusal.{number};
ghost use Rattle.codec.specs.Kind.{kind_byte};
ghost use Rattle.codec.specs.RoundTrip.{WritesBack};
ghost use Rattle.codec.specs.Reading.{species_from, open_from, command_from, read, place_after};
ghost use Rattle.codec.specs.declared.refusal.Refusal.TheVariants.{CutShort};

use super::bytes::{four, signed_four};
use super::command::{Command, Kind, Species};
use super::refusal::Refusal;
use biomass::tariff::Constants;

// A command's N bytes of operands, from a place on.
fn operands<const N: usize>(book: &[u8], from: usize) -> Result<&[u8; N], Refusal>
    ensures { MatchResult result (λ o. (from + N ≤ length book.now) × (o.now ≡ take N (drop from book.now))) (λ why. (why ≡ CutShort) × (length book.now < from + N)) }
{
    let rest = book.get(from..).ok_or(Refusal::CutShort)?;
    rest.first_chunk().ok_or(Refusal::CutShort)
}

// An operand of one byte, and one of two after it.
fn byte_and_pair(book: &[u8], from: usize) -> Result<(u8, u16), Refusal>
    ensures { report number result ≡ unless (leb (from + 3) (length book.now)) 3 (gives (byte book.now from, number_at 2 book.now (from + 1))) }
{
    let &[first, high, low] = operands::<3>(book, from)?;
    Ok((first, u16::from_be_bytes([high, low])))
}

// This one and the next are put into `read_operands`: each, called, would copy its answer once more.
#[inline(always)]
#[tactic(auto, unfolding(crate::specs::Reading::species_from))]
fn read_species(book: &[u8], from: usize) -> Result<(Command, usize), Refusal>
    ensures { report number result ≡ species_from book.now from }
{
    let &[id, crown, root, gravity, ..] = operands::<20>(book, from)?;
    let species = Species {
        crown,
        root,
        gravity,
        constants: Constants {
            c1: signed_four(book, from + 4),
            c2: signed_four(book, from + 8),
            c3: signed_four(book, from + 12),
            c4: signed_four(book, from + 16),
        },
    };
    Ok((Command::Species(id, species), from + 20))
}

#[inline(always)]
#[tactic(auto, unfolding(crate::specs::Reading::open_from))]
fn read_open(book: &[u8], from: usize) -> Result<(Command, usize), Refusal>
    ensures { report number result ≡ open_from book.now from }
{
    let &[stratum, species, ..] = operands::<10>(book, from)?;
    let command = Command::Open {
        stratum,
        species,
        p: four(book, from + 2),
        q: four(book, from + 6),
    };
    Ok((command, from + 10))
}

// The operands of a command of that kind, from a place on.
#[tactic(auto, unfolding(crate::specs::Reading::command_from, crate::specs::Reading::factor_from, crate::specs::Reading::measured_from, crate::specs::Reading::height_from, crate::specs::Reading::small_from))]
fn read_operands(kind: Kind, book: &[u8], from: usize) -> Result<(Command, usize), Refusal>
    ensures { report number result ≡ command_from (kind_byte kind) book.now from }
{
    match kind {
        Kind::Species => read_species(book, from),
        Kind::Factor => {
            let &[cm, factor] = operands::<2>(book, from)?;
            Ok((Command::Factor { cm, factor }, from + 2))
        }
        Kind::Open => read_open(book, from),
        Kind::Measured => {
            let (class, count) = byte_and_pair(book, from)?;
            Ok((Command::Measured { class, count }, from + 3))
        }
        Kind::Height => {
            let (cm, tenths) = byte_and_pair(book, from)?;
            Ok((Command::Height { cm, tenths }, from + 3))
        }
        Kind::Close => Ok((Command::Close, from)),
        Kind::End => Ok((Command::End, from)),
        Kind::Small => {
            operands::<8>(book, from)?;
            let carbon = four(book, from);
            let count = four(book, from + 4);
            Ok((Command::Small { carbon, count }, from + 8))
        }
    }
}

// The command at a place of a book. It is put into `read`: called from there, its answer would be copied once more, and reading a
// command takes half as long again.
#[inline(always)]
#[tactic(auto, using(crate::proofs::Place::unknown), unfolding(crate::specs::Reading::read))]
fn read_any(book: &[u8], at: usize) -> Result<(Command, usize), Refusal>
    ensures { report number result ≡ read book.now at }
{
    let byte = *book.get(at).ok_or(Refusal::AtEnd)?;
    read_operands(Kind::try_from(byte)?, book, at + 1)
}

// The command at a place of a book. What is read is written back as it was.
#[tactic(auto, using(crate::proofs::Place::again))]
pub fn read(book: &[u8], at: usize) -> Result<(Command, usize), Refusal>
    ensures answer { report number result ≡ read book.now at }
    ensures again { WritesBack book.now at (report number result) }
{
    read_any(book, at)
}

// The same by a call, for `read_other`.
#[inline(never)]
fn read_apart(book: &[u8], at: usize) -> Result<(Command, usize), Refusal>
    ensures { report number result ≡ read book.now at }
{
    read_any(book, at)
}

// Any other command than the two of `read_of_line`. A routine of its own, since what a call answers lies in memory that is cleared where
// the routine with the call begins: in `read_of_line` that would be done for each measured tree.
fn read_other(book: &[u8], at: usize) -> Result<(Command, usize), Refusal>
    ensures { report number result ≡ read book.now at }
{
    read_apart(book, at)
}

// What `read` answers, with the commands of an open line looked for first: nearly all commands of a long book are of these two,
// and without it such a book takes twice as long. By the byte, as `Kind::try_from`: asked for its kind first, the byte is matched twice.
#[tactic(auto, unfolding(crate::specs::Reading::read))]
pub fn read_of_line(book: &[u8], at: usize) -> Result<(Command, usize), Refusal>
    ensures { report number result ≡ read book.now at }
{
    let byte = *book.get(at).ok_or(Refusal::AtEnd)?;
    match byte {
        0x04 => read_operands(Kind::Measured, book, at + 1),
        0x05 => read_operands(Kind::Height, book, at + 1),
        _ => read_other(book, at),
    }
}

// The place to go on from: after a command the place after it, and after a refusal the place where it was.
pub fn place_after(at: usize, answer: Result<(Command, usize), Refusal>) -> usize
    ensures { result ≡ place_after at (report number answer) }
{
    match answer {
        Ok((_, next)) => next,
        Err(_) => at,
    }
}
