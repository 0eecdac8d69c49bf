// Writing one command at a place of a lent buffer.
ghost use Rattle.std.specs.Prelude.{◌≡◌};
ghost use Rattle.biomass.specs.Report.{report};
ghost use Rattle.codec.specs.Bytes.{bytes, unsigned};
ghost use Rattle.codec.specs.Refusal.{number};
ghost use Rattle.codec.specs.Command.{Fits};
ghost use Rattle.codec.specs.Writing.{write, buffer_after};
ghost use Rattle.codec.specs.RoundTrip.{ReadsBack};

use super::bytes::{bits_of, put};
use super::command::{Command, Kind, Species};
use super::refusal::Refusal;

// The bytes of a signed operand.
#[tactic(auto, using(crate::proofs::Law::Bytes::last_byte))]
fn constant(x: i32) -> [u8; 4]
    ensures { result ≡ bytes 4 (unsigned x) }
{
    bits_of(x).to_be_bytes()
}

#[tactic(auto, unfolding(crate::specs::Writing::write))]
fn write_species(buffer: &mut [u8], at: usize, id: u8, s: Species) -> Result<usize, Refusal>
    ensures answer { report number result ≡ write buffer.old at (Command.Species id s) }
    ensures stored { buffer.new ≡ buffer_after buffer.old at (Command.Species id s) }
{
    let [a3, a2, a1, a0] = constant(s.constants.c1);
    let [b3, b2, b1, b0] = constant(s.constants.c2);
    let [c3, c2, c1, c0] = constant(s.constants.c3);
    let [d3, d2, d1, d0] = constant(s.constants.c4);
    let first = Kind::Species.byte();
    put(
        buffer,
        at,
        [
            first, id, s.crown, s.root, s.gravity, a3, a2, a1, a0, b3, b2, b1, b0, c3, c2, c1, c0,
            d3, d2, d1, d0,
        ],
    )
}

// Any command, as `write` writes it.
#[tactic(auto, using(crate::proofs::Law::Bytes::last_byte), unfolding(crate::specs::Writing::write))]
fn write_command(buffer: &mut [u8], at: usize, command: Command) -> Result<usize, Refusal>
    ensures answer { report number result ≡ write buffer.old at command }
    ensures stored { buffer.new ≡ buffer_after buffer.old at command }
    ensures fits { Fits command }
{
    let first = command.kind().byte();
    match command {
        Command::Species(id, s) => write_species(buffer, at, id, s),
        Command::Factor { cm, factor } => put(buffer, at, [first, cm, factor]),
        Command::Open {
            stratum,
            species,
            p,
            q,
        } => {
            let [p3, p2, p1, p0] = p.to_be_bytes();
            let [q3, q2, q1, q0] = q.to_be_bytes();
            put(
                buffer,
                at,
                [first, stratum, species, p3, p2, p1, p0, q3, q2, q1, q0],
            )
        }
        Command::Measured { class, count } => {
            let [high, low] = count.to_be_bytes();
            put(buffer, at, [first, class, high, low])
        }
        Command::Height { cm, tenths } => {
            let [high, low] = tenths.to_be_bytes();
            put(buffer, at, [first, cm, high, low])
        }
        Command::Close | Command::End => put(buffer, at, [first]),
        Command::Small { carbon, count } => {
            let [c3, c2, c1, c0] = carbon.to_be_bytes();
            let [n3, n2, n1, n0] = count.to_be_bytes();
            put(buffer, at, [first, c3, c2, c1, c0, n3, n2, n1, n0])
        }
    }
}

// Writes a command from a place on. Where it does not fit, nothing is written.
#[tactic(auto, using(crate::proofs::Law::RoundTrip::reads_back))]
pub fn write(buffer: &mut [u8], at: usize, command: Command) -> Result<usize, Refusal>
    ensures answer { report number result ≡ write buffer.old at command }
    ensures stored { buffer.new ≡ buffer_after buffer.old at command }
    ensures back { ReadsBack buffer.new at command (report number result) }
{
    write_command(buffer, at, command)
}
