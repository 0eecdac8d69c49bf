// Plays the commands on standard input, one survey after the other, and prints what came of each. The outside tests
// compare what it prints, line by line, with what they work out by themselves.
//
// From place 0 on a command is read, to one place past the end. Where reading declines, the line has the place, the number
// of the refusal and the place to go on from; and how far the book reads from one byte on, which is the next place: how
// many commands, where reading stops, and the number. Else the line has the place and the place after the command; what
// writing the command answered: the number (0 for none), the place after it (0 where it was refused) and a digest of the
// buffer; and what applying it answered: the number (0 for none) and a digest of the survey that came back. After the
// second of two commands 07 in a row a new survey begins, so that a long stream plays many.
#![tactic(auto)]

mod digest;

use codec::command::Command;
use codec::writing::write;
use digest::{Digest, UNDECLARED};
use line::line::Line;
use std::io;
use std::io::{BufWriter, Read, Write};
use survey::reader::{Extent, command_at, read_through};
use survey::survey::Survey;

// How many bytes of the stream are played at most.
const MOST_BYTES: usize = 65_536;

#[derive(Clone, Copy)]
struct Play {
    // The place of the next command.
    at: usize,
    survey: Survey,
    // The line that was opened last, which a closing leaves in no survey.
    line: Line,
    // Whether 07 stands just before that place.
    after_end: bool,
}

impl Play {
    // A new survey, whose first command is at this place.
    fn beginning(at: usize) -> Self {
        Play {
            at,
            survey: Survey::new(),
            line: Line::new(0, 0, UNDECLARED, 0, 0),
            after_end: false,
        }
    }

    // One place of the book.
    fn turn<W: Write>(self, out: &mut W, book: &[u8]) -> io::Result<Self> {
        let at = self.at;
        let advance = command_at(book, at);
        let next = advance.at;
        match advance.reading {
            Ok((command, _)) => {
                write!(out, "{at} {next} ")?;
                play_writing(out, at, command)?;
                self.applied(out, command, next)
            }
            Err(why) => {
                // The remainder is the place itself.
                let from = at % 100_000 + 1;
                let number = why.number();
                write!(out, "{at} {number} {next} ")?;
                play_reading(out, book, from)?;
                Ok(Play {
                    at: from,
                    after_end: false,
                    ..self
                })
            }
        }
    }

    // Applies the command before a place, from which it goes on.
    fn applied<W: Write>(self, out: &mut W, command: Command, next: usize) -> io::Result<Self> {
        let (survey, outcome) = self.survey.apply(command);
        let number = outcome.err().map_or(0, |why| why.number());
        let line = survey.line.unwrap_or(self.line);
        let digest = Digest(0).survey(&survey, line).0;
        writeln!(out, "{number} {digest}")?;
        let after_end = matches!(command, Command::End);
        if after_end && self.after_end {
            return Ok(Play::beginning(next));
        }
        Ok(Play {
            at: next,
            survey,
            line,
            after_end,
        })
    }
}

// Bytes that hang on the place, so that one written by mistake shows.
fn fill(buffer: &mut [u8], at: usize) {
    for (i, byte) in buffer.iter_mut().enumerate() {
        *byte = ((at % 256 + i % 256 * 7) % 256) as u8;
    }
}

// Writes the command into a buffer of 40 bytes, at a place from 0 to 47.
fn play_writing<W: Write>(out: &mut W, at: usize, command: Command) -> io::Result<()> {
    let mut buffer = [0u8; 40];
    fill(&mut buffer, at);
    let (number, next) = match write(&mut buffer, at % 48, command) {
        Ok(next) => (0, next),
        Err(why) => (why.number(), 0),
    };
    let digest = Digest(0).bytes(&buffer).0;
    write!(out, "{number} {next} {digest} ")
}

// How far the book reads from a place.
fn play_reading<W: Write>(out: &mut W, book: &[u8], from: usize) -> io::Result<()> {
    let Extent { commands, at, why } = read_through(book, from);
    let number = why.number();
    writeln!(out, "{commands} {at} {number}")
}

fn play_all<W: Write>(out: &mut W, book: &[u8]) -> io::Result<()> {
    let mut play = Play::beginning(0);
    // Each turn goes on by a byte at least, so no book takes more.
    for _ in 0..65_538u32 {
        let at = play.at;
        play = play.turn(out, book)?;
        if book.len() < at {
            break;
        }
    }
    out.flush()
}

fn main(rt: HostRuntime) -> io::Result<()> {
    let mut book = Vec::with_capacity(rt.alloc(), MOST_BYTES)?;
    // A read that fails is the end of the stream.
    let _ = rt.stdin().take(MOST_BYTES as u64).read_to_end(&mut book);
    let mut out = BufWriter::new(rt.alloc(), rt.stdout())?;
    // A write that fails ends the play. The tests look at every line, so the status need not tell.
    let _ = play_all(&mut out, &book);
    Ok(())
}
