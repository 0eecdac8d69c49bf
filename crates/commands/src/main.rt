// Reads a field book from standard input and prints its commands, one to a line: the place of the command, then the
// command in the words of examples/README.md. Then a line says how many commands there are and how many bytes they take,
// and where these are not all the bytes, a last line has the number of the refusal and its place. Input longer than
// 65,536 bytes prints `too long` and nothing else.
//
// The commands are printed as they stand. Whether their operands are in range, whether the book has its end, and whether
// commands follow it, is for totalling to judge: a book that is listed here to its last byte may still be refused there.
#![tactic(auto)]

ghost use Rattle.std.specs.Prelude.{Some, ◌++◌, codes};
ghost use Rattle.std.specs.Fmt.{signed_decimal};
ghost use Rattle.commands.specs.Words.{declared, words};

use biomass::tariff::Constants;
use codec::command::{Command, Species};
use console::{Output, PrintsBook, RefusalLine, print_of_book};
use std::fmt::{Display, Formatter};
use std::io::Write;
use std::{fmt, io};
use survey::reader::{BookReader, Extent, read_through};

// A constant, after a space. Its sign goes with the space and not with its digits: a line goes out in the parts in which it always
// did, since they decide how much is written at a time, and what is out before a write that fails.
#[derive(Clone, Copy)]
struct Constant(i32);

impl Display for Constant {
    ghost output = { λ n. Some (codes " " ++ signed_decimal n.0) };

    fn fmt<W: fmt::Write>(&self, f: &mut Formatter<W>) -> fmt::Result {
        let size = self.0.unsigned_abs();
        if self.0 < 0 {
            write!(f, " -{size}")
        } else {
            write!(f, " {size}")
        }
    }
}

// What a species is declared with, in words, after a space, which goes with the first word for the same reason.
#[derive(Clone, Copy)]
struct Declared(Species);

impl Display for Declared {
    ghost output = { λ species. Some (codes " " ++ declared species.0) };

    fn fmt<W: fmt::Write>(&self, f: &mut Formatter<W>) -> fmt::Result {
        let (crown, root, gravity) = (self.0.crown, self.0.root, self.0.gravity);
        let Constants { c1, c2, c3, c4 } = self.0.constants;
        write!(
            f,
            " crown {crown} root {root} gravity {gravity} constants{}{}{}{}",
            Constant(c1),
            Constant(c2),
            Constant(c3),
            Constant(c4)
        )
    }
}

// A command in words.
#[derive(Clone, Copy)]
struct Words(Command);

impl Display for Words {
    ghost output = { λ command. Some (words command.0) };

    fn fmt<W: fmt::Write>(&self, f: &mut Formatter<W>) -> fmt::Result {
        match self.0 {
            Command::Species(id, species) => write!(f, "species {id}{}", Declared(species)),
            Command::Factor { cm, factor } => write!(f, "factor {cm} cm {factor}"),
            Command::Open {
                stratum,
                species,
                p,
                q,
            } => write!(f, "open stratum {stratum} species {species} p {p} q {q}"),
            Command::Measured { class, count } => write!(f, "measured {class} cm {count}"),
            Command::Height { cm, tenths } => write!(f, "height {cm} cm {tenths}"),
            Command::Close => write!(f, "close"),
            Command::End => write!(f, "end"),
            Command::Small { carbon, count } => write!(f, "small {carbon} mg {count}"),
        }
    }
}

// Each command's line. `read_through` counted so many, so none is passed over, and the count shows that the loop ends.
fn print_commands<W: Write + Drop>(
    output: &mut Output<W>,
    book: &[u8],
    commands: usize,
) -> io::Result<()> {
    let mut reader = BookReader::new(book);
    for _ in 0..commands {
        let at = reader.at;
        if let Ok((command, _)) = reader.next() {
            writeln!(output, "{at} {}", Words(command))?;
        }
    }
    Ok(())
}

// The commands of a book, how far it reads, and where that is not its end, why.
#[derive(Clone, Copy)]
struct CommandList;

impl<W: Write + Drop> PrintsBook<W> for CommandList {
    fn print(self, output: &mut Output<W>, book: &[u8]) -> io::Result<()> {
        let Extent { commands, at, why } = read_through(book, 0);
        print_commands(output, book, commands)?;
        writeln!(output, "commands {commands} bytes {at}")?;
        // After the last byte there is no command to refuse.
        if at < book.len() {
            let number = why.number();
            write!(output, "{}", RefusalLine { number, at })?;
        }
        Ok(())
    }
}

fn main(rt: HostRuntime) {
    // A write that fails ends the text, and the status does not tell.
    let _ = print_of_book(&mut rt.stdin(), Output::new(&rt), CommandList);
}
