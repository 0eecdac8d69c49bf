// A reader that holds a book and a cursor, above the plain reader of one command.
ghost use Rattle.std.specs.Prelude.{◌≡◌};
ghost use Rattle.biomass.specs.Report.{report};
ghost use Rattle.codec.specs.Reading.{read, place_after};
ghost use Rattle.codec.specs.Refusal.{number};
ghost use Rattle.survey.specs.Reader.{reach, extent, counted};

use codec::command::Command;
use codec::reading::read;
use codec::refusal::Refusal;

// A book, and the place of the command that is read next, for whoever goes on reading; other routines take a place and answer
// one. It is no `Iterator`: the `None` of one has no room for why reading stops, which is all that tells a book read to its end
// from one cut short.
#[derive(Clone, Copy)]
pub struct BookReader<'a> {
    pub book: &'a [u8],
    pub at: usize,
}

// What a reader answers at a place, and the place to go on from, which there is after a refusal too: so it stands beside the answer.
#[derive(Clone, Copy)]
pub struct Advance {
    pub reading: Result<(Command, usize), Refusal>,
    pub at: usize,
}

// How far a book reads: how many commands, the place where reading stopped, and why, which is AtEnd at the end of the book
// and past it.
#[derive(Clone, Copy)]
pub struct Extent {
    pub commands: usize,
    pub at: usize,
    pub why: Refusal,
}

impl<'a> BookReader<'a> {
    // At the book's first byte.
    pub fn new(book: &'a [u8]) -> BookReader<'a>
        ensures { result ≡ record { book = book.entry; at = 0 } }
    {
        BookReader { book, at: 0 }
    }

    // The command at the cursor, which goes on to the place after it. After a refusal the cursor is where it was.
    pub fn next(&mut self) -> Result<(Command, usize), Refusal>
        ensures answer { report number result ≡ read self.old.book.now self.old.at }
        ensures cursor { self.new ≡ record { book = self.old.book; at = place_after self.old.at (report number result) } }
    {
        let (command, next) = read(self.book, self.at)?;
        self.at = next;
        Ok((command, next))
    }
}

// What a reader of the book answers with its cursor at a place, for callers that keep the book and the place themselves.
pub fn command_at(book: &[u8], at: usize) -> Advance
    ensures answer { report number result.reading ≡ read book.now at }
    ensures cursor { result.at ≡ place_after at (report number result.reading) }
{
    let mut reader = BookReader { book, at };
    let reading = reader.next();
    Advance {
        reading,
        at: reader.at,
    }
}

// Reads a book from a place on, command by command, to its end or to the first refusal.
pub fn read_through(book: &[u8], from: usize) -> Extent
    ensures { extent result ≡ counted (reach book.now from) }
{
    let mut reader = BookReader { book, at: from };
    let mut commands = 0;
    loop {
        if let Err(why) = reader.next() {
            return Extent {
                commands,
                at: reader.at,
                why,
            };
        }
        commands += 1;
    }
}
