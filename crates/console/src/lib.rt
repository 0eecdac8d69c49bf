// What the programs share: a book from standard input, and text to standard output that stops where a write fails.
#![tactic(auto)]

ghost use Rattle.std.specs.Prelude.{List, ℕ, ⊤, Result, ◌≡◌, ◌≤◌, ◌↔◌, ◌<◌, true, false, length, take, codes, Some, IsErr, is_ok, OnOk, IfSome, IfOk};
ghost use Rattle.std.specs.Io.Buffered.{writer_contents};
ghost use Rattle.std.specs.Io.KnownBytes.{Keeps, Consumes};
ghost use Rattle.console.specs.Console.{most_bytes, PrintedBy, Prints, printed, refusal_line, writer_of};

use std::fmt::{Display, Formatter};
use std::io::{BufWriter, ErrorKind, Print, Printer, Read, Write};
use std::{fmt, io};

// How many bytes a book has at most.
const MOST_BYTES: usize = 65_536;

// Room for a byte more than a book may have, so that longer input shows. An array, since a `Vec` could find no memory.
pub fn input_buffer() -> [u8; 65_537]
    ensures { 65537 ≡ length result }
{
    [0u8; 65_537]
}

// Reads the input to its end or until the buffer is full, and answers how many bytes came, as `Read::read` does: the lent
// buffer then begins with them, which a slice of it could not say. A read that fails is the end of the input.
pub fn read_input<R: Read>(input: &mut R, buffer: &mut [u8]) -> usize
    ensures within { (result ≤ length buffer.new) × (result ≡ length (take result buffer.new)) }
    ensures bytes { Consumes (R.remaining input.old) (R.remaining input.new) (take result buffer.new) }
{
    let mut came = 0;
    while came < buffer.len() {
        match input.read(&mut buffer[came..]) {
            Ok(0) | Err(_) => return came,
            Ok(n) => came += n,
        }
    }
    came
}

// Input that is longer than a book may be, and the line that says so.
#[derive(Clone, Copy)]
pub struct TooLong;

impl Display for TooLong {
    ghost output = { λ _. Some (codes "too long\n") };

    fn fmt<W: fmt::Write>(&self, f: &mut Formatter<W>) -> fmt::Result {
        writeln!(f, "too long")
    }
}

// The input as a book, where it is not longer than one.
pub fn book(input: &[u8]) -> Result<&[u8], TooLong>
    ensures ok { IfOk result (λ b. b ≡ input.entry) }
    ensures err { IsErr result ↔ (most_bytes < length input.now) }
{
    if MOST_BYTES < input.len() {
        return Err(TooLong);
    }
    Ok(input)
}

// The line of a refusal: its number, and its place.
#[derive(Clone, Copy)]
pub struct RefusalLine {
    pub number: u8,
    pub at: usize,
}

impl Display for RefusalLine {
    ghost output = { λ line. Some (refusal_line line.number line.at) };

    fn fmt<W: fmt::Write>(&self, f: &mut Formatter<W>) -> fmt::Result {
        let RefusalLine { number, at } = *self;
        writeln!(f, "refused {number} at {at}")
    }
}

// Text on its way to a writer, printed by `write!`. Past a write that fails nothing more is written: what comes out is always
// a beginning of the text, and no number is cut in its middle and gone on with. `finish` ends it: where an output is let go
// without that, the buffer tries once more to write what waits.
#[derive(Drop)]
pub struct Output<W: Write + Drop> {
    // Whether all of the text is out so far or waits in the buffer. A flag, and no `Option` of the writer: a failed write
    // leaves the writer there, to be handed back by `finish`.
    pub good: bool,
    writer: BufWriter<W>,
}

impl<'a, R: Print + AllocGlobal> Output<Printer<'a, R>> {
    // Standard output. Where there is no memory for a buffer, each part is written as it comes.
    pub fn new(rt: &'a R) -> Self
        ensures { result.good ≡ true }
    {
        let writer = BufWriter::new(rt.alloc(), io::writer(rt)).unwrap_or_else(|_| {
            BufWriter::with_capacity(rt.alloc(), 0, io::writer(rt)).unwrap()
        });
        Output::over(writer)
    }
}

impl<W: Write + Drop> Output<W> {
    pub fn over(writer: BufWriter<W>) -> Self
        ensures good { result.good ≡ true }
        ensures printed { printed W.contents result ≡ writer_contents W.contents writer }
    {
        Output { good: true, writer }
    }

    // Prints a text after all that was printed before.
    pub fn write_fmt<T: Display + Drop>(&mut self, text: T) -> io::Result<()>
        ensures stays { self.old.good ≡ false → self.new ≡ self.old }
        ensures good { self.new.good ≡ is_ok result }
        ensures written { OnOk result (IfSome (T.output text) (Prints W.contents self.old self.new)) }
    {
        if !self.good {
            return Err(ErrorKind::BrokenPipe.into());
        }
        let printed = self.writer.write_fmt(text);
        self.good = printed.is_ok();
        printed
    }

    // Writes what waits in the buffer, and answers the writer and whether all that was printed is out. No `Result`, since the
    // writer comes back either way.
    pub fn finish(mut self) -> (W, bool)
        ensures stays { self.good ≡ false → result ≡ (writer_of self, false) }
        ensures written { result.1 ≡ true → Keeps (printed W.contents self) (W.contents result.0) }
    {
        if self.good {
            self.good = self.writer.flush().is_ok();
        }
        let Output { good, writer } = self;
        // What a failed write left is let go: the buffer would write it when it is dropped.
        let (inner, _) = writer.into_parts();
        (inner, good)
    }
}

// What a program prints of a book, on an output that is lent with it.
pub trait PrintsBook<W: Write + Drop> {
    ghost use Rattle.std.specs.declared.io.Error.{Error};
    ghost use Rattle.console.specs.declared.Output.{Output};

    // Whether, lent the first output and the book, it may answer so and leave the second. Where an `impl` says nothing, it may leave any.
    ghost prints: { Self → Output W → List ℕ → Result ⊤ Error → Output W → Type 0 } = { λ _ _ _ _ _. ⊤ };

    fn print(self, output: &mut Output<W>, book: &[u8]) -> io::Result<()>
        ensures { prints self output.old book.now result output.new };
}

// What a program does: reads a book and lends it to what prints it, or says that it is too long, and finishes the output.
pub fn print_of_book<I: Read, W: Write + Drop, P: PrintsBook<W> + Drop>(
    input: &mut I,
    mut output: Output<W>,
    printer: P,
) -> (W, bool)
    ensures { (bytes : List ℕ) × (last : Output W) × Consumes (I.remaining input.old) (I.remaining input.new) bytes
        × (length bytes ≤ most_bytes → PrintedBy (P.prints printer) output bytes last)
        × (most_bytes < length bytes → last.good ≡ true → Prints W.contents output last (codes "too long\n"))
        × (result.1 ≡ true → (last.good ≡ true) × Keeps (printed W.contents last) (W.contents result.0)) }
{
    let mut buffer = input_buffer();
    let n = read_input(input, &mut buffer);
    // Whether a write failed, the output knows.
    let _ = match book(&buffer[..n]) {
        Ok(book) => printer.print(&mut output, book),
        Err(too_long) => write!(output, "{too_long}"),
    };
    output.finish()
}
