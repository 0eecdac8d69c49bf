// Playing a book: its commands are applied to a fresh survey, to the end of the book or to the first refusal.
ghost use Rattle.std.specs.Prelude.{◌≡◌, ◌≤◌, length, false};
ghost use Rattle.survey.specs.Survey.{fresh};
ghost use Rattle.survey.specs.Playing.{played, PlaysOn, Steps, play_from, play};

use super::survey::Survey;
use codec::command::Command;
use codec::reading::{read, read_of_line};
use codec::refusal::Refusal;
use line::line::Line;

// Why a book is refused, and the place of the refused command.
#[derive(Clone, Copy, Debug, PartialEq, Eq)]
pub struct Stopped {
    pub why: Refusal,
    pub at: usize,
}

// Measured trees and height trees of an open line, from a place on up to the first command that is another or that is
// refused: the place of that command. Nearly all commands of a long book are of these two, and they change the line alone:
// read and taken as all others are, they take two to three times as long.
fn note_trees(book: &[u8], from: usize, line: &mut Line) -> usize
    requires { from ≤ length book.now }
    ensures place { (from ≤ result) × (result ≤ length book.now) }
    ensures plays { PlaysOn book.now from line.old result line.new }
{
    let mut at = from;
    while let Ok((command, next)) = read_of_line(book, at) {
        let noted = match command {
            Command::Measured { class, count } => line.add_trees(class, count),
            Command::Height { cm, tenths } => line.add_height(cm, tenths),
            _ => return at,
        };
        if noted.is_err() {
            return at;
        }
        at = next;
    }
    at
}

// The same of the survey's open line, where one is open. It is noted on a copy, which the loop keeps in registers.
fn pass_trees(book: &[u8], from: usize, survey: &mut Survey) -> usize
    requires { (survey.old.ended ≡ false) × (from ≤ length book.now) }
    ensures place { (from ≤ result) × (result ≤ length book.now) }
    ensures open { survey.new.ended ≡ false }
    ensures plays { play_from book.now result survey.new ≡ play_from book.now from survey.old }
{
    match &mut survey.line {
        Some(line) => {
            let mut noted = *line;
            let at = note_trees(book, from, &mut noted);
            *line = noted;
            at
        }
        None => from,
    }
}

// Any command, and the place after it.
fn step(survey: &mut Survey, book: &[u8], at: usize) -> Result<usize, Refusal>
    ensures { Steps book.now at survey.old result survey.new }
{
    let (command, next) = read(book, at)?;
    survey.take(command)?;
    Ok(next)
}

// The lines of a book and their commands, played on a fresh survey: it is left as it is at the end of the book, or the book is stopped.
// It is lent, since one that is answered is copied at each step out, and a survey is the greatest thing that totalling keeps.
#[tactic(auto, using(crate::proofs::Law::Playing::plays_end, crate::proofs::Law::Playing::plays_past_end), unfolding(crate::specs::Playing::play))]
pub(crate) fn play(book: &[u8], survey: &mut Survey) -> Result<(), Stopped>
    requires { survey.old ≡ fresh }
    ensures { played result survey.new ≡ play book.now }
{
    let mut at = 0;
    let stopped = 'lines: loop {
        // The commands of a line; where none is open, one command.
        loop {
            at = pass_trees(book, at, survey);
            match step(survey, book, at) {
                Ok(next) => at = next,
                Err(why) => break 'lines Stopped { why, at },
            }
            if survey.line.is_none() || survey.ended {
                break;
            }
        }
        if survey.ended {
            if book.len() <= at {
                return Ok(());
            }
            break Stopped {
                why: Refusal::Ended,
                at,
            };
        }
    };
    Err(stopped)
}
