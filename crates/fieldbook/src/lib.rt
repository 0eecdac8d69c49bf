// For programs in other languages: totalling a book, reading and writing its commands, and the figures. Each function
// answers 0 or the number of a refusal, and puts what it found into the numbers that its caller lends; the square root,
// which refuses nothing, answers nothing. specs/Layout.antt says what stands where.
#![tactic(auto)]

mod books;
mod commands;
mod figures;
mod layout;
