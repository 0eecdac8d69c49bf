// The figures of one line of a field book: document 01, steps 1 to 7 and the project's two figures; and of document 02 its small trees, and the
// square root that the root is worked with.
// This crate knows nothing of books, lines or commands. Each routine makes its own checks, answers any
// arguments at all, and promises an equation over a definition of specs/.
#![tactic(auto)]

pub mod crown;
mod ends;
pub mod limits;
pub mod mean;
pub mod operand;
mod part;
pub mod project;
pub mod report;
pub mod root;
pub mod small_trees;
pub mod square_root;
pub mod stem;
pub mod tariff;
pub mod tree;
pub mod trees;
pub mod units;
pub mod whole;
