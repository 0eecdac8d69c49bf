// What a declaration, a factor, an opening and the end decline, by the values that they look at, and what any command changes, decided on such values. Of the
// crates below only the promises are used here.
#![tactic(auto)]

pub mod change;
pub mod checks;
