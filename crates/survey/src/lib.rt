// The survey that the commands of a field book make, and the totals of a whole book. A command's bytes come from the crate
// `codec`, a line and its row from `line`, what a declaration, a factor, an opening and the end decline from `rules`, the project's
// figures from `biomass`; of all of them only the promises are used here.
#![tactic(auto)]

pub mod playing;
pub mod reader;
pub mod sheet;
pub mod survey;
pub mod total;
