// A command's bytes: the commands of a field book, and reading and writing one. Of `biomass` only the refusals and the constants of a species are used here.
#![tactic(auto)]

pub mod bytes;
pub mod command;
pub mod reading;
pub mod refusal;
pub mod writing;
