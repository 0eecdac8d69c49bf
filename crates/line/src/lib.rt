// A line of a field book: what is noted of it while it is open, and the row that it leaves. The figures come from `biomass`, of which
// only the promises are used here.
#![tactic(auto)]

pub mod line;
pub mod row;
