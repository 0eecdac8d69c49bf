// The diameters that the steps name, and the crown power at each that is on the curve.
#![tactic(auto)]

pub mod crown;
pub mod diameter;
