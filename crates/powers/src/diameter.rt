// The unit of a diameter, and the diameters that the steps name.

// Units of a mean diameter d to the cm: d is in hundredths of a cm.
pub const UNITS_TO_CM: u64 = 100;

// The least d: 7 cm.
pub const LEAST_D: u64 = 700;

// The greatest: 100 cm.
pub const GREATEST_D: u64 = 10_000;

// The greatest d at which a crown is on its curve: 50 cm. Above it is the straight line.
pub const CROWN_LIMIT: u64 = 5000;

// The same of a root: 30 cm.
pub const ROOT_LIMIT: u64 = 3000;
