// The limits of a line and of its areas.

// How many measured trees a line has at most.
pub const MOST_MEASURED: u64 = 1_000_000;

// How many height trees.
pub const MOST_HEIGHTS: u64 = 1000;

// How many estimated trees, in hundredths: 1,000,000 trees.
pub const MOST_ESTIMATED: u64 = 100_000_000;

// The greatest net area p, and the greatest plot area q.
pub const GREATEST_AREA: u64 = 100_000_000;

// How many small trees.
pub const MOST_SMALL: u64 = 1_000_000;

// The greatest carbon of one small tree, in mg: it has 4 bytes.
pub const GREATEST_CARBON: u64 = 4_294_967_295;
