// The two units of mass that document 01 keeps apart. Nothing here adds one to the other.
ghost use Rattle.std.specs.Prelude.{◌≡◌, cond, eqb};

// Milligrams of oven-dry biomass.
#[derive(Clone, Copy)]
pub struct Milligrams(pub u64);

// Grams of carbon dioxide equivalent.
#[derive(Clone, Copy)]
pub struct Grams(pub u64);

// A low and a high between which an exact figure lies.
#[derive(Clone, Copy)]
pub struct Range<U> {
    pub low: U,
    pub high: U,
}

impl<U: Copy> Range<U> {
    // The range of a number of trees: of none of them it is the low alone.
    pub(crate) fn of_trees(number: u64, low: U, high: U) -> Range<U>
        ensures { result ≡ record { low = low; high = cond (eqb number 0) low high } }
    {
        Range {
            low,
            high: if number == 0 { low } else { high },
        }
    }
}

// Between which an exact biomass lies.
pub type BiomassRange = Range<Milligrams>;

// Between which an exact carbon dioxide equivalent lies.
pub type CarbonRange = Range<Grams>;
