// A test of whole numbers that the figures share.
ghost use Rattle.std.specs.Prelude.{◌≡◌};
ghost use Rattle.biomass.specs.Whole.{inside};

// Whether x is from lo to hi, ends included.
pub fn within(lo: u64, x: u64, hi: u64) -> bool
    ensures { result ≡ inside lo x hi }
{
    (lo..=hi).contains(&x)
}
