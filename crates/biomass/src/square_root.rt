// Document 02, Q-3: the square root, which comes with its square.
ghost use Rattle.std.specs.Prelude.{◌≡◌};
ghost use Rattle.biomass.specs.SquareRoot.{square_root};

// A root, and its square.
#[derive(Clone, Copy)]
pub struct SquareRoot {
    pub root: u64,
    pub square: u64,
}

// The greatest root whose square is not above x, bit by bit from the highest that it can have. No trial is multiplied:
// the square of root + bit is root² + 2·root·bit + bit², and these three are carried along, as `square`, `cross` and
// `area`. Each bit is half of the one before: so `cross` falls to its half, and gains bit² where the bit was taken, and
// after 1, the last bit, it is the root itself.
pub fn square_root(x: u64) -> SquareRoot
    ensures { result ≡ square_root x }
{
    let mut square: u64 = 0;
    let mut cross: u64 = 0;
    // The greatest power of 4 that is not above x; of 0 it is 1.
    let mut area: u64 = 0x4000_0000_0000_0000 >> (u64::leading_zeros(x | 1) / 2 * 2);
    while 0 < area {
        let trial = square + cross + area;
        cross /= 2;
        if trial <= x {
            square = trial;
            cross += area;
        }
        area /= 4;
    }
    SquareRoot {
        root: cross,
        square,
    }
}
