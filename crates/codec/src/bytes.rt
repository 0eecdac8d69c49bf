// Numbers of one to eight bytes, high byte first, and signed ones of four in two's complement.
ghost use Rattle.std.specs.Prelude.{◌≡◌, ℕ, ◌+◌, ◌<◌, get_or, length, leb};
ghost use Rattle.biomass.specs.Report.{report, unless, gives};
ghost use Rattle.codec.specs.Refusal.{number};
ghost use Rattle.codec.specs.Bytes.{byte, number_at, bytes, store, after_store, signed, unsigned};

use super::refusal::Refusal;

// The byte at a place; 0 past the end. No `Option`, in this one and in the three wider ones below: what cannot fail stays so.
pub fn byte(s: &[u8], at: usize) -> u8
    ensures { result ≡ byte s.now at }
{
    s.get(at).copied().unwrap_or(0)
}

// The bytes from a place on; none past the end.
fn rest(s: &[u8], at: usize) -> &[u8]
    ensures { (k : ℕ) → byte result.now k ≡ byte s.now (at + k) }
{
    s.get(at..).unwrap_or(&[])
}

// The N bytes from a place on. Here and below, a byte past the end is 0.
fn bytes_from<const N: usize>(s: &[u8], at: usize) -> [u8; N]
    ensures { (k : ℕ) → k < N → get_or result k 0 ≡ byte s.now (at + k) }
{
    let rest = rest(s, at);
    let mut all = [0; N];
    // Not `array::from_fn`, of whose closure it is not promised that it leaves the slice as it is.
    for i in 0..N {
        all[i] = byte(rest, i);
    }
    all
}

// The number in the two bytes from a place on. This one and the next two stay apart, since their numbers are of three types.
pub fn two(s: &[u8], at: usize) -> u16
    ensures { result ≡ number_at 2 s.now at }
{
    u16::from_be_bytes(bytes_from(s, at))
}

// The number in the four bytes from a place on.
pub fn four(s: &[u8], at: usize) -> u32
    ensures { result ≡ number_at 4 s.now at }
{
    u32::from_be_bytes(bytes_from(s, at))
}

// The number in the eight bytes from a place on.
pub fn eight(s: &[u8], at: usize) -> u64
    ensures { result ≡ number_at 8 s.now at }
{
    u64::from_be_bytes(bytes_from(s, at))
}

// The signed number that 32 bits stand for.
pub fn signed_of(bits: u32) -> i32
    ensures { result ≡ signed bits }
{
    bits.cast_signed()
}

// The signed number in the four bytes from a place on.
pub(crate) fn signed_four(s: &[u8], at: usize) -> i32
    ensures { result ≡ signed (number_at 4 s.now at) }
{
    signed_of(four(s, at))
}

// The 32 bits that stand for a signed number.
pub fn bits_of(x: i32) -> u32
    ensures { result ≡ unsigned x }
{
    x.cast_unsigned()
}

// Stores the last `width` bytes of a number, of any width, from a place on, and answers the place after them. Where there is no room for all of
// them, nothing is written, and the answer is the place given. It stays beside `put`, of which the width is part of the type.
pub fn store(buffer: &mut [u8], at: usize, width: usize, x: u64) -> usize
    ensures bytes { buffer.new ≡ store buffer.old at (bytes width x) }
    ensures place { result ≡ after_store buffer.old at (bytes width x) }
{
    if buffer.len() < width {
        return at;
    }
    if buffer.len() - width < at {
        return at;
    }
    let mut rest = x;
    for i in (0..width).rev() {
        buffer[at + i] = (rest % 256) as u8;
        rest /= 256;
    }
    at + width
}

// Stores bytes from a place on, and answers the place after them. Where there is no room for all of them, nothing is written.
#[tactic(auto, unfolding(crate::specs::Bytes::store, crate::specs::Bytes::stored_at))]
pub fn put<const N: usize>(buffer: &mut [u8], at: usize, bytes: [u8; N]) -> Result<usize, Refusal>
    ensures answer { report number result ≡ unless (leb (at + N) (length buffer.old)) 4 (gives (at + N)) }
    ensures stored { buffer.new ≡ store buffer.old at bytes.entry }
{
    if buffer.len() < N {
        return Err(Refusal::NoRoom);
    }
    if buffer.len() - N < at {
        return Err(Refusal::NoRoom);
    }
    buffer[at..at + N].copy_from_slice(&bytes);
    Ok(at + N)
}
