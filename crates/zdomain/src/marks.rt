//! Marks of places.

ghost use Rattle.std.specs.Prelude.{◌≡◌, ◌<◌, ◌+◌, ◌%◌, ◌*◌, ◌&&◌, ◌||◌, ◌==◌, ℕ, false, nat_lt, not, if◌then◌else◌, slice_index_or};
ghost use Rattle.std.specs.Int.{bit_at};
ghost use Rattle.zdomain.specs.Marks.{is_marked, rest_of};

use std::marker::Model;

/// A mark for each of the first eight times `BYTES` places, a bit each, so that many take little room.
#[derive(Drop)]
pub struct Marks<const BYTES: usize> {
    bytes: [u8; BYTES],
}

impl<const BYTES: usize> Model for Marks<BYTES> {
    ghost use Rattle.std.specs.Prelude.{ℕ, List};

    ghost Value = { List ℕ };

    ghost view = { λ m. m.bytes };
}

impl<const BYTES: usize> Marks<BYTES> {
    ghost use Rattle.std.specs.Prelude.{◌≡◌, ◌<◌, ◌+◌, ◌*◌, ◌&&◌, ◌||◌, ◌==◌, ℕ, false, not};
    ghost use Rattle.zdomain.specs.Marks.{is_marked};

    /// No marks.
    pub fn none() -> Marks<BYTES>
        ensures { (p : ℕ) → is_marked result p ≡ false }
    {
        Marks { bytes: [0; BYTES] }
    }

    /// Whether a place is marked. None behind the last is.
    #[inline(always)]
    pub fn has(&self, place: usize) -> bool
        ensures { result ≡ is_marked self.now place }
    {
        match self.bytes.get(place / 8) {
            Some(byte) => (*byte >> (place % 8)) & 1 == 1,
            None => false,
        }
    }

    /// Whether a place and the next one are marked: one look at the two bytes that have their marks.
    #[inline(always)]
    pub fn has_both(&self, place: usize) -> bool
        requires { place + 8 < 8 * BYTES }
        ensures { result ≡ (is_marked self.now place && is_marked self.now (place + 1)) }
    {
        are_both_set(self.bytes[place / 8], self.bytes[place / 8 + 1], place % 8)
    }

    /// Marks a place.
    #[inline(always)]
    pub fn add(&mut self, place: usize)
        requires { place < 8 * BYTES }
        ensures { (p : ℕ) → is_marked self.new p ≡ (is_marked self.old p || p == place) }
    {
        self.bytes[place / 8] |= 1 << (place % 8);
    }

    /// Makes the marks those of a whole that weren't here.
    pub fn turn_within(&mut self, whole: &Marks<BYTES>)
        ensures { (p : ℕ) → is_marked self.new p ≡ (is_marked whole.now p && not (is_marked self.old p)) }
    {
        turn_within(&mut self.bytes, &whole.bytes);
    }
}

/// Whether a bit of the first of two bytes is set, and the one above it, which is the lowest of the second where the first has no more.
#[inline(always)]
fn are_both_set(first: u8, second: u8, bit: usize) -> bool
    requires { bit < 8 }
    ensures { result ≡ ((bit_at first bit == 1) && (bit_at (if nat_lt bit 7 then first else second) ((bit + 1) % 8) == 1)) }
{
    (u16::from_le_bytes([first, second]) >> bit) & 3 == 3
}

/// Makes each byte the bits of one of a whole that it hasn't.
fn turn_within<const BYTES: usize>(bytes: &mut [u8; BYTES], whole: &[u8; BYTES])
    ensures { (k : ℕ) → slice_index_or bytes.new k 0 ≡ rest_of (slice_index_or whole.now k 0) (slice_index_or bytes.old k 0) }
{
    for k in 0..BYTES {
        bytes[k] = whole[k] & (whole[k] ^ bytes[k]);
    }
}
