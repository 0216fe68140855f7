//! How a word names a place in memory.

ghost use Rattle.std.specs.Prelude.{◌≡◌};
ghost use Rattle.zword.specs.Addressing.{place_of};

/// How a word names a place in memory (Z 1.2).
#[derive(Clone, Copy, PartialEq, Eq)]
pub enum Addressing {
    /// A byte address: the place itself (Z 1.2.1).
    Byte,
    /// A packed address: half of the place (Z 1.2.3).
    Packed,
}

impl Addressing {
    /// The place that a word names, up to 131,070.
    pub fn place(self, word: u16) -> usize
        ensures { result ≡ place_of self word }
    {
        match self {
            Addressing::Byte => usize::from(word),
            Addressing::Packed => 2 * usize::from(word),
        }
    }
}
