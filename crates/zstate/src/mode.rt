//! Where random numbers come from.

/// Where `random` takes its numbers from (Z 2.4; the form of the count is the profile's own).
#[derive(Clone, Copy, Debug, PartialEq, Eq)]
pub enum RandomMode {
    /// From words that are handed in.
    Words,
    /// From the count 1, 2, .., seed, 1, ..
    Counting {
        /// The last number of a round, 1 to 32,768.
        seed: u16,
        /// The number that comes next, 1 to the seed.
        next: u16,
    },
}
