//! What a walk asks of a kind of sets.

use std::alloc::{AllocError, Global};
use zcert::Spelled;
use zdomain::Interval;

/// A kind of sets by which a walk goes.
pub trait Kind: Spelled {
    /// A set as it is kept of each place.
    type Kept: Copy + Drop;

    /// What is kept once of all places.
    type Shelf: Drop;

    /// Nothing yet.
    fn shelf(alloc: Global) -> Self::Shelf;

    /// Keeps a set.
    fn shelve(self, shelf: &mut Self::Shelf) -> Result<Self::Kept, AllocError>;

    /// The set that is kept so.
    fn kept(kept: Self::Kept, shelf: &Self::Shelf) -> Self;

    /// Whether there was no room for a set, so that the walk is to stop: more is kept for it than it has.
    fn is_full(shelf: &Self::Shelf) -> bool;

    /// How many words it has, where it tells them one by one.
    fn told(self) -> usize;
}

impl Kind for Interval {
    type Kept = Interval;

    type Shelf = ();

    fn shelf(_: Global) {}

    fn shelve(self, _: &mut ()) -> Result<Interval, AllocError> {
        Ok(self)
    }

    fn kept(kept: Interval, _: &()) -> Interval {
        kept
    }

    fn is_full(_: &()) -> bool {
        false
    }

    fn told(self) -> usize {
        0
    }
}
