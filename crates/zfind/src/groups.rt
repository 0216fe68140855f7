//! Which instructions depend on a thing of a number.

use std::alloc::{AllocError, Global};

/// Indices of instructions by the numbers of what they depend on.
#[derive(Drop)]
pub(crate) struct Groups {
    /// Each number with an index behind it, rising once they are sorted.
    pairs: Vec<(u16, u32)>,
}

impl Groups {
    /// None.
    pub(crate) fn new(alloc: Global) -> Groups {
        Groups {
            pairs: Vec::new(alloc),
        }
    }

    /// One more, before they are sorted.
    pub(crate) fn add(&mut self, number: u16, index: u32) -> Result<(), AllocError> {
        self.pairs.push((number, index))?;
        Ok(())
    }

    /// Sorts them.
    pub(crate) fn sort(&mut self) -> Result<(), AllocError> {
        self.pairs.sort()
    }

    /// The pairs of a number, with their indices rising.
    pub(crate) fn of(&self, number: u16) -> &[(u16, u32)] {
        let pairs = self.pairs.as_slice();
        let begin = pairs.partition_point(|pair| pair.0 < number);
        let end = pairs.partition_point(|pair| pair.0 <= number);
        pairs.get(begin..end).unwrap_or(&[])
    }
}
