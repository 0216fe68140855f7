//! At which packed addresses something is missing.

use std::alloc::{AllocError, Global};
use zdomain::Domain;

/// How many packed addresses there are, with 0.
pub(crate) const ADDRESSES: usize = 65_536;

/// The packed addresses at which something is missing, each found at once from those before it.
#[derive(Drop)]
pub(crate) struct Gaps {
    /// The next one from each address on, or the count of these: from there on each is one.
    next: Vec<u32>,
}

impl Gaps {
    /// Those that aren't marked, and all behind the marks.
    pub(crate) fn new(alloc: Global, there: &[bool]) -> Result<Gaps, AllocError> {
        let count = there.len().min(ADDRESSES);
        let mut nearest = count as u32;
        let mut next = vec![in alloc; nearest; count]?;
        for behind in 0..count {
            let address = count - 1 - behind;
            if !there.get(address).copied().unwrap_or(false) {
                nearest = address as u32;
            }
            put(&mut next, address, nearest);
        }
        Ok(Gaps { next })
    }

    /// Whether a set has one, of those that aren't 0.
    pub(crate) fn meet<V: Domain>(&self, set: V) -> bool {
        let mut address = set.least_from(1);
        for _ in 0..ADDRESSES {
            let Some(here) = address else {
                return false;
            };
            let Some(gap) = self.next_from(here) else {
                return false;
            };
            if set.contains(gap) {
                return true;
            }
            address = set.least_from(gap);
        }
        false
    }

    /// The next one from an address on.
    fn next_from(&self, address: u16) -> Option<u16> {
        match self.next.get(usize::from(address)) {
            Some(next) => u16::try_from(*next).ok(),
            None => Some(address),
        }
    }
}

/// Puts a number at an index.
fn put(numbers: &mut Vec<u32>, index: usize, number: u32) {
    if let Some(there) = numbers.get_mut(index) {
        *there = number;
    }
}
