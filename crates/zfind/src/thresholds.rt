//! Where an end that grows stops first.

use std::alloc::{AllocError, Global};
use zdomain::Domain;
use zstory::Story;

/// How many there are at most.
const MOST: usize = 600;

/// The ends at which a set that is widened may stop, rising.
#[derive(Drop)]
pub(crate) struct Thresholds {
    ends: Vec<i16>,
}

impl Thresholds {
    /// Those that hold of any code: the ends of words, and of what operands name.
    pub(crate) fn new(alloc: Global, story: &Story) -> Result<Thresholds, AllocError> {
        let mut thresholds = Thresholds {
            ends: Vec::new(alloc),
        };
        for end in [i16::MIN, i16::MAX, -1, 0, 1, 31, 32, 254, 255, 256] {
            thresholds.add(end)?;
        }
        thresholds.add_around(u16::from(story.objects()))?;
        Ok(thresholds)
    }

    /// None.
    pub(crate) fn none(alloc: Global) -> Thresholds {
        Thresholds {
            ends: Vec::new(alloc),
        }
    }

    /// A number, if there is room for it.
    fn add(&mut self, end: i16) -> Result<(), AllocError> {
        if self.ends.len() >= MOST {
            return Ok(());
        }
        if let Err(index) = self.ends.as_slice().binary_search(&end) {
            self.ends.insert(index, end)?;
        }
        Ok(())
    }

    /// A word as a signed number, with those beside it.
    pub(crate) fn add_around(&mut self, word: u16) -> Result<(), AllocError> {
        let number = word.cast_signed();
        self.add(number.saturating_sub(1))?;
        self.add(number)?;
        self.add(number.saturating_add(1))
    }

    /// The greatest that isn't above a number.
    fn below(&self, number: i16) -> i16 {
        let index = match self.ends.as_slice().binary_search(&number) {
            Ok(_) => return number,
            Err(index) => index,
        };
        match index.checked_sub(1) {
            Some(before) => self.ends.get(before).copied().unwrap_or(i16::MIN),
            None => i16::MIN,
        }
    }

    /// The least that isn't below a number.
    fn above(&self, number: i16) -> i16 {
        match self.ends.as_slice().binary_search(&number) {
            Ok(_) => number,
            Err(index) => self.ends.get(index).copied().unwrap_or(i16::MAX),
        }
    }

    /// A set that has all words of a grown one, of which each end that isn't that of the set before goes to the next threshold.
    pub(crate) fn widened<V: Domain>(&self, before: V, grown: V) -> V {
        let low = grown.lowest().cast_signed();
        let high = grown.highest().cast_signed();
        let least = if low < before.lowest().cast_signed() {
            self.below(low)
        } else {
            low
        };
        let greatest = if before.highest().cast_signed() < high {
            self.above(high)
        } else {
            high
        };
        V::between(least.cast_unsigned(), greatest.cast_unsigned())
    }
}
