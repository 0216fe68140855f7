//! Lists of words, each kept once.

use crate::code::short;
use crate::kind::Kind;
use crate::span::span;
use std::alloc::{AllocError, Global};
use zdomain::{Domain, Interval, MOST_FEW, Scattered, Values};

/// How many different lists a walk keeps at most (own).
const MOST_LISTS: usize = 65_536;

/// The lists that a walk keeps. Most lists are those of many places.
#[derive(Drop)]
pub struct Shelf {
    lists: Vec<Scattered>,
    /// Where each stands, in the order of their words.
    order: Vec<u32>,
    /// Whether one more was to be kept than may be.
    is_full: bool,
}

/// A set as it is kept: an interval, or where its list stands.
#[derive(Clone, Copy)]
pub enum KeptValues {
    Run(Interval),
    List(u32),
}

impl Shelf {
    /// One with no list.
    fn new(alloc: Global) -> Shelf {
        Shelf {
            lists: Vec::new(alloc),
            order: Vec::new(alloc),
            is_full: false,
        }
    }

    /// Keeps a list, if there is room. Answers where it stands.
    fn keep(&mut self, list: Scattered) -> Result<Option<u32>, AllocError> {
        let at = self.place_of(list.few.as_slice());
        if let Some(there) = self.there(at, list.few.as_slice()) {
            return Ok(Some(there));
        }
        if self.lists.len() >= MOST_LISTS {
            self.is_full = true;
            return Ok(None);
        }
        let number = short(self.lists.len());
        self.lists.push(list)?;
        self.order.insert(at.min(self.order.len()), number)?;
        Ok(Some(number))
    }

    /// How many lists come before these words in the order.
    fn place_of(&self, words: &[u16]) -> usize {
        let mut low = 0;
        let mut high = self.order.len();
        for _ in 0..usize::BITS {
            if low >= high {
                return low;
            }
            let middle = low.saturating_add(high.saturating_sub(low) / 2);
            if self.comes_before(middle, words) {
                low = middle.saturating_add(1);
            } else {
                high = middle;
            }
        }
        low
    }

    /// Whether the list at a place of the order comes before these words.
    fn comes_before(&self, place: usize, words: &[u16]) -> bool {
        self.words_at(place) < words
    }

    /// Where these words stand, if they are those at a place of the order.
    fn there(&self, place: usize, words: &[u16]) -> Option<u32> {
        if self.words_at(place) == words {
            self.order.get(place).copied()
        } else {
            None
        }
    }

    /// The words of the list at a place of the order.
    fn words_at(&self, place: usize) -> &[u16] {
        match self.order.get(place) {
            Some(number) => self.words(*number),
            None => &[],
        }
    }

    /// The words of the list that stands there.
    fn words(&self, number: u32) -> &[u16] {
        match self.lists.get(number as usize) {
            Some(list) => list.few.as_slice(),
            None => &[],
        }
    }

    /// The list that stands there.
    fn list(&self, number: u32) -> Values {
        match self.lists.get(number as usize) {
            Some(list) => Values::List(*list),
            None => Values::any(),
        }
    }
}

impl Kind for Values {
    type Kept = KeptValues;

    type Shelf = Shelf;

    fn shelf(alloc: Global) -> Shelf {
        Shelf::new(alloc)
    }

    fn shelve(self, shelf: &mut Shelf) -> Result<KeptValues, AllocError> {
        let hull = Interval::between(self.lowest(), self.highest());
        let number = match self {
            Values::Run(_) => None,
            Values::List(list) => shelf.keep(list)?,
        };
        Ok(match number {
            Some(number) => KeptValues::List(number),
            None => KeptValues::Run(hull),
        })
    }

    fn kept(kept: KeptValues, shelf: &Shelf) -> Values {
        match kept {
            KeptValues::Run(run) => Values::Run(run),
            KeptValues::List(number) => shelf.list(number),
        }
    }

    fn is_full(shelf: &Shelf) -> bool {
        shelf.is_full
    }

    fn told(self) -> usize {
        match self {
            Values::Run(run) => told_of_run(run),
            Values::List(list) => list.few.as_slice().len(),
        }
    }
}

/// How many words an interval has, where it is short enough for a list.
fn told_of_run(run: Interval) -> usize {
    let count = span(run) as usize;
    if count <= MOST_FEW { count } else { 0 }
}
