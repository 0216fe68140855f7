//! Which instructions are to be visited.

use std::alloc::{AllocError, Global};
use std::cmp::Reverse;
use std::collections::BinaryHeap;

/// The instructions that are to be visited, by their indices among the listed ones: the highest rank comes first, and of one rank the
/// lowest index.
#[derive(Drop)]
pub(crate) struct Queue {
    /// Each rank with its index.
    heap: BinaryHeap<(u32, Reverse<u32>)>,
    waiting: Vec<bool>,
}

impl Queue {
    /// None of so many.
    pub(crate) fn new(alloc: Global, count: usize) -> Result<Queue, AllocError> {
        Ok(Queue {
            heap: BinaryHeap::new(alloc),
            waiting: vec![in alloc; false; count]?,
        })
    }

    /// One more, if it isn't there.
    pub(crate) fn push(&mut self, index: u32, rank: u32) -> Result<(), AllocError> {
        let Some(waiting) = self.waiting.get_mut(index as usize) else {
            return Ok(());
        };
        if !*waiting {
            self.heap.push((rank, Reverse(index)))?;
            *waiting = true;
        }
        Ok(())
    }

    /// The next one.
    pub(crate) fn next(&self) -> Option<usize> {
        let (_, Reverse(index)) = *self.heap.peek()?;
        Some(index as usize)
    }

    /// Takes the next one out.
    pub(crate) fn remove_next(&mut self) {
        let Some((_, Reverse(index))) = self.heap.pop() else {
            return;
        };
        if let Some(waiting) = self.waiting.get_mut(index as usize) {
            *waiting = false;
        }
    }

    /// Whether it is there.
    pub(crate) fn has(&self, index: usize) -> bool {
        self.waiting.get(index).copied().unwrap_or(false)
    }

    /// Whether there is none.
    pub(crate) fn is_empty(&self) -> bool {
        self.heap.is_empty()
    }
}
