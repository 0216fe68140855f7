//! The faults that lenient play answers: the first of each place is kept, and all are counted.

ghost use Rattle.std.specs.Prelude.{◌≡◌, ◌+◌, ◌-◌, ◌^◌, ◌∷◌, ◌++◌, ◌↔◌, [], false, min, true, IsTrue, List, Ok, OnErr};
ghost use Rattle.std.specs.List.{Any};
ghost use Rattle.zplayer.specs.declared.noting.Answered.{Answered as AnAnswered};
ghost use Rattle.zplayer.specs.Leniently.{is_noted};

use std::alloc::{AllocError, Global};
use std::marker::Model;
use zfault::Fault;

/// A fault that was answered, at the place of its instruction.
#[derive(Clone, Copy)]
pub struct Answered {
    /// The fault.
    pub fault: Fault,
    /// The byte address of the instruction.
    pub place: i32,
}

/// The faults that were answered.
#[derive(Drop)]
pub struct Notes {
    /// The first one of each place, in order.
    firsts: Vec<Answered>,
    /// How many they were.
    count: u64,
}

impl Model for Notes {
    ghost use Rattle.zplayer.specs.Leniently.{Noted};

    ghost Value = { Noted };

    ghost view = { λ n. record { firsts = n.firsts.items; count = n.count } };
}

impl Notes {
    /// No fault was answered.
    pub fn new(alloc: Global) -> Notes
        ensures { result ≡ record { firsts = []; count = 0 } }
    {
        Notes {
            firsts: Vec::new(alloc),
            count: 0,
        }
    }

    /// How many faults were answered, at most 2^64 - 1.
    pub fn count(&self) -> u64
        ensures { result ≡ self.now.count }
    {
        self.count
    }

    /// The first one of each place, in order.
    pub fn firsts(&self) -> &[Answered]
        ensures { result.now ≡ self.now.firsts }
    {
        self.firsts.as_slice()
    }

    /// Keeps a fault where none of its place was kept, and answers whether it did. Want of memory is the only error, and changes nothing.
    pub(crate) fn keep(&mut self, answered: Answered) -> Result<bool, AllocError>
        ensures old { result ≡ Ok false → (is_noted answered.place self.old.firsts ≡ true) × (self.new ≡ self.old) }
        ensures new { result ≡ Ok true → (is_noted answered.place self.old.firsts ≡ false) × (self.new ≡ record self.old { firsts = self.old.firsts ++ answered ∷ [] }) }
        ensures same { OnErr result (self.new ≡ self.old) }
    {
        if has_place(&self.firsts, answered.place) {
            return Ok(false);
        }
        self.firsts.push(answered)?;
        Ok(true)
    }

    /// Drops the one that was kept last.
    pub(crate) fn drop_last(&mut self)
        ensures { (before : List AnAnswered) (last : AnAnswered) → self.old.firsts ≡ before ++ last ∷ [] → self.new ≡ record self.old { firsts = before } }
    {
        let _last = self.firsts.pop();
    }

    /// Counts a fault that was answered.
    pub(crate) fn add(&mut self)
        ensures { self.new ≡ record self.old { count = min (self.old.count + 1) (2 ^ 64 - 1) } }
    {
        self.count = self.count.saturating_add(1);
    }
}

/// Whether one of these is of a place.
fn has_place(firsts: &[Answered], place: i32) -> bool
    ensures { IsTrue result ↔ Any (λ first. first.place ≡ place) firsts.now }
{
    firsts.iter().any(|first| first.place == place)
}
