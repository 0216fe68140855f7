//! Where the frames of a save return.

ghost use Rattle.std.specs.Prelude.{◌≡◌, ◌<◌, ◌++◌, ◌∷◌, [], IfOk, length};

use std::alloc::{AllocError, Global};
use std::marker::Model;
use zquetzal::MOST_FRAMES;

/// The indices of the rows to which the frames of a save return, with places for as many as a save may have: none is made later.
#[derive(Drop)]
pub(crate) struct Returns {
    list: Vec<u32>,
}

impl Model for Returns {
    ghost use Rattle.std.specs.Prelude.{ℕ, ◌≡◌, ◌≤◌, List, length, vec_capacity, vec_len};
    ghost use Rattle.zquetzal.specs.declared.limits.TheConstants.{MOST_FRAMES};

    ghost Value = { List ℕ };

    ghost view = { λ r. r.list.items };

    ghost invariant = { λ r. (vec_len r.list ≡ length r.list.items) × (MOST_FRAMES ≤ vec_capacity r.list) };
}

impl Returns {
    /// None, with all places. Want of memory is the only error.
    pub(crate) fn new(alloc: Global) -> Result<Returns, AllocError>
        ensures { IfOk result (λ returns. returns ≡ []) }
    {
        Ok(Returns {
            list: Vec::with_capacity(alloc, MOST_FRAMES)?,
        })
    }

    /// Takes all away; their places stay.
    pub(crate) fn clear(&mut self)
        ensures { self.new ≡ [] }
    {
        self.list.clear();
    }

    /// Puts one behind the others, in a place that is there.
    pub(crate) fn push(&mut self, row: u32)
        requires { length self.old < MOST_FRAMES }
        ensures { self.new ≡ self.old ++ row ∷ [] }
    {
        self.list.push_reserved(row);
    }

    /// All of them.
    pub(crate) fn as_slice(&self) -> &[u32]
        ensures { result.now ≡ self.now }
    {
        &self.list
    }
}
