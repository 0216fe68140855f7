//! A state as it is saved.

ghost use Rattle.std.specs.Prelude.{◌≡◌};
ghost use Rattle.zstate.specs.Saved.{CanBeSaved};

use crate::state::State;
use std::marker::Model;
use zquetzal::{FrameParts, Origin, SaveParts};
use zstory::Story;

/// A state of a story, lent to be saved, at a place in memory.
#[derive(Drop)]
pub struct SavedState<'a> {
    story: &'a Story,
    state: &'a State,
}

impl<'a> Model for SavedState<'a> {
    ghost use Rattle.zstate.specs.Saved.{CanBeSaved, LentState};

    ghost Value = { LentState };

    ghost view = { λ s. record { story = s.story.now; state = s.state.now } };

    ghost invariant = { λ s. CanBeSaved s.story.now s.state.now };
}

impl<'a> SavedState<'a> {
    /// A state, lent to be saved.
    pub fn new(story: &'a Story, state: &'a State) -> SavedState<'a>
        requires { CanBeSaved story.now state.now }
        ensures { result ≡ record { story = story.now; state = state.now } }
    {
        SavedState { story, state }
    }
}

impl<'a> SaveParts for SavedState<'a> {
    ghost use Rattle.zquetzal.specs.Saved.{origin_of};
    ghost use Rattle.zstate.specs.Saves.{saved_of};

    ghost origin = { λ s. origin_of s.story };

    ghost saved = { λ s. saved_of s.story s.state };

    fn origin(&self) -> Origin {
        Origin::of(self.story)
    }

    fn memory(&self) -> &[u8] {
        let (dynamic, _) = self.state.memory().split_at(self.story.static_base());
        dynamic
    }

    fn place(&self) -> u32 {
        self.state.place() as u32 + 1
    }

    fn frame_count(&self) -> usize {
        self.state.depth() + 1
    }

    fn frame(&self, number: usize) -> FrameParts<'_> {
        let frame = self.state.frame_from(number);
        FrameParts {
            return_place: frame.return_place,
            result: frame.result,
            supplied: frame.supplied,
            locals: frame.locals,
            stack: frame.stack,
        }
    }
}
