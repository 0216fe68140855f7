//! A board as it is saved (Z 15 save).

ghost use Rattle.std.specs.Prelude.{◌≡◌, ◌≤◌, length};
ghost use Rattle.zquetzal.specs.Saved.{origin_of};
ghost use Rattle.zquetzal.specs.View.{given_frame};
ghost use Rattle.zstate.specs.Saves.{kept_frame, saved_of};
ghost use Rattle.zstate.specs.Step.{place_of};
ghost use Rattle.zengine.specs.Body.{nowhere, spot_at, standing};
ghost use Rattle.zengine.specs.Lying.{IsWritable, Lies, Returns, frame_lying};
ghost use Rattle.zengine.specs.View.{body_of};

use crate::board::Board;
use crate::lying::{Lying, Spots, index_of};
use std::marker::Model;
use zquetzal::{FrameParts, Origin, SaveParts};
use zstory::Story;

/// Where the header has the end of dynamic memory, a word (Z 11.1).
const STATIC_BASE: usize = 0x0e;

/// The index of no row: to it the oldest frame returns.
const NOWHERE: usize = 0xFFFF_FFFF;

/// A board of which a save can be written. Contracts see the story and the state.
#[derive(Drop)]
pub struct SavedBoard<'a, S: Spots> {
    story: &'a Story,
    /// Where the board's rows belong.
    spots: &'a S,
    board: &'a Board,
    /// Where its frames lie, the newest first.
    frames: &'a [Lying],
}

impl<'a, S: Spots> Model for SavedBoard<'a, S> {
    ghost use Rattle.zengine.specs.Body.{spot_at, standing};
    ghost use Rattle.zengine.specs.Lying.{IsWritable, SavedGame};
    ghost use Rattle.zengine.specs.View.{body_of};

    ghost Value = { SavedGame };

    ghost view = { λ s. record { story = s.story.now; state = standing (S.spots s.spots.now) (spot_at (S.spots s.spots.now) s.board.now.at) (body_of s.board.now) } };

    ghost invariant = { λ s. IsWritable s.story.now (S.spots s.spots.now) s.board.now s.frames.now };
}

/// The place to which a frame returns by the row of an index.
#[tactic(auto, using(crate::proofs::Kept::returned_none, crate::proofs::Kept::returned_there))]
fn place_returned<S: Spots>(spots: &S, index: usize) -> u32
    requires back { Returns (S.spots spots.now) index }
    ensures { result ≡ place_of (spot_at (S.spots spots.now) index).place }
{
    if index == NOWHERE {
        return 0;
    }
    spots.spot(index).place as u32
}

/// The frame that lies there.
pub fn lent<'b, S: Spots>(spots: &S, words: &'b [u16], lying: Lying) -> FrameParts<'b>
    requires { Lies (S.spots spots.now) words.now lying }
    ensures { given_frame result ≡ kept_frame (frame_lying (S.spots spots.now) words.now lying) }
{
    let head = words[lying.base - 1];
    let stack = lying.base + usize::from(lying.count);
    FrameParts {
        return_place: place_returned(spots, index_of(words, lying.base)),
        result: (head % 256) as u8,
        supplied: (head / 256) as u8,
        locals: &words[lying.base..stack],
        stack: &words[stack..stack + usize::from(lying.height)],
    }
}

impl<'a, S: Spots> SavedBoard<'a, S> {
    /// A board of a story, with where its rows belong and where its frames lie.
    pub fn new(
        story: &'a Story,
        spots: &'a S,
        board: &'a Board,
        frames: &'a [Lying],
    ) -> SavedBoard<'a, S>
        requires { IsWritable story.now (S.spots spots.now) board.now frames.now }
        ensures { result ≡ record { story = story.now; state = standing (S.spots spots.now) (spot_at (S.spots spots.now) board.now.at) (body_of board.now) } }
    {
        SavedBoard {
            story,
            spots,
            board,
            frames,
        }
    }
}

impl<'a, S: Spots> SaveParts for SavedBoard<'a, S> {
    ghost origin = { λ s. origin_of s.story };

    ghost saved = { λ s. saved_of s.story s.state };

    fn origin(&self) -> Origin {
        Origin::of(self.story)
    }

    fn memory(&self) -> &[u8] {
        let loaded = self.story.memory();
        let end = u16::from_be_bytes([loaded[STATIC_BASE], loaded[STATIC_BASE + 1]]);
        let (dynamic, _) = self.board.memory.split_at(usize::from(end));
        dynamic
    }

    fn place(&self) -> u32 {
        self.spots.spot(self.board.at).place as u32 + 1
    }

    fn frame_count(&self) -> usize {
        self.frames.len()
    }

    fn frame(&self, number: usize) -> FrameParts<'_> {
        let lying = self.frames[self.frames.len() - 1 - number];
        lent(self.spots, &self.board.words, lying)
    }
}
