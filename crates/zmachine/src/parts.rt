//! What is saved of the state in which a board stands (Z 15 save).

ghost use Rattle.std.specs.Prelude.{◌≡◌, ◌<◌, ◌≤◌, Some, length, pos, slice_get};
ghost use Rattle.zquetzal.specs.Saved.{origin_of};
ghost use Rattle.zquetzal.specs.declared.limits.TheConstants.{MOST_FRAMES};
ghost use Rattle.zstate.specs.Saves.{saved_of};
ghost use Rattle.zengine.specs.Body.{spot_at};
ghost use Rattle.zengine.specs.Lying.{AreHeads, chain_of, newest_of};
ghost use Rattle.zengine.specs.Play.{state_in};
ghost use Rattle.zmachine.specs.Parts.{IsInside};
ghost use Rattle.zmachine.specs.Rows.{IsPlayed};

use crate::rows::Rows;
use std::marker::Model;
use zengine::{Board, Lying, Spot, Spots, caller, lent};
use zquetzal::{FrameParts, Origin, SaveParts};
use zstate::saves_are_states;
use zstory::Story;

/// Where the header has the end of dynamic memory, a word (Z 11.1).
const STATIC_BASE: usize = 0x0e;

/// Where rows belong.
#[derive(Drop)]
struct SpotsOf<'a, R: Rows> {
    rows: &'a R,
}

impl<'a, R: Rows> Spots for SpotsOf<'a, R> {
    ghost spots = { λ s. (R.game s.rows.now).spots };

    fn spot(&self, index: usize) -> Spot {
        self.rows.long();
        self.rows.spot(index)
    }
}

/// Where a frame lies that is so many below the newest of a board.
fn lying_at<S: Spots>(spots: &S, board: &Board, depth: usize) -> Lying
    requires at { board.now.at < length (S.spots spots.now) }
    requires heads { AreHeads (S.spots spots.now) board.now.words.items board.now.above board.now.base }
    requires depth { depth ≤ board.now.above }
    ensures { slice_get (chain_of (S.spots spots.now) board.now.words.items board.now.above (newest_of (S.spots spots.now) board.now)) depth ≡ Some result }
{
    let spot = spots.spot(board.at);
    let mut lying = Lying {
        base: board.base,
        count: spot.count,
        height: spot.height,
    };
    let mut left = depth;
    while left > 0 {
        lying = caller(spots, board, lying);
        left -= 1;
    }
    lying
}

/// What is saved of the state in which a board stands, which is lent. No memory is asked for: each frame is found from the newest down.
#[derive(Drop)]
pub struct Parts<'a, R: Rows> {
    story: &'a Story,
    rows: &'a R,
    board: &'a Board,
}

impl<'a, R: Rows> Model for Parts<'a, R> {
    ghost use Rattle.zengine.specs.Lying.{SavedGame};
    ghost use Rattle.zengine.specs.Play.{state_in};
    ghost use Rattle.zmachine.specs.Parts.{IsLent};

    ghost Value = { SavedGame };

    ghost view = { λ p. record { story = p.story.now; state = state_in (R.game p.rows.now) p.board.now } };

    ghost invariant = { λ p. IsLent p.story.now (R.game p.rows.now) p.board.now };
}

/// What is saved of the state in which a board stands, at a place in memory.
pub(crate) fn parts_of<'a, R: Rows>(story: &'a Story, rows: &'a R, board: &'a Board) -> Parts<'a, R>
    requires own { story.now ≡ (R.game rows.now).setting.story }
    requires few { (R.game rows.now).setting.limit < MOST_FRAMES }
    requires played { IsPlayed (R.game rows.now) (R.all rows.now) board.now }
    requires inside { IsInside (state_in (R.game rows.now) board.now) }
    ensures { result ≡ record { story = story.now; state = state_in (R.game rows.now) board.now } }
{
    saves_are_states();
    let _memory = story.memory();
    let _first = rows.first();
    rows.long();
    rows.plays(board);
    Parts { story, rows, board }
}

impl<'a, R: Rows> SaveParts for Parts<'a, R> {
    ghost origin = { λ p. origin_of p.story };

    ghost saved = { λ p. saved_of p.story p.state };

    fn origin(&self) -> Origin {
        Origin::of(self.story)
    }

    fn memory(&self) -> &[u8] {
        let loaded = self.story.memory();
        let end = u16::from_be_bytes([loaded[STATIC_BASE], loaded[STATIC_BASE + 1]]);
        let (dynamic, _) = self.board.memory.split_at(usize::from(end));
        dynamic
    }

    fn place(&self) -> u32 {
        self.rows.long();
        self.rows.spot(self.board.at).place as u32 + 1
    }

    fn frame_count(&self) -> usize {
        self.board.above + 1
    }

    fn frame(&self, number: usize) -> FrameParts<'_> {
        let spots = SpotsOf { rows: self.rows };
        let lying = lying_at(&spots, self.board, self.board.above - number);
        lent(&spots, &self.board.words, lying)
    }
}
