//! Where frames lie in a board's words.

ghost use Rattle.std.specs.Prelude.{◌≡◌, ◌<◌, ◌≤◌, ◌*◌, ◌+◌, length, List, OnOk, true};
ghost use Rattle.zengine.specs.Body.{distance_below, nowhere, return_index, spot_at};
ghost use Rattle.zengine.specs.Lying.{AreHeads, AreLying, IsHead, below, chain_of, newest_of};
ghost use Rattle.zengine.specs.Play.{Game, Stands};
ghost use Rattle.zengine.specs.declared.row.Row.{Row as ARow};
ghost use Rattle.zengine.specs.declared.row.Spot.{Spot as ASpot};

use crate::board::Board;
use crate::row::Spot;
use std::alloc::AllocError;

/// Where a frame lies in a board's words.
#[derive(Clone, Copy)]
pub struct Lying {
    /// Where its first local lies; its head lies before that.
    pub base: usize,
    /// How many locals it has. Its stack lies behind them.
    pub count: u8,
    /// How many words are on its stack.
    pub height: u16,
}

/// Where rows belong.
pub trait Spots {
    /// The spot of each row.
    ghost spots: { Self → List ASpot };

    /// The spot of the row of an index.
    fn spot(&self, index: usize) -> Spot
        requires { index < length (spots self.now) }
        ensures { result ≡ spot_at (spots self.now) index };
}

/// The index of the row to which a frame returns.
pub(crate) fn index_of(words: &[u16], base: usize) -> usize
    requires head { 5 ≤ base }
    requires within { base ≤ length words.now }
    ensures { result ≡ return_index base words.now }
{
    usize::from(words[base - 5]) + 65_536 * usize::from(words[base - 4])
}

/// How far below a frame's first local that of the frame below lies.
fn distance_of(words: &[u16], base: usize) -> usize
    requires head { 5 ≤ base }
    requires within { base ≤ length words.now }
    ensures { result ≡ distance_below base words.now }
{
    usize::from(words[base - 3]) + 65_536 * usize::from(words[base - 2])
}

/// Where the frame lies that called a frame.
pub fn caller<S: Spots>(spots: &S, board: &Board, lying: Lying) -> Lying
    requires head { 5 ≤ lying.base }
    requires within { lying.base ≤ length board.now.words.items }
    requires is { IsHead (S.spots spots.now) board.now.words.items lying.base }
    ensures { result ≡ below (S.spots spots.now) board.now.words.items lying }
{
    let spot = spots.spot(index_of(&board.words, lying.base));
    let distance = distance_of(&board.words, lying.base);
    let base = lying.base - distance;
    let height = lying.base - base - (usize::from(spot.count) + 5);
    Lying {
        base,
        count: spot.count,
        height: height as u16,
    }
}

/// Makes of a list where all frames of a board lie, the newest first. Want of memory is the only error.
pub fn find_frames<S: Spots>(
    board: &Board,
    spots: &S,
    frames: &mut Vec<Lying>,
) -> Result<(), AllocError>
    requires stands { (g : Game) × (rows : List ARow) × Stands true g rows board.now × (g.spots ≡ S.spots spots.now) × (length g.spots ≤ nowhere) }
    ensures { OnOk result (AreLying (S.spots spots.now) board.now frames.new.items) }
{
    list_frames(board, spots, frames)
}

/// The same, by what the heads say.
fn list_frames<S: Spots>(
    board: &Board,
    spots: &S,
    frames: &mut Vec<Lying>,
) -> Result<(), AllocError>
    requires at { board.now.at < length (S.spots spots.now) }
    requires heads { AreHeads (S.spots spots.now) board.now.words.items board.now.above board.now.base }
    ensures { OnOk result (frames.new.items ≡ chain_of (S.spots spots.now) board.now.words.items board.now.above (newest_of (S.spots spots.now) board.now)) }
{
    let spot = spots.spot(board.at);
    let mut lying = Lying {
        base: board.base,
        count: spot.count,
        height: spot.height,
    };
    frames.clear();
    let mut left = board.above;
    while left > 0 {
        frames.push(lying)?;
        lying = caller(spots, board, lying);
        left -= 1;
    }
    frames.push(lying)?;
    Ok(())
}
