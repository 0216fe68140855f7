//! Room in words for a frame more.

ghost use Rattle.std.specs.Prelude.{◌≡◌, ◌+◌, ◌<◌, ◌≤◌, IsFalse, IsTrue, length};
ghost use Rattle.zengine.specs.Body.{spot_at};
ghost use Rattle.zmachine.specs.Room.{IsLonger};
ghost use Rattle.zmachine.specs.Rows.{IsPlayed};

use crate::rows::Rows;
use zengine::Board;

/// How many words there have to be behind those of a frame that calls another: that one's head and its room.
const FRAME: usize = 65_556;

/// How many words are made at once: the room of one call, and of some more.
const MORE: usize = 2048;

/// Makes so many words, if there are fewer, and tells whether there are so many. All else stays.
pub(crate) fn lengthen(board: &mut Board, size: usize) -> bool
    ensures longer { IsLonger board.old board.new }
    ensures enough { IsTrue result → size ≤ length board.new.words.items }
    ensures kept { IsFalse result → length board.new.words.items ≡ length board.old.words.items }
    ensures short { IsFalse result → length board.old.words.items < size }
{
    if size <= board.words.len() {
        return true;
    }
    board.words.resize(size, 0).is_ok()
}

/// Makes room in a board's words for a frame more behind so many words of the newest, as far as there is memory.
pub(crate) fn make_room(board: &mut Board, frame: usize)
    requires low { frame ≤ 65550 }
    ensures longer { IsLonger board.old board.new }
{
    let wanted = board.base + frame + FRAME;
    if wanted <= board.words.len() {
        return;
    }
    let _is_longer = lengthen(board, wanted + MORE);
}

/// How many words the frame has in which a board stands.
pub(crate) fn frame_of<R: Rows>(rows: &R, board: &Board) -> usize
    requires { IsPlayed (R.game rows.now) (R.all rows.now) board.now }
    ensures value { result ≡ (spot_at (R.game rows.now).spots board.now.at).count + (spot_at (R.game rows.now).spots board.now.at).height }
    ensures low { result ≤ 65550 }
{
    rows.plays(board);
    let spot = rows.spot(board.at);
    usize::from(spot.count) + usize::from(spot.height)
}
