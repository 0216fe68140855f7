//! Room for more frames.

ghost use Rattle.std.specs.Prelude.{◌≡◌, ◌+◌, ◌≤◌, Bool, List, length, OnErr, OnOk};
ghost use Rattle.zengine.specs.Play.{Game, Plays, state_in};
ghost use Rattle.zengine.specs.View.{body_of};
ghost use Rattle.zengine.specs.declared.row.Row.{Row as ARow};

use crate::board::Board;
use std::alloc::AllocError;

/// How many words there may be behind the first local of the newest frame and of one that is called, with both heads.
const TWO_FRAMES: usize = 131_106;

/// Makes room for a frame more. The state is that of before, and where memory is refused the board is too.
pub fn grow(board: &mut Board) -> Result<(), AllocError>
    ensures ok { OnOk result ((tested : Bool) (g : Game) (rows : List ARow) → Plays tested g rows board.old → Plays tested g rows board.new × (state_in g board.new ≡ state_in g board.old)) }
    ensures room { OnOk result (board.old.base + 131106 ≤ length board.new.words.items) }
    ensures kept { OnErr result (body_of board.new ≡ body_of board.old) }
    ensures at { board.new.at ≡ board.old.at }
{
    board.fill_words(board.base + TWO_FRAMES)
}
