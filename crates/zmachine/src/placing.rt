//! The state of a machine as a value, and a machine that is put into another.

ghost use Rattle.std.specs.Prelude.{◌≡◌, ◌<◌, ◌≤◌, IfOk, OnErr, OnOk, false};
ghost use Rattle.zquetzal.specs.declared.limits.TheConstants.{MOST_FRAMES};
ghost use Rattle.zstate.specs.State.{IsState};
ghost use Rattle.zmachine.specs.Parts.{IsInside};
ghost use Rattle.zmachine.specs.Rows.{IsAsLoaded, Less, NeverFaults};

use crate::advancing::judge;
use crate::guard::Guard;
use crate::machine::{Machine, need_at};
use crate::parts::parts_of;
use crate::rows::Rows;
use crate::standing::{stand_in, view_of};
use crate::taking::state_of;
use std::alloc::{AllocError, Global};
use zquetzal::{saves_are_read, write};
use zstate::{State, saves_are_states};

impl<'a, R: Rows, G: Guard> Machine<'a, R, G> {
    /// The state, at a place in memory, where a save has room for as many frames as there may be. Want of memory is the only error.
    pub fn state(&self, alloc: Global) -> Result<State, AllocError>
        requires few { (R.game self.now.rows).setting.limit < MOST_FRAMES }
        requires inside { IsInside self.now.state }
        ensures value { IfOk result (λ s. s ≡ self.now.state) }
        ensures is_state { IfOk result (λ s. IsState (R.game self.now.rows).setting.limit (R.game self.now.rows).setting.story s) }
        ensures loaded { IfOk result (λ s. IsAsLoaded (R.game self.now.rows).setting.story s.memory) }
    {
        saves_are_states();
        saves_are_read();
        let Some(board) = &self.board else {
            unreachable!()
        };
        self.rows.plays(board);
        let _memory = self.story.memory();
        let bytes = write(alloc, &parts_of(self.story, &self.rows, board))?;
        let view = view_of(self.story, &bytes);
        state_of(alloc, self.story, &view, &board.memory, &board.outside)
    }

    /// Puts the machine into another state of its story, whose place lies in memory and whose static memory is as it was loaded, where a save
    /// has room for as many frames as there may be. Want of memory is the only error, and changes nothing.
    pub fn stand(&mut self, alloc: Global, state: &State) -> Result<(), AllocError>
        requires few { (R.game self.old.rows).setting.limit < MOST_FRAMES }
        requires state { IsState (R.game self.old.rows).setting.limit (R.game self.old.rows).setting.story state.now }
        requires loaded { IsAsLoaded (R.game self.old.rows).setting.story state.now.memory }
        requires inside { IsInside state.now }
        requires able { G.TESTS ≡ false → NeverFaults (R.game self.old.rows).setting state.now }
        ensures play { (R.game self.new.rows).setting ≡ (R.game self.old.rows).setting }
        ensures ok { OnOk result (self.new.state ≡ state.now) }
        ensures same { OnErr result (self.new.state ≡ self.old.state) }
        ensures words { self.old.words ≤ self.new.words }
        ensures less { Less (R.lacks self.old.rows) (R.lacks self.new.rows) }
    {
        let limit = self.rows.limit();
        let Some(mut board) = self.board.take() else {
            unreachable!()
        };
        let stood = stand_in(
            alloc,
            &mut self.rows,
            &mut board,
            self.story,
            state,
            &mut self.returns,
        );
        let judged = judge(&mut self.rows, &board, self.story, limit);
        self.board = Some(board);
        self.need = need_at(judged);
        stood
    }
}
