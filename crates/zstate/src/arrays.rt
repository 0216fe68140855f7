//! Arrays in a state's memory, changed.

ghost use Rattle.std.specs.Prelude.{◌≡◌, ◌+◌, ◌≤◌, length};
ghost use Rattle.zarray.specs.Arrays.{span, with_element};
ghost use Rattle.zstate.specs.State.{with_memory};

use crate::state::State;
use zarray::Width;

impl State {
    /// Gives the element of an array at an address a word, or the low byte of one (Z 15 storew, storeb).
    #[inline(always)]
    pub fn set_element(&mut self, width: Width, address: u16, word: u16)
        requires { address + span width ≤ length self.old.memory }
        ensures { self.new ≡ with_memory (with_element width address word self.old.memory) self.old }
    {
        width.set(self.memory.as_mut_slice(), address, word);
    }
}
