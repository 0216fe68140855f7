//! States of a play that are kept, to go back to.

ghost use Rattle.std.specs.Prelude.{◌≡◌, None, Ok, IfOk, IfSome, OnErr, OnOk, false, length};
ghost use Rattle.zlenient.specs.Step.{is_within};
ghost use Rattle.zref.specs.Machine.{setting, SamePlay};
ghost use Rattle.zref.specs.Keeping.{IsKeptOf};

use crate::machine::CheckedMachine;
use std::alloc::{AllocError, Global};
use zstate::State;

impl<'a> CheckedMachine<'a> {
    /// The state, in memory of its own, which the machine may be put back into; none of it where its place lies outside memory. Want of memory
    /// is the only error.
    pub fn keep(&self, alloc: Global) -> Result<Option<State>, AllocError>
        ensures state { IfOk result (λ kept. IfSome kept (λ s. (s ≡ self.now.state) × IsKeptOf (setting self.now) s)) }
        ensures none { result ≡ Ok None → is_within self.now.state.place (length self.now.state.memory) ≡ false }
    {
        if !self.is_inside() {
            return Ok(None);
        }
        let state = self.machine.state(alloc)?;
        Ok(Some(state))
    }

    /// Puts the machine back into a state that was kept of the same play. Want of memory is the only error, and changes nothing.
    pub fn put_back(&mut self, alloc: Global, state: &State) -> Result<(), AllocError>
        requires { IsKeptOf (setting self.old) state.now }
        ensures play { SamePlay self.old self.new }
        ensures ok { OnOk result (self.new.state ≡ state.now) }
        ensures same { OnErr result (self.new.state ≡ self.old.state) }
    {
        self.machine.stand(alloc, state)
    }
}
