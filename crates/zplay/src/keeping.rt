//! States of a session that are kept, to go back to.

ghost use Rattle.std.specs.Prelude.{◌≡◌, IfOk, OnErr, OnOk};
ghost use Rattle.zplay.specs.Keeping.{IsKeptOf};

use crate::session::Session;
use std::alloc::{AllocError, Global};
use zcert::Spelled;
use zstate::State;

impl<'a, V: Spelled> Session<'a, V> {
    /// The state, in memory of its own, which the session may be put back into. Want of memory is the only error.
    pub fn keep(&self, alloc: Global) -> Result<State, AllocError>
        ensures { IfOk result (λ s. (s ≡ self.now.state) × IsKeptOf V.operations self.now.accepted s) }
    {
        self.machine.state(alloc)
    }

    /// Puts the session back into a state that was kept of the same play. Want of memory is the only error, and changes nothing.
    pub fn put_back(&mut self, alloc: Global, state: &State) -> Result<(), AllocError>
        requires { IsKeptOf V.operations self.old.accepted state.now }
        ensures play { self.new.accepted ≡ self.old.accepted }
        ensures ok { OnOk result (self.new.state ≡ state.now) }
        ensures same { OnErr result (self.new.state ≡ self.old.state) }
    {
        self.machine.stand(alloc, state)
    }
}
