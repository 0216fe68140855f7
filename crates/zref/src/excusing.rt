//! What is customary in the place of a fault, done by the checked machine.

ghost use Rattle.std.specs.Prelude.{◌≡◌, Err, IfOk, IsErr, OnErr, true};
ghost use Rattle.zstate.specs.Step.{step};
ghost use Rattle.zstate.specs.declared.halt.Halt.TheVariants.{Fault as AFault};
ghost use Rattle.zlenient.specs.Customary.{is_excusable};
ghost use Rattle.zref.specs.Excusing.{Excuses};
ghost use Rattle.zref.specs.Machine.{setting, SamePlay};

use crate::machine::CheckedMachine;
use std::alloc::{AllocError, Global};
use zfault::Fault;
use zlenient::{Front, Unexcused, excuse, is_excusable};
use zstate::Halt;

/// What comes of a step that is a fault, in lenient play.
#[derive(Clone, Copy, Debug, PartialEq, Eq)]
pub enum Excuse {
    /// What is customary in its place was done.
    Done,
    /// It would be done, but no step is left.
    Spent,
    /// Something keeps it from being done: the fault, where nothing is customary.
    Halted(Halt),
}

impl<'a> CheckedMachine<'a> {
    /// Does what is customary in the place of the fault that the next step is, which is a step of those that are left, and turns the front as an
    /// opcode does that is passed over; or says why it isn't done, and changes nothing. Want of memory is the only error, and changes nothing.
    pub fn excuse(
        &mut self,
        alloc: Global,
        fault: Fault,
        front: &mut Front,
        left: &mut u32,
    ) -> Result<Excuse, AllocError>
        requires { step (setting self.old) self.old.state ≡ Err (AFault fault) }
        ensures play { SamePlay self.old self.new }
        ensures excuses { IfOk result (λ excuse. Excuses (setting self.old) excuse self.old.state self.new.state front.old front.new left.old left.new) }
        ensures same { OnErr result ((self.new.state ≡ self.old.state) × (front.new ≡ front.old) × (left.new ≡ left.old)) }
        ensures wanted { IsErr result → is_excusable fault ≡ true }
    {
        if !is_excusable(fault) || !self.is_inside() {
            return Ok(Excuse::Halted(Halt::Fault(fault)));
        }
        let mut state = self.machine.state(alloc)?;
        let mut turned = *front;
        match excuse(self.story, &mut state, &mut turned, fault) {
            Ok(()) => {}
            Err(Unexcused::Halt(halt)) => return Ok(Excuse::Halted(halt)),
            Err(Unexcused::Memory) => return Err(AllocError),
        }
        if *left == 0 {
            return Ok(Excuse::Spent);
        }
        self.machine.stand(alloc, &state)?;
        *left -= 1;
        *front = turned;
        Ok(Excuse::Done)
    }
}
