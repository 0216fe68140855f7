//! Laws of steps and runs, each the contract of a function that does nothing.

ghost use Rattle.zstate.specs.Run.{StepsJoin, InputsJoin, StepsKeep};
ghost use Rattle.zstate.specs.Saves.{SavesGoOn, SavesKeep, StatesAreSaved};

/// Steps that were made are the first of a longer run; and where a step needs the first input, the run goes on from the
/// state after it. So any sequence of calls of `run`, `give` and `restore` is one run over a list of inputs.
pub fn runs_join()
    ensures steps { StepsJoin }
    ensures inputs { InputsJoin }
{}

/// What holds in every state holds after each step.
pub fn steps_keep_states()
    ensures { StepsKeep }
{}

/// What holds in every state holds where play goes on from a save. What is saved of a state can be written, and play goes on from it
/// with that state.
pub fn saves_are_states()
    ensures keep { SavesKeep }
    ensures saved { StatesAreSaved }
    ensures on { SavesGoOn }
{}
