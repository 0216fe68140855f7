//! The states at earlier prompts, as many as are kept.

ghost use Rattle.std.specs.Prelude.{◌≡◌, ◌∷◌, ◌++◌, [], None, All, IsTrue, option_to_list};
ghost use Rattle.zprompt.specs.Commands.{Obeys};
ghost use Rattle.zprompt.specs.Turns.{Keeps, room_of};

use crate::answer::Answer;
use crate::command::Command;
use crate::machine::Promptable;
use std::alloc::{AllocError, Global};
use std::marker::Model;
use zstate::State;

/// How many prompts are kept at most.
pub const MOST_TURNS: usize = 100;

/// The states at the prompts at which lines were given to the story, the newest last.
#[derive(Drop)]
pub(crate) struct Turns {
    states: Vec<State>,
}

impl Model for Turns {
    ghost use Rattle.std.specs.Prelude.{List};
    ghost use Rattle.zstate.specs.State.{State as AState};

    ghost Value = { List AState };

    ghost view = { λ turns. turns.states.items };
}

impl Turns {
    /// None is kept yet.
    pub(crate) fn new(alloc: Global) -> Turns
        ensures { result ≡ [] }
    {
        Turns {
            states: Vec::new(alloc),
        }
    }

    /// Drops the oldest one, where there is no room for one more.
    fn make_room(&mut self)
        ensures { self.new ≡ room_of self.old }
    {
        if self.states.len() >= MOST_TURNS {
            self.states.remove(0);
        }
    }

    /// Keeps the state in which the machine stands, as the newest. Where memory for it is refused, none is kept, as if play began here.
    pub(crate) fn keep<M: Promptable>(&mut self, alloc: Global, machine: &M)
        requires { All (M.IsKept machine.now) self.old }
        ensures keeps { Keeps (M.state machine.now) self.old self.new }
        ensures all { All (M.IsKept machine.now) self.new }
    {
        self.make_room();
        let Ok(Some(state)) = machine.keep(alloc) else {
            self.states.clear();
            return;
        };
        if !self.push(state) {
            self.states.clear();
        }
    }

    /// Adds one as the newest, unless memory for it is refused.
    fn push(&mut self, state: State) -> bool
        ensures { IsTrue result → self.new ≡ self.old ++ state ∷ [] }
    {
        self.states.push(state).is_ok()
    }

    /// Takes the newest, if there is one.
    fn take(&mut self) -> Option<State>
        ensures newest { self.old ≡ self.new ++ option_to_list result }
        ensures none { result ≡ None → self.old ≡ [] }
    {
        self.states.pop()
    }
}

/// Puts the machine back into the newest of the states, which is kept no longer.
pub(crate) fn undo<M: Promptable>(alloc: Global, machine: &mut M, turns: &mut Turns) -> Answer
    requires { All (M.IsKept machine.old) turns.old }
    ensures play { M.IsSamePlay machine.old machine.new }
    ensures all { All (M.IsKept machine.new) turns.new }
    ensures undone { Obeys Command.Undo result turns.old (M.state machine.old) turns.new (M.state machine.new) }
{
    let Some(state) = turns.take() else {
        return Answer::NothingKept;
    };
    match machine.put_back(alloc, &state) {
        Ok(()) => Answer::Undone,
        Err(AllocError) => Answer::NoMemory,
    }
}
