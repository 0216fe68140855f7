//! What is known of a frame.

use std::alloc::{AllocError, Global};
use zdomain::Domain;
use zflow::Outcome;

/// The greatest height of a stack before an instruction.
pub(crate) const MOST_HEIGHT: usize = 64;

/// How many globals are kept of which more is known than their own sets say, so that a certificate may state all facts of all places.
const MOST_TOLD: usize = 8;

/// The sets of a frame's locals, and behind them of its slots, the top last; and what is known of globals besides.
#[derive(Drop)]
pub(crate) struct Frame<V> {
    locals: usize,
    sets: Vec<V>,
    /// Sets of globals, by their indices from variable 16 on, which rise.
    told: Vec<(u8, V)>,
}

impl<V: Domain> Frame<V> {
    /// One of no local and no slot.
    pub(crate) fn empty(alloc: Global) -> Frame<V> {
        Frame {
            locals: 0,
            sets: Vec::new(alloc),
            told: Vec::new(alloc),
        }
    }

    /// One of so many locals, with their sets, and behind them those of the slots. Nothing is known of globals besides.
    pub(crate) fn of(alloc: Global, locals: usize, sets: Vec<V>) -> Frame<V> {
        Frame {
            locals,
            sets,
            told: Vec::new(alloc),
        }
    }

    /// Makes it one of no local and no slot, which keeps its room.
    pub(crate) fn clear(&mut self) {
        self.locals = 0;
        self.sets.clear();
        self.told.clear();
    }

    /// What is known behind an instruction, where it left these sets of the locals and of the slots that it didn't take. `None` where what
    /// a branch says leaves a local no value.
    pub(crate) fn behind(
        alloc: Global,
        locals: &[V],
        slots: &[V],
        outcome: &Outcome<V>,
        target: u8,
    ) -> Result<Option<Frame<V>>, AllocError> {
        let mut frame = Frame {
            locals: locals.len(),
            sets: Vec::from_slice(alloc, locals)?,
            told: Vec::new(alloc),
        };
        frame.sets.extend_from_slice(slots)?;
        if let Some((variable, set)) = outcome.assigns {
            frame.replace(variable, set);
        }
        if let Some(set) = outcome.gives {
            frame.give(target, set)?;
        }
        if frame.keeps(outcome.kept.first) && frame.keeps(outcome.kept.second) {
            Ok(Some(frame))
        } else {
            Ok(None)
        }
    }

    /// Gives a variable a value of a set in place, if that is the top slot or one of the locals.
    fn replace(&mut self, variable: u8, set: V) {
        if variable > 0 {
            self.give_local(variable, set);
            return;
        }
        match self.sets.len().checked_sub(1) {
            Some(top) if self.locals <= top => self.put(top, set),
            _ => {}
        }
    }

    /// Leaves a local the values that a branch says that it has, if it says that of one. Whether there are any.
    fn keeps(&mut self, kept: Option<(u8, V)>) -> bool {
        let Some((variable, set)) = kept else {
            return true;
        };
        let index = usize::from(variable.saturating_sub(1));
        let Some(before) = self.locals().get(index).copied() else {
            return true;
        };
        match before.meet(set) {
            Some(left) => {
                self.put(index, left);
                true
            }
            None => false,
        }
    }

    /// Puts a set behind those that are there: of a local, as long as there is no slot, or of a new top slot.
    pub(crate) fn push(&mut self, set: V) -> Result<(), AllocError> {
        self.sets.push(set)?;
        Ok(())
    }

    /// Says that all sets that are there are those of locals.
    pub(crate) fn end_locals(&mut self) {
        self.locals = self.sets.len();
    }

    /// Gives a value of a set to a variable, if that is the stack or one of the locals.
    pub(crate) fn give(&mut self, variable: u8, set: V) -> Result<(), AllocError> {
        if variable == 0 {
            self.push(set)?;
        } else {
            self.give_local(variable, set);
        }
        Ok(())
    }

    /// Gives a value of a set to a variable, if that is one of the locals.
    fn give_local(&mut self, variable: u8, set: V) {
        let index = usize::from(variable.saturating_sub(1));
        if index < self.locals {
            self.put(index, set);
        }
    }

    /// Puts a set in the place of another.
    pub(crate) fn put(&mut self, index: usize, set: V) {
        if let Some(there) = self.sets.get_mut(index) {
            *there = set;
        }
    }

    /// Says what is known of globals behind an instruction, of what was known of them before it.
    pub(crate) fn tell_behind(
        &mut self,
        before: &[(u8, V)],
        outcome: &Outcome<V>,
        target: u8,
    ) -> Result<(), AllocError> {
        self.tell_all(before)?;
        self.tell_variable(outcome.assigns)?;
        if let Some(set) = outcome.gives {
            self.tell_variable(Some((target, set)))?;
        }
        self.tell_variable(outcome.kept.first_global)?;
        self.tell_variable(outcome.kept.second_global)
    }

    /// Says what is known of globals.
    pub(crate) fn tell_all(&mut self, told: &[(u8, V)]) -> Result<(), AllocError> {
        for (global, set) in told {
            self.tell(*global, *set)?;
        }
        Ok(())
    }

    /// Says that a variable has a value of a set, if it is a global.
    fn tell_variable(&mut self, told: Option<(u8, V)>) -> Result<(), AllocError> {
        match told {
            Some((variable, set)) if variable >= 16 => self.tell(variable.saturating_sub(16), set),
            _ => Ok(()),
        }
    }

    /// Says that a global, counted from variable 16, has a value of a set, as long as there is room for it.
    pub(crate) fn tell(&mut self, global: u8, set: V) -> Result<(), AllocError> {
        let place = index_of(&self.told, global);
        if let Some(told) = self.told.get_mut(place) {
            if told.0 == global {
                told.1 = set;
                return Ok(());
            }
        }
        if self.told.len() < MOST_TOLD && place <= self.told.len() {
            self.told.insert(place, (global, set))?;
        }
        Ok(())
    }

    /// Says that no more is known of globals than their own sets say.
    pub(crate) fn forget(&mut self) {
        self.told.clear();
    }

    /// What is known of globals besides.
    pub(crate) fn told(&self) -> &[(u8, V)] {
        &self.told
    }

    /// What is known of one, if that is more than its own set says.
    pub(crate) fn told_of(&self, global: u8) -> Option<V> {
        let told = self.told.get(index_of(&self.told, global))?;
        (told.0 == global).then_some(told.1)
    }

    /// The sets of the locals.
    pub(crate) fn locals(&self) -> &[V] {
        self.sets.as_slice().get(..self.locals).unwrap_or(&[])
    }

    /// The sets of the slots.
    pub(crate) fn slots(&self) -> &[V] {
        self.sets.as_slice().get(self.locals..).unwrap_or(&[])
    }

    /// How many locals there are.
    pub(crate) fn local_count(&self) -> usize {
        self.locals
    }

    /// How many slots there are.
    pub(crate) fn height(&self) -> usize {
        self.sets.len().saturating_sub(self.locals)
    }

    /// The sets of the locals, and behind them those of the slots.
    pub(crate) fn sets(&self) -> &[V] {
        &self.sets
    }
}

/// What is known of a global that lies in its own set and in another, where that is more than that it lies in its own.
pub(crate) fn narrower<V: Domain>(own: V, set: V) -> Option<V> {
    if own.is_within(set) {
        None
    } else {
        Some(own.meet(set).unwrap_or(set))
    }
}

/// How many of some sets of globals are of one before this.
fn index_of<V: Domain>(told: &[(u8, V)], global: u8) -> usize {
    let mut count = 0_usize;
    for (before, _) in told {
        if *before < global {
            count = count.saturating_add(1);
        }
    }
    count
}
