//! What both machines do, under the same names.

use crate::outside::{Page, World};
use std::alloc::{AllocError, Global};
use zfault::{Event, Items, Need};
use zplay::Session;
use zplayer::{End, Options, PlayError, World as Devices, play_checked, play_story};
use zquetzal::SaveError;
use zref::CheckedMachine;
use zscreen::StatusLines;
use zstate::Stop;

/// A machine that plays.
pub trait Machine {
    /// The address of the instruction that comes next.
    fn place(&self) -> i32;

    /// Memory as it is now.
    fn memory(&self) -> &[u8];

    /// Makes at most so many steps.
    fn run(&mut self, budget: u32, items: &mut Items) -> Result<Stop, AllocError>;

    /// The same, where each step takes one off.
    fn run_down(&mut self, left: &mut u32, items: &mut Items) -> Result<Stop, AllocError>;

    /// Makes at most so many steps, and writes what they give out.
    fn play(
        &mut self,
        alloc: Global,
        world: &mut World,
        page: &mut Page,
        budget: u32,
    ) -> Result<End, PlayError>;

    /// The bytes of a save, where it awaits whether one was kept.
    fn save(&self, alloc: Global) -> Result<Option<Vec<u8>>, AllocError>;

    /// Tells it that a save was kept, where it awaits that.
    fn tell_kept(&mut self);

    /// Goes on from a save, where it awaits one.
    fn restore(&mut self, alloc: Global, save: &[u8]) -> Option<Result<(), SaveError>>;
}

/// Playing with this budget.
fn options(budget: u32) -> Options {
    Options {
        budget,
        status: StatusLines::Hidden,
    }
}

impl<'a> Machine for Session<'a> {
    fn place(&self) -> i32 {
        Session::place(self)
    }

    fn memory(&self) -> &[u8] {
        Session::memory(self)
    }

    fn run(&mut self, budget: u32, items: &mut Items) -> Result<Stop, AllocError> {
        Ok(Stop::Paused(Session::run(self, budget, items)?))
    }

    fn run_down(&mut self, left: &mut u32, items: &mut Items) -> Result<Stop, AllocError> {
        Ok(Stop::Paused(Session::run_down(self, left, items)?))
    }

    fn play(
        &mut self,
        alloc: Global,
        world: &mut World,
        page: &mut Page,
        budget: u32,
    ) -> Result<End, PlayError> {
        let mut devices = Devices::new(&mut world.reader, page, &mut world.store, &mut world.words);
        play_story(alloc, self, &mut devices, options(budget))
    }

    fn save(&self, alloc: Global) -> Result<Option<Vec<u8>>, AllocError> {
        match self.awaits() {
            Some(Need::Saved) => Ok(Some(self.save_bytes(alloc)?)),
            _ => Ok(None),
        }
    }

    fn tell_kept(&mut self) {
        if let Some(Need::Saved) = self.awaits() {
            self.give(Event::Saved(true));
        }
    }

    fn restore(&mut self, _alloc: Global, save: &[u8]) -> Option<Result<(), SaveError>> {
        match self.awaits() {
            Some(Need::Restore) => Some(Session::restore(self, save)),
            _ => None,
        }
    }
}

impl<'a> Machine for CheckedMachine<'a> {
    fn place(&self) -> i32 {
        CheckedMachine::place(self)
    }

    fn memory(&self) -> &[u8] {
        CheckedMachine::memory(self)
    }

    fn run(&mut self, budget: u32, items: &mut Items) -> Result<Stop, AllocError> {
        CheckedMachine::run(self, budget, items)
    }

    fn run_down(&mut self, left: &mut u32, items: &mut Items) -> Result<Stop, AllocError> {
        CheckedMachine::run_down(self, left, items)
    }

    fn play(
        &mut self,
        alloc: Global,
        world: &mut World,
        page: &mut Page,
        budget: u32,
    ) -> Result<End, PlayError> {
        let mut devices = Devices::new(&mut world.reader, page, &mut world.store, &mut world.words);
        play_checked(alloc, self, &mut devices, options(budget))
    }

    fn save(&self, alloc: Global) -> Result<Option<Vec<u8>>, AllocError> {
        match self.awaits() {
            Some(Need::Saved) => Ok(Some(self.save_bytes(alloc)?)),
            _ => Ok(None),
        }
    }

    fn tell_kept(&mut self) {
        if let Some(Need::Saved) = self.awaits() {
            self.give(Event::Saved(true));
        }
    }

    fn restore(&mut self, alloc: Global, save: &[u8]) -> Option<Result<(), SaveError>> {
        match self.awaits() {
            Some(Need::Restore) => Some(CheckedMachine::restore(self, alloc, save)),
            _ => None,
        }
    }
}
