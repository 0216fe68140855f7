//! What is saved of a state, how play goes on from a save, and how a story begins anew.

ghost use Rattle.std.specs.Prelude.{◌≡◌, ◌≤◌, ◌+◌, ◌*◌, ◌/◌, ◌%◌, ℕ, List, Bool, length, slice_set, MatchBool, MatchOption, Some, IfOk};
ghost use Rattle.zfault.specs.declared.event.Event.TheVariants as events;
ghost use Rattle.zstory.specs.Bytes.{byte_at};
ghost use Rattle.zstory.specs.LoadedStory.{LoadedStory, static_base};
ghost use Rattle.zline.specs.Storing.{with_bytes};
ghost use Rattle.zstate.specs.State.{keeping_flags, restarted};
ghost use Rattle.zstate.specs.Saves.{resumed, save_place, taken_memory};

use crate::frames::Frames;
use crate::state::State;
use std::alloc::{AllocError, Global};
use zfault::Event;
use zquetzal::SaveView;
use zstory::Story;

/// The low byte of Flags 2, of which the two low bits stay as they are (Z 11.1).
const FLAGS: usize = 17;

/// Where the header ends (Z 11.1).
const HEADER_END: usize = 64;

impl State {
    /// Whether the save was kept, if that waits.
    pub fn waiting_outcome(&self) -> Option<bool>
        ensures { MatchOption result ((kept : Bool) → self.now.waiting ≡ Some (events.Saved kept) → ⊥) (λ kept. self.now.waiting ≡ Some (events.Saved kept)) }
    {
        match self.waiting {
            Some(Event::Saved(kept)) => Some(kept),
            _ => None,
        }
    }

    /// Whether it waits that there is no save to go on from.
    pub fn is_unrestored(&self) -> bool
        ensures { MatchBool result (self.now.waiting ≡ Some events.NotRestored) (self.now.waiting ≡ Some events.NotRestored → ⊥) }
    {
        matches!(self.waiting, Some(Event::NotRestored))
    }

    /// The story begins anew as it opens, but for two bits of Flags 2 and where random numbers come from (Z 15 restart).
    pub fn restart(&mut self, story: &Story)
        requires { length self.old.memory ≡ length story.now.memory }
        ensures { self.new ≡ restarted story.now self.old }
    {
        let loaded = story.memory();
        let kept = self.memory[FLAGS];
        self.memory.as_mut_slice().copy_from_slice(loaded);
        keep_flags(self.memory.as_mut_slice(), kept);
        self.frames.reset();
        self.place = story.first_instruction() as i32;
        self.prompted = false;
        self.waiting = None;
    }

    /// The state that goes on from a save, at its `save`, which was kept. Of the state in which that is asked for, the two low bits of
    /// Flags 2 stay and where random numbers come from. Want of memory is the only error.
    pub fn resumed(
        alloc: Global,
        story: &Story,
        save: &SaveView<'_>,
        now: &State,
    ) -> Result<State, AllocError>
        requires memory { length now.now.memory ≡ length story.now.memory }
        requires saved { length save.now.memory ≡ static_base story.now }
        ensures { IfOk result (λ state. state ≡ resumed story.now save.now now.now) }
    {
        let frames = Frames::of_save(alloc, save.frames())?;
        let memory = taken_memory(alloc, story, save.memory(), now.memory())?;
        Ok(State {
            memory,
            frames,
            place: save_place(save),
            random: now.random,
            prompted: false,
            waiting: Some(Event::Saved(true)),
        })
    }
}

/// Keeps the two low bits of a byte in Flags 2.
fn keep_flags(memory: &mut [u8], kept: u8)
    requires { 64 ≤ length memory.old }
    ensures { memory.new ≡ slice_set memory.old 17 (byte_at memory.old 17 / 4 * 4 + kept % 4) }
{
    memory[FLAGS] = memory[FLAGS] / 4 * 4 + kept % 4;
}

/// Where the `save` stands from which play goes on.
fn save_place(save: &SaveView<'_>) -> i32
    ensures { result ≡ save_place save.now }
{
    save.place() as i32 - 1
}

/// Makes the loaded memory one that goes on from a save, where the low byte of Flags 2 is so.
fn go_on(memory: &mut [u8], saved: &[u8], kept: u8)
    requires least { 64 ≤ length saved.now }
    requires within { length saved.now ≤ length memory.old }
    ensures memory { (story : LoadedStory) (now : List ℕ) → story.memory ≡ memory.old → byte_at now 17 ≡ kept → memory.new ≡ keeping_flags now (taken_memory story saved.now) }
    ensures size { length memory.new ≡ length memory.old }
{
    take_memory(memory, saved);
    keep_flags(memory, kept);
}

/// The same bytes, in memory of their own.
fn copied(alloc: Global, bytes: &[u8]) -> Result<Vec<u8>, AllocError>
    ensures { IfOk result (λ copy. copy.items ≡ bytes.now) }
{
    bytes.to_vec(alloc)
}

/// Memory that goes on from that of a save, where `now` is memory as it is.
fn taken_memory(
    alloc: Global,
    story: &Story,
    saved: &[u8],
    now: &[u8],
) -> Result<Vec<u8>, AllocError>
    requires long { length now.now ≡ length story.now.memory }
    requires saved { length saved.now ≡ static_base story.now }
    ensures { IfOk result (λ memory. memory.items ≡ keeping_flags now.now (taken_memory story.now saved.now)) }
{
    let _base = story.static_base();
    let mut memory = copied(alloc, story.memory())?;
    let kept = now[FLAGS];
    go_on(memory.as_mut_slice(), saved, kept);
    Ok(memory)
}

/// Puts bytes into memory, from a place on.
fn put_bytes(memory: &mut [u8], place: usize, bytes: &[u8])
    requires { place + length bytes.now ≤ length memory.old }
    ensures bytes { memory.new ≡ with_bytes place bytes.now memory.old }
    ensures size { length memory.new ≡ length memory.old }
{
    memory[place..place + bytes.len()].copy_from_slice(bytes);
}

/// Puts dynamic memory of a save over the loaded memory of its story.
fn take_memory(memory: &mut [u8], saved: &[u8])
    requires least { 64 ≤ length saved.now }
    requires within { length saved.now ≤ length memory.old }
    ensures memory { (story : LoadedStory) → story.memory ≡ memory.old → memory.new ≡ taken_memory story saved.now }
    ensures size { length memory.new ≡ length memory.old }
{
    let (_, behind) = saved.split_at(HEADER_END);
    put_bytes(memory, HEADER_END, behind);
    memory[FLAGS - 1] = saved[FLAGS - 1];
    memory[FLAGS] = saved[FLAGS];
}
