//! The state in which a board stands, in memory of its own.

ghost use Rattle.std.specs.Prelude.{◌≡◌, ◌≤◌, IfOk, drop, false, length};
ghost use Rattle.zstory.specs.LoadedStory.{static_base};
ghost use Rattle.zquetzal.specs.Saved.{IsSaved};
ghost use Rattle.zstate.specs.Saves.{resumed};
ghost use Rattle.zstate.specs.State.{opening, with_memory};

use std::alloc::{AllocError, Global};
use zarray::Width;
use zengine::{Board, Outside};
use zfault::Event;
use zquetzal::SaveView;
use zstate::State;
use zstory::Story;

/// Where the header has the end of dynamic memory, a word (Z 11.1).
const STATIC_BASE: usize = 0x0e;

/// Makes a state's memory another, that is the same from a place on.
fn copy_memory(state: &mut State, memory: &[u8], end: u16)
    requires size { length state.old.memory ≡ length memory.now }
    requires within { end ≤ length memory.now }
    requires rest { drop end state.old.memory ≡ drop end memory.now }
    ensures { state.new ≡ with_memory memory.now state.old }
{
    for place in 0..end {
        state.set_element(Width::Byte, place, u16::from(memory[usize::from(place)]));
    }
}

/// Makes what waits in a state another.
fn set_waiting(state: &mut State, waiting: Option<Event>)
    ensures { state.new ≡ record state.old { waiting = waiting } }
{
    match waiting {
        Some(event) => state.give(event),
        None => state.use_word(),
    }
}

/// Marks a state as prompted, if it is.
fn set_prompted(state: &mut State, prompted: bool)
    requires { state.old.prompted ≡ false }
    ensures { state.new ≡ record state.old { prompted = prompted } }
{
    if prompted {
        state.prompt();
    }
}

/// Makes what comes from outside another in a state that isn't prompted.
fn set_outside(state: &mut State, outside: &Outside)
    requires { state.old.prompted ≡ false }
    ensures { state.new ≡ record state.old { random = outside.now.random; prompted = outside.now.prompted; waiting = outside.now.waiting } }
{
    state.set_random(outside.random);
    set_prompted(state, outside.prompted);
    set_waiting(state, outside.waiting);
}

/// The state in which a board stands whose frames and place are those of a save. Want of memory is the only error.
pub(crate) fn state_of(
    alloc: Global,
    story: &Story,
    view: &SaveView<'_>,
    memory: &[u8],
    outside: &Outside,
) -> Result<State, AllocError>
    requires saved { IsSaved story.now view.now }
    requires size { length memory.now ≡ length story.now.memory }
    requires loaded { drop (static_base story.now) memory.now ≡ drop (static_base story.now) story.now.memory }
    ensures { IfOk result (λ s. s ≡ record (resumed story.now view.now (opening story.now)) { memory = memory.now; random = outside.now.random; prompted = outside.now.prompted; waiting = outside.now.waiting }) }
{
    let loaded = story.memory();
    let end = u16::from_be_bytes([loaded[STATIC_BASE], loaded[STATIC_BASE + 1]]);
    let opened = State::opening(alloc, story)?;
    let mut state = State::resumed(alloc, story, view, &opened)?;
    copy_memory(&mut state, memory, end);
    set_outside(&mut state, outside);
    Ok(state)
}
