//! A board that is put into another state of its story.

ghost use Rattle.std.specs.Prelude.{◌≡◌, ◌+◌, ◌<◌, ◌≤◌, IsFalse, IsTrue, OnErr, OnOk, Ok, length};
ghost use Rattle.zquetzal.specs.Reading.{reading};
ghost use Rattle.zquetzal.specs.Saved.{IsSaved, Saved as ASaved};
ghost use Rattle.zquetzal.specs.declared.limits.TheConstants.{MOST_FRAMES};
ghost use Rattle.zstate.specs.Saves.{resumed};
ghost use Rattle.zstate.specs.State.{IsState};
ghost use Rattle.zengine.specs.Play.{state_in};
ghost use Rattle.zengine.specs.View.{body_of};
ghost use Rattle.zmachine.specs.Parts.{IsInside};
ghost use Rattle.zmachine.specs.Rows.{IsAsLoaded, IsPlayed, Less};
ghost use Rattle.zmachine.specs.Standing.{IsLaid};

use crate::resuming::find_rows;
use crate::returns::Returns;
use crate::room::lengthen;
use crate::rows::Rows;
use std::alloc::{AllocError, Global};
use zengine::{Board, resume_within, words_wanted};
use zfault::Event;
use zquetzal::{SaveView, read, saves_are_read, write};
use zstate::{SavedState, State, saves_are_states};
use zstory::Story;

/// The event that waits in a state, if one does.
fn waiting_in(state: &State) -> Option<Event>
    ensures { result ≡ state.now.waiting }
{
    if let Some(line) = state.waiting_line() {
        return Some(Event::Line(line));
    }
    if let Some(word) = state.waiting_word() {
        return Some(Event::Random(word));
    }
    if let Some(kept) = state.waiting_outcome() {
        return Some(Event::Saved(kept));
    }
    if state.is_unrestored() {
        return Some(Event::NotRestored);
    }
    None
}

/// Makes memory that of a state, and what comes from outside what it has there.
fn set_rest(board: &mut Board, state: &State)
    requires { length state.now.memory ≡ length board.old.memory.items }
    ensures body { body_of board.new ≡ record (body_of board.old) { memory = state.now.memory; outside = record { random = state.now.random; prompted = state.now.prompted; waiting = state.now.waiting } } }
    ensures at { board.new.at ≡ board.old.at }
{
    board.memory.copy_from_slice(state.memory());
    board.outside.random = state.random();
    board.outside.prompted = state.is_prompted();
    board.outside.waiting = waiting_in(state);
}

/// The frames of a save of its story are laid on a board, where it is played on; or memory for them was refused, and it stands where it stood.
fn lay_frames<R: Rows>(
    rows: &mut R,
    board: &mut Board,
    story: &Story,
    view: &SaveView<'_>,
    backs: &mut Returns,
) -> bool
    requires own { story.now ≡ (R.game rows.old).setting.story }
    requires played { IsPlayed (R.game rows.old) (R.all rows.old) board.old }
    requires saved { IsSaved story.now view.now }
    requires few { length view.now.frames ≤ (R.game rows.old).setting.limit + 1 }
    ensures setting { (R.game rows.new).setting ≡ (R.game rows.old).setting }
    ensures laid { IsTrue result → IsLaid (R.game rows.new) (R.all rows.new) board.new }
    ensures state { IsTrue result → state_in (R.game rows.new) board.new ≡ resumed story.now view.now (state_in (R.game rows.old) board.old) }
    ensures played { IsFalse result → IsPlayed (R.game rows.new) (R.all rows.new) board.new }
    ensures same { IsFalse result → (rows.new ≡ rows.old) × (state_in (R.game rows.new) board.new ≡ state_in (R.game rows.old) board.old) }
    ensures words { length board.old.words.items ≤ length board.new.words.items }
    ensures kept { IsFalse result → length board.new.words.items ≡ length board.old.words.items }
    ensures size { length board.new.memory.items ≡ length story.now.memory }
    ensures less { Less (R.lacks rows.old) (R.lacks rows.new) }
{
    let _memory = story.memory();
    rows.plays(board);
    if !lengthen(board, words_wanted(view)) {
        return false;
    }
    let at = find_rows(rows, story, view, backs);
    rows.long();
    let _first = rows.first();
    resume_within(board, story, view, at, backs.as_slice());
    true
}

/// What was written of a state, as it is read.
pub(crate) fn view_of<'a>(story: &Story, bytes: &'a [u8]) -> SaveView<'a>
    requires { (saved : ASaved) × (reading story.now bytes.now ≡ Ok saved) }
    ensures read { reading story.now bytes.now ≡ Ok result }
    ensures saved { IsSaved story.now result }
{
    match read(story, bytes) {
        Ok(view) => view,
        Err(_) => unreachable!(),
    }
}

/// Puts a board into another state of its story, whose place lies in memory and whose static memory is as it was loaded. Want of memory is the
/// only error, and changes nothing.
pub(crate) fn stand_in<R: Rows>(
    alloc: Global,
    rows: &mut R,
    board: &mut Board,
    story: &Story,
    state: &State,
    backs: &mut Returns,
) -> Result<(), AllocError>
    requires own { story.now ≡ (R.game rows.old).setting.story }
    requires few { (R.game rows.old).setting.limit < MOST_FRAMES }
    requires played { IsPlayed (R.game rows.old) (R.all rows.old) board.old }
    requires state { IsState (R.game rows.old).setting.limit story.now state.now }
    requires loaded { IsAsLoaded story.now state.now.memory }
    requires inside { IsInside state.now }
    ensures setting { (R.game rows.new).setting ≡ (R.game rows.old).setting }
    ensures played { IsPlayed (R.game rows.new) (R.all rows.new) board.new }
    ensures ok { OnOk result (state_in (R.game rows.new) board.new ≡ state.now) }
    ensures same { OnErr result ((rows.new ≡ rows.old) × (state_in (R.game rows.new) board.new ≡ state_in (R.game rows.old) board.old) × (length board.new.words.items ≡ length board.old.words.items)) }
    ensures words { length board.old.words.items ≤ length board.new.words.items }
    ensures less { Less (R.lacks rows.old) (R.lacks rows.new) }
{
    saves_are_states();
    saves_are_read();
    let _memory = story.memory();
    let bytes = write(alloc, &SavedState::new(story, state))?;
    let view = view_of(story, &bytes);
    if !lay_frames(rows, board, story, &view, backs) {
        return Err(AllocError);
    }
    set_rest(board, state);
    Ok(())
}
