//! Going on from a save (Z 15 restore).

ghost use Rattle.std.specs.Prelude.{◌≡◌, ◌⊎◌, ◌+◌, ◌<◌, ◌≤◌, ℕ, IfErr, OnErr, OnOk, Err, Ok, Some, length, nat_le, pos, true};
ghost use Rattle.zstory.specs.Bytes.{AreBytes};
ghost use Rattle.zstory.specs.LoadedStory.{static_base};
ghost use Rattle.zquetzal.specs.View.{seen_frame};
ghost use Rattle.zquetzal.specs.Saved.{IsFrame, IsSaved};
ghost use Rattle.zfault.specs.declared.event.Event.TheVariants.{Saved};
ghost use Rattle.zstate.specs.Saves.{going_on, resumed, restoring, save_place, taken_memory};
ghost use Rattle.zstate.specs.State.{keeping_flags};
ghost use Rattle.zengine.specs.declared.row.Slot.{Slot as ASlot};
ghost use Rattle.zengine.specs.declared.row.Spot.{Spot as ASpot};
ghost use Rattle.zengine.specs.Play.{state_in};
ghost use Rattle.zengine.specs.Resuming.{HaveRows};
ghost use Rattle.zmachine.specs.Resuming.{IsBackRow, IsNarrow, IsRefused};
ghost use Rattle.zmachine.specs.Rows.{IsPlayed, IsRowOf, Less};

use crate::returns::Returns;
use crate::room::lengthen;
use crate::rows::Rows;
use zengine::{Board, Slot, Spot, landed, reload, resume_within, words_wanted};
use zquetzal::{SaveError, SaveView, SavedFrame, read, word_count};
use zstate::saves_are_states;
use zstory::Story;

/// The low byte of Flags 2, of which the two low bits stay as they are (Z 11.1).
const FLAGS: usize = 17;

/// How many locals a frame of a save has, and how many words are on its stack.
#[derive(Clone, Copy)]
struct Size {
    count: u8,
    height: u16,
}

/// How many words a frame of a save has.
fn size_of(frame: &SavedFrame<'_>) -> Size
    requires fit { IsFrame (seen_frame frame.now) }
    ensures count { result.count ≡ length (seen_frame frame.now).locals }
    ensures height { result.height ≡ length (seen_frame frame.now).stack }
    ensures low { result.count ≤ 15 }
{
    Size {
        count: word_count(frame.locals) as u8,
        height: word_count(frame.stack) as u16,
    }
}

/// The spot to which a frame of a save returns.
fn spot_of(frame: &SavedFrame<'_>, count: u8, height: u16) -> Spot
    requires { IsFrame (seen_frame frame.now) }
    ensures { result ≡ record { place = pos (seen_frame frame.now).return_place; count = count; height = height } }
{
    Spot {
        place: frame.return_place as i32,
        count,
        height,
    }
}

/// The spot at which play goes on from a save, in a newest frame of some size.
fn newest_spot(save: &SaveView<'_>, newest: Size) -> Spot
    ensures { result ≡ record { place = save_place save.now; count = newest.count; height = newest.height } }
{
    Spot {
        place: save.place() as i32 - 1,
        count: newest.count,
        height: newest.height,
    }
}

/// The index of the row to which a frame of a save returns, above one of some size.
fn back_of<R: Rows>(
    rows: &mut R,
    story: &Story,
    number: usize,
    below: Size,
    frame: &SavedFrame<'_>,
) -> u32
    requires own { story.now ≡ (R.game rows.old).setting.story }
    requires number { number ≤ (R.game rows.old).setting.limit }
    requires low { below.count ≤ 15 }
    requires fit { IsFrame (seen_frame frame.now) }
    ensures setting { (R.game rows.new).setting ≡ (R.game rows.old).setting }
    ensures back { IsBackRow story.now (R.game rows.new) (R.all rows.new) below.count below.height (seen_frame frame.now) result }
    ensures others { (k : ℕ) (other : ASpot) (slot : ASlot) → (k ≡ number → ⊥) → IsRowOf (R.game rows.old) (R.all rows.old) other slot k → IsRowOf (R.game rows.new) (R.all rows.new) other slot k }
    ensures within { (result ≡ number) ⊎ ((R.game rows.old).setting.limit < result) }
    ensures less { Less (R.lacks rows.old) (R.lacks rows.new) }
{
    let (came, height) = landed(story, below.count, frame.result, below.height);
    rows.row_anew(number, spot_of(frame, below.count, height), came)
}

/// Finds the rows to which the frames of a save return, above the oldest, and the one at which play goes on.
pub(crate) fn find_rows<R: Rows>(
    rows: &mut R,
    story: &Story,
    save: &SaveView<'_>,
    backs: &mut Returns,
) -> u32
    requires own { story.now ≡ (R.game rows.old).setting.story }
    requires few { length save.now.frames ≤ (R.game rows.old).setting.limit + 1 }
    ensures setting { (R.game rows.new).setting ≡ (R.game rows.old).setting }
    ensures rows { HaveRows story.now (R.game rows.new).spots (R.all rows.new) result (save_place save.now) save.now.frames backs.new }
    ensures less { Less (R.lacks rows.old) (R.lacks rows.new) }
{
    backs.clear();
    let mut rest = save.frames();
    let Some(first) = rest.next() else {
        unreachable!()
    };
    let mut below = size_of(&first);
    let mut number = 0;
    while let Some(frame) = rest.next() {
        backs.push(back_of(rows, story, number, below, &frame));
        below = size_of(&frame);
        number += 1;
    }
    rows.row_anew(number, newest_spot(save, below), Slot::Constant(0))
}

/// Makes of spare memory what memory would be once play has gone on from a save.
fn lay_memory(memory: &mut [u8], now: &[u8], story: &Story, saved: &[u8])
    requires size { length memory.old ≡ length story.now.memory }
    requires now { length now.now ≡ length story.now.memory }
    requires saved { length saved.now ≡ static_base story.now }
    ensures value { memory.new ≡ keeping_flags now.now (taken_memory story.now saved.now) }
    ensures size { length memory.new ≡ length memory.old }
{
    let _size = story.length();
    memory[FLAGS] = now[FLAGS];
    reload(memory, story, saved);
}

/// Whether play may go on from a save, or its lowest refusal. The memory that it would have is spare.
fn judge_save<R: Rows>(
    rows: &R,
    board: &Board,
    memory: &mut [u8],
    story: &Story,
    save: &SaveView<'_>,
) -> Result<(), SaveError>
    requires own { story.now ≡ (R.game rows.now).setting.story }
    requires size { length memory.old ≡ length story.now.memory }
    requires now { length board.now.memory.items ≡ length story.now.memory }
    requires saved { IsSaved story.now save.now }
    ensures size { length memory.new ≡ length memory.old }
    ensures ok { OnOk result (going_on (R.game rows.now).setting save.now (state_in (R.game rows.now) board.now) ≡ Ok (resumed story.now save.now (state_in (R.game rows.now) board.now))) }
    ensures few { OnOk result (length save.now.frames ≤ (R.game rows.now).setting.limit + 1) }
    ensures err { IfErr result (λ e. going_on (R.game rows.now).setting save.now (state_in (R.game rows.now) board.now) ≡ Err e) }
{
    lay_memory(memory, &board.memory, story, save.memory());
    if !rows.is_save(
        memory,
        newest_spot(
            save,
            Size {
                count: 0,
                height: 0,
            },
        ),
    ) {
        return Err(SaveError::Place);
    }
    if !has_few(save, rows.limit()) {
        return Err(SaveError::NotDescribed);
    }
    Ok(())
}

/// Goes on from the bytes of a save, which is judged as a whole first. Where it is refused the board stands where it stood.
pub(crate) fn go_on<R: Rows>(
    rows: &mut R,
    board: &mut Board,
    memory: &mut [u8],
    story: &Story,
    save: &[u8],
    backs: &mut Returns,
) -> Result<(), SaveError>
    requires own { story.now ≡ (R.game rows.old).setting.story }
    requires played { IsPlayed (R.game rows.old) (R.all rows.old) board.old }
    requires size { length memory.old ≡ length story.now.memory }
    ensures setting { (R.game rows.new).setting ≡ (R.game rows.old).setting }
    ensures played { IsPlayed (R.game rows.new) (R.all rows.new) board.new }
    ensures size { length memory.new ≡ length memory.old }
    ensures words { length board.old.words.items ≤ length board.new.words.items }
    ensures ok { OnOk result (restoring (R.game rows.old).setting save.now (state_in (R.game rows.old) board.old) ≡ Ok (state_in (R.game rows.new) board.new)) }
    ensures waits { OnOk result (board.new.outside.value.waiting ≡ Some (Saved true)) }
    ensures same { OnErr result ((rows.new ≡ rows.old) × (state_in (R.game rows.new) board.new ≡ state_in (R.game rows.old) board.old) × (length board.new.words.items ≡ length board.old.words.items)) }
    ensures err { IfErr result (IsRefused (R.game rows.old).setting save.now (state_in (R.game rows.old) board.old)) }
    ensures narrow { IfErr result (λ e. (restoring (R.game rows.old).setting save.now (state_in (R.game rows.old) board.old) ≡ Err e) ⊎ IsNarrow (R.game rows.old).setting save.now (length board.old.words.items)) }
    ensures less { Less (R.lacks rows.old) (R.lacks rows.new) }
{
    saves_are_states();
    let _memory = story.memory();
    let view = read(story, save)?;
    are_bytes(view.memory());
    rows.plays(board);
    match judge_save(rows, board, memory, story, &view) {
        Ok(()) => {}
        Err(refusal) => return Err(refusal),
    }
    if !lengthen(board, words_wanted(&view)) {
        return Err(SaveError::OutOfMemory);
    }
    let at = find_rows(rows, story, &view, backs);
    rows.long();
    let _first = rows.first();
    resume_within(board, story, &view, at, backs.as_slice());
    Ok(())
}

/// Whether a save has at most so many frames above the first.
fn has_few(save: &SaveView<'_>, limit: usize) -> bool
    ensures { result ≡ nat_le (length save.now.frames) (limit + 1) }
{
    save.frame_count() - 1 <= limit
}

/// Bytes are below 256.
fn are_bytes(bytes: &[u8])
    ensures { AreBytes bytes.now }
{}
