//! A board that goes on from a save (Z 15 restore).

ghost use Rattle.std.specs.Prelude.{◌≡◌, ◌≤◌, ◌<◌, ◌+◌, ◌*◌, ◌++◌, ◌∷◌, ◌/◌, ◌%◌, Bool, List, ℕ, Some, length, take, true, false, OnErr, OnOk};
ghost use Rattle.std.specs.List.{AllByRecursion};
ghost use Rattle.zfault.specs.declared.event.Event.TheVariants as events;
ghost use Rattle.zline.specs.Storing.{with_bytes};
ghost use Rattle.zquetzal.specs.Reading.{words_of};
ghost use Rattle.zquetzal.specs.Saved.{IsFrame, AreFrames as AreSaved};
ghost use Rattle.zquetzal.specs.View.{frames_left, seen_frame};
ghost use Rattle.zstate.specs.State.{keeping_flags};
ghost use Rattle.zstate.specs.Saves.{taken_memory};
ghost use Rattle.zstory.specs.LoadedStory.{static_base};
ghost use Rattle.zengine.specs.Play.{Game, Plays, state_in};
ghost use Rattle.zengine.specs.Resuming.{CanResume, Resumes, all_laid, base_laid, headed, laid_frames, length_laid, newest_laid, words_wanted};
ghost use Rattle.zengine.specs.View.{body_of};
ghost use Rattle.zengine.specs.declared.row.Row.{Row as ARow};

use crate::board::Board;
use std::alloc::AllocError;
use zfault::Event;
use zquetzal::{Frames, SaveView, SavedFrame, word, word_count};
use zstory::Story;

/// Where the header ends (Z 11.1).
const HEADER_END: usize = 64;

/// The low byte of Flags 2, of which the two low bits stay as they are (Z 11.1).
const FLAGS: usize = 17;

/// The index of no row: the oldest frame returns to none.
const NOWHERE: u32 = 0xFFFF_FFFF;

/// How many words a newest frame may need behind its head.
const ROOM: usize = 65_551;

/// How many words a board needs to go on from a save.
pub fn words_wanted(save: &SaveView<'_>) -> usize
    ensures { result ≡ words_wanted save.now }
{
    let _count = save.frame_count(); // no more than there may be
    count_words(save.frames()) + ROOM
}

/// How many words the frames of a save take, with their heads.
fn count_words(mut rest: Frames<'_>) -> usize
    requires fit { AllByRecursion IsFrame (frames_left rest) }
    requires few { length (frames_left rest) ≤ 4097 }
    ensures value { result ≡ length_laid (frames_left rest.entry) }
    ensures most { result ≤ 268578835 }
{
    let mut words = 0;
    while let Some(frame) = rest.next() {
        words += 5 + word_count(frame.locals) + word_count(frame.stack);
    }
    words
}

/// Makes words at least so many. The state is that of before, and where memory is refused the board is too.
pub fn grow_to(board: &mut Board, count: usize) -> Result<(), AllocError>
    ensures ok { OnOk result ((tested : Bool) (g : Game) (rows : List ARow) → Plays tested g rows board.old → Plays tested g rows board.new × (state_in g board.new ≡ state_in g board.old)) }
    ensures room { OnOk result (count ≤ length board.new.words.items) }
    ensures kept { OnErr result (body_of board.new ≡ body_of board.old) }
    ensures at { board.new.at ≡ board.old.at }
{
    board.fill_words(count)
}

/// Goes on from a save at its `save`, which stands at the row of an index; `backs` are those of the rows to which its frames return, the
/// oldest first, without that of the first frame. Of the state before, the two low bits of Flags 2 stay and where random numbers come from
/// (own). Want of memory is the only error, and changes nothing.
pub fn resume(
    board: &mut Board,
    story: &Story,
    save: &SaveView<'_>,
    at: u32,
    backs: &[u32],
) -> Result<(), AllocError>
    requires size { length board.old.memory.items ≡ length story.now.memory }
    requires fits { (g : Game) × (rows : List ARow) × CanResume g rows story.now save.now at backs.now }
    ensures ok { OnOk result ((g : Game) (rows : List ARow) → CanResume g rows story.now save.now at backs.now → Resumes g rows save.now board.old board.new) }
    ensures kept { OnErr result ((body_of board.new ≡ body_of board.old) × (board.new.at ≡ board.old.at)) }
{
    board.fill_words(words_wanted(save))?;
    board.lay_save(story, save, at, backs);
    Ok(())
}

/// The same, where there are words enough: no memory is wanted.
pub fn resume_within(board: &mut Board, story: &Story, save: &SaveView<'_>, at: u32, backs: &[u32])
    requires size { length board.old.memory.items ≡ length story.now.memory }
    requires room { words_wanted save.now ≤ length board.old.words.items }
    requires fits { (g : Game) × (rows : List ARow) × CanResume g rows story.now save.now at backs.now }
    ensures on { (g : Game) (rows : List ARow) → CanResume g rows story.now save.now at backs.now → Resumes g rows save.now board.old board.new }
    ensures words { length board.new.words.items ≡ length board.old.words.items }
{
    board.lay_save(story, save, at, backs);
}

impl Board {
    /// Puts words behind all frames where there are fewer than so many.
    pub(crate) fn fill_words(&mut self, count: usize) -> Result<(), AllocError>
        ensures ok { OnOk result ((more : List ℕ) × (count ≤ length self.new.words.items) × (body_of self.new ≡ record (body_of self.old) { words = self.old.words.items ++ more })) }
        ensures kept { OnErr result (body_of self.new ≡ body_of self.old) }
        ensures at { self.new.at ≡ self.old.at }
    {
        if self.words.len() >= count {
            return Ok(());
        }
        self.words.resize(count, 0)
    }

    /// The board that a save tells of in place of this.
    fn lay_save(&mut self, story: &Story, save: &SaveView<'_>, at: u32, backs: &[u32])
        requires size { length self.old.memory.items ≡ length story.now.memory }
        requires memory { length save.now.memory ≡ static_base story.now }
        requires room { words_wanted save.now ≤ length self.old.words.items }
        requires backs { length backs.now + 1 ≡ length save.now.frames }
        ensures body { body_of self.new ≡ record { words = self.new.words.items; base = newest_laid save.now.frames; above = length backs.now; memory = keeping_flags self.old.memory.items (taken_memory story.now save.now.memory); outside = record self.old.outside.value { prompted = false; waiting = Some (events.Saved true) } } }
        ensures laid { take (length_laid save.now.frames) self.new.words.items ≡ all_laid save.now.frames backs.now }
        ensures words { length self.new.words.items ≡ length self.old.words.items }
        ensures size { length self.new.memory.items ≡ length self.old.memory.items }
        ensures saved { AreSaved save.now.frames }
        ensures at { self.new.at ≡ at }
    {
        reload(&mut self.memory, story, save.memory());
        let base = lay_all(&mut self.words, save, backs);
        self.base = base;
        self.above = backs.len();
        self.at = at as usize;
        self.outside.prompted = false;
        self.outside.waiting = Some(Event::Saved(true));
    }
}

/// Makes of a memory that of a save, and what that doesn't have is the story's; the two low bits of Flags 2 stay.
pub fn reload(memory: &mut [u8], story: &Story, saved: &[u8])
    requires size { length memory.old ≡ length story.now.memory }
    requires saved { length saved.now ≡ static_base story.now }
    ensures value { memory.new ≡ keeping_flags memory.old (taken_memory story.now saved.now) }
    ensures size { length memory.new ≡ length memory.old }
{
    story.static_base();
    let loaded = story.memory();
    let kept = memory[FLAGS] % 4;
    memory.copy_from_slice(loaded);
    let (_, behind) = saved.split_at(HEADER_END);
    put_bytes(memory, HEADER_END, behind);
    memory[FLAGS - 1] = saved[FLAGS - 1];
    memory[FLAGS] = saved[FLAGS];
    memory[FLAGS] = memory[FLAGS] / 4 * 4 + kept;
}

/// Puts bytes into memory, from a place on.
fn put_bytes(memory: &mut [u8], place: usize, bytes: &[u8])
    requires { place + length bytes.now ≤ length memory.old }
    ensures { memory.new ≡ with_bytes place bytes.now memory.old }
{
    memory[place..place + bytes.len()].copy_from_slice(bytes);
}

/// Lays the frames of a save in words, and tells where the newest begins.
fn lay_all(words: &mut [u16], save: &SaveView<'_>, backs: &[u32]) -> usize
    requires room { length_laid save.now.frames ≤ length words.old }
    requires backs { length backs.now + 1 ≡ length save.now.frames }
    ensures laid { take (length_laid save.now.frames) words.new ≡ all_laid save.now.frames backs.now }
    ensures size { length words.new ≡ length words.old }
    ensures base { result ≡ newest_laid save.now.frames }
    ensures least { 5 ≤ result }
    ensures most { result ≤ length_laid save.now.frames }
    ensures saved { AreSaved save.now.frames }
{
    let _count = save.frame_count(); // there is a first
    let mut rest = save.frames();
    match rest.next() {
        Some(first) => {
            lay_frame(words, 0, NOWHERE, 0, first);
            let below = word_count(first.locals) + word_count(first.stack);
            lay_frames(words, 5, below, rest, backs)
        }
        None => 0,
    }
}

/// Lays frames of a save above one that begins at a place and has so many words, and tells where the newest begins.
fn lay_frames(
    words: &mut [u16],
    base: usize,
    below: usize,
    mut rest: Frames<'_>,
    backs: &[u32],
) -> usize
    requires room { base + below + length_laid (frames_left rest) ≤ length words.old }
    requires fit { AllByRecursion IsFrame (frames_left rest) }
    requires low { below ≤ 65550 }
    requires backs { length backs.now ≡ length (frames_left rest) }
    ensures laid { take (base + below + length_laid (frames_left rest.entry)) words.new ≡ take (base + below) words.old ++ laid_frames below (frames_left rest.entry) backs.now }
    ensures size { length words.new ≡ length words.old }
    ensures base { result ≡ base_laid base below (frames_left rest.entry) }
    ensures least { base ≤ result }
    ensures most { result ≤ base + below + length_laid (frames_left rest.entry) }
{
    let mut base = base;
    let mut below = below;
    let mut number = 0;
    while let Some(frame) = rest.next() {
        let top = base + below;
        lay_frame(words, top, backs[number], below as u32 + 5, frame);
        base = top + 5;
        below = word_count(frame.locals) + word_count(frame.stack);
        number += 1;
    }
    base
}

/// Lays a frame of a save in words from a place on, its head first.
fn lay_frame(words: &mut [u16], top: usize, index: u32, distance: u32, frame: SavedFrame<'_>)
    requires room { top + (5 + length (seen_frame frame).locals + length (seen_frame frame).stack) ≤ length words.old }
    requires fit { IsFrame (seen_frame frame) }
    ensures laid { take (top + (5 + length (seen_frame frame.entry).locals + length (seen_frame frame.entry).stack)) words.new ≡ take top words.old ++ headed index distance (seen_frame frame.entry) }
    ensures size { length words.new ≡ length words.old }
{
    words[top] = (index % 65536) as u16;
    words[top + 1] = (index / 65536) as u16;
    words[top + 2] = (distance % 65536) as u16;
    words[top + 3] = (distance / 65536) as u16;
    words[top + 4] = u16::from(frame.result) + 256 * u16::from(frame.supplied);
    put_words(words, top + 5, frame.locals);
    put_words(words, top + 5 + word_count(frame.locals), frame.stack);
}

/// Puts the words that these bytes are into words, from a place on.
fn put_words(words: &mut [u16], top: usize, bytes: &[u8])
    requires { top + length (words_of bytes.now) ≤ length words.old }
    ensures size { length words.new ≡ length words.old }
    ensures put { take (top + length (words_of bytes.now)) words.new ≡ take top words.old ++ words_of bytes.now }
{
    for number in 0..word_count(bytes) {
        words[top + number] = word(bytes, number);
    }
}
