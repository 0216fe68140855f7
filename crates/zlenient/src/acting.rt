//! An answer, done.

ghost use Rattle.std.specs.Prelude.{◌≡◌, ◌<◌, ◌≤◌, ◌^◌, ◌+ℤ◌, ℕ, pos, true, length, is_some, OnOk, OnErr};
ghost use Rattle.zcode.specs.Operation.{target};
ghost use Rattle.zstate.specs.State.{at_place, exists, popped};
ghost use Rattle.zstate.specs.Step.{act, course, left, moved, stored};
ghost use Rattle.zlenient.specs.Answer.{EndsBy, IsOpenWay, effect_with, move_of};

use crate::settling::Course;
use std::alloc::AllocError;
use zcode::Instr;
use zstate::State;
use zstory::Story;

/// Takes the words of the operands off the stack, and gives the result variable its value, if it gets one. Memory is wanted only where the
/// stack gets longer.
fn give(
    story: &Story,
    state: &mut State,
    target: u8,
    gives: Option<u16>,
    before: usize,
) -> Result<(), AllocError>
    requires memory { length state.old.memory ≡ length story.now.memory }
    requires within { before ≤ length state.old.frame.stack }
    requires there { is_some gives ≡ true → exists target state.old.frame ≡ true }
    ensures ok { OnOk result (state.new ≡ stored story.now gives target (popped before state.old)) }
    ensures err { OnErr result (state.new ≡ state.old) }
{
    match gives {
        Some(word) => state.put(story, target, before, word),
        None => {
            state.pop(before);
            Ok(())
        }
    }
}

/// Leaves the newest frame, and gives its caller's variable a value.
fn leave(story: &Story, state: &mut State, word: u16)
    requires memory { length state.old.memory ≡ length story.now.memory }
    requires reached { state.old.frame.return_place < 2 ^ 24 }
    requires way { IsOpenWay (Course.Back word) state.old }
    ensures { state.new ≡ left story.now word state.old.callers state.old }
{
    match state.frame().result() {
        0 => push_back(story, state, word),
        variable => put_back(story, state, variable, word),
    }
}

/// Leaves the newest frame, and puts a value on the caller's stack.
fn push_back(story: &Story, state: &mut State, word: u16)
    requires reached { state.old.frame.return_place < 2 ^ 24 }
    requires way { IsOpenWay (Course.Back word) state.old }
    requires stack { state.old.frame.result ≡ 0 }
    ensures { state.new ≡ left story.now word state.old.callers state.old }
{
    let _story = story;
    state.leave_with(word);
}

/// Leaves the newest frame, and gives the caller's local or global a value.
fn put_back(story: &Story, state: &mut State, variable: u8, word: u16)
    requires memory { length state.old.memory ≡ length story.now.memory }
    requires reached { state.old.frame.return_place < 2 ^ 24 }
    requires way { IsOpenWay (Course.Back word) state.old }
    requires result { state.old.frame.result ≡ variable }
    requires named { 0 < variable }
    ensures { state.new ≡ left story.now word state.old.callers state.old }
{
    state.leave();
    state.put_named(story, variable, word);
}

/// Goes where a step leads, from the next instruction on.
pub(crate) fn go(story: &Story, state: &mut State, course: Course, size: usize)
    requires memory { length state.old.memory ≡ length story.now.memory }
    requires reached { state.old.frame.return_place < 2 ^ 24 }
    requires near { EndsBy 131072 size state.old.place }
    requires way { IsOpenWay course state.old }
    ensures { (v : ℕ) → state.new ≡ moved story.now v (move_of course) (at_place (state.old.place +ℤ pos size) state.old) }
{
    match course {
        Course::On(distance) => {
            state.advance(size);
            state.go(distance);
        }
        Course::Back(word) => leave(story, state, word),
    }
}

/// Does an answer. Memory is wanted only where the stack gets longer.
pub(crate) fn act(
    story: &Story,
    state: &mut State,
    instruction: &Instr,
    gives: Option<u16>,
    tests: Option<bool>,
    to: Course,
    before: usize,
) -> Result<(), AllocError>
    requires memory { length state.old.memory ≡ length story.now.memory }
    requires reached { state.old.frame.return_place < 2 ^ 24 }
    requires near { EndsBy 131072 instruction.now.size state.old.place }
    requires course { move_of to ≡ course (effect_with gives tests) instruction.now.branch }
    requires way { IsOpenWay to state.old }
    requires within { before ≤ length state.old.frame.stack }
    requires there { is_some gives ≡ true → exists (target instruction.now) state.old.frame ≡ true }
    ensures ok { OnOk result (state.new ≡ act story.now instruction.now (effect_with gives tests) (popped before state.old)) }
    ensures err { OnErr result (state.new ≡ state.old) }
{
    give(story, state, instruction.target(), gives, before)?;
    go(story, state, to, instruction.length());
    Ok(())
}
