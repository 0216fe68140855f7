//! A step of lenient play where a step is a fault.

ghost use Rattle.std.specs.Prelude.{◌≡◌, ◌<◌, ◌≤◌, ◌^◌, ◌+◌, ℕ, Err, IfSome, MatchOption, Ok, OnErr, OnOk, drop, length, pos, true};
ghost use Rattle.zstory.specs.LoadedStory.{static_base};
ghost use Rattle.zcode.specs.Instruction.{Instruction};
ghost use Rattle.zcode.specs.Operation.{target};
ghost use Rattle.zcode.specs.Reading.{instruction_at};
ghost use Rattle.zstate.specs.State.{IsState, Setting, popped};
ghost use Rattle.zcode.specs.declared.error.DecodeError.TheVariants.{NotInProfile as LeftOut};
ghost use Rattle.zstate.specs.Step.{fetch};
ghost use Rattle.zlenient.specs.Answer.{EndsBy, IsExcused, IsOpenWay, done_instead, effect_with, place_after};
ghost use Rattle.zlenient.specs.Front.{front_at};
ghost use Rattle.zlenient.specs.Step.{instead, is_listed_at, is_within};

use crate::acting::{act, go};
use crate::answer::{Answer, answer_to};
use crate::front::Front;
use crate::passing::passed_at;
use crate::settling::{Course, settle};
use zcode::{DecodeError, Excluded, Instr, decode};
use zfault::Fault;
use zstate::{Halt, State};
use zstory::Story;

/// Why a lenient step isn't made.
#[derive(Clone, Copy)]
pub enum Unexcused {
    /// What keeps it from being made.
    Halt(Halt),
    /// Memory for it was refused.
    Memory,
}

/// The place to which an instruction of so many bytes leads.
fn place_after(state: &State, size: usize, course: Course) -> i32
    requires reached { state.now.frame.return_place < 2 ^ 24 }
    requires near { EndsBy 131072 size state.now.place }
    requires way { IsOpenWay course state.now }
    ensures { result ≡ place_after size course state.now }
{
    match course {
        Course::On(distance) => state.place() + size as i32 + distance,
        Course::Back(_) => state.frame().return_place() as i32,
    }
}

/// Whether an instruction of so many bytes leads into memory.
fn leads_inside(state: &State, size: usize, course: Course) -> bool
    requires reached { state.now.frame.return_place < 2 ^ 24 }
    requires near { EndsBy 131072 size state.now.place }
    requires way { IsOpenWay course state.now }
    ensures { result ≡ is_within (place_after size course state.now) (length state.now.memory) }
{
    is_within(place_after(state, size, course), state.memory().len())
}

/// Whether a place lies in so much memory.
fn is_within(place: i32, size: usize) -> bool
    ensures { result ≡ is_within place size }
{
    place >= 0 && (place as usize) < size
}

/// A value that is given is a word.
fn are_words(gives: Option<u16>)
    ensures { IfSome gives (λ x. x < 65536) }
{
    match gives {
        Some(_word) => {}
        None => {}
    }
}

/// A result variable's number is a byte.
fn is_byte(instruction: &Instr)
    ensures { target instruction.now < 256 }
{
    let _target = instruction.target();
}

/// Does an answer. An error changes nothing, and where it is done static memory stays as it is.
fn do_answer(
    story: &Story,
    state: &mut State,
    instruction: &Instr,
    fault: Fault,
    answer: Answer,
    before: usize,
) -> Result<(), Unexcused>
    requires state { (limit : ℕ) × IsState limit story.now state.old }
    requires near { EndsBy 131072 instruction.now.size state.old.place }
    requires within { before ≤ length state.old.frame.stack }
    ensures done { (limit : ℕ) → IsExcused (done_instead story.now limit fault instruction.now (effect_with answer.gives answer.tests) (popped before state.old) state.old) result state.old state.new }
    ensures keeps { OnOk result ((limit : ℕ) → IsState limit story.now state.old → IsState limit story.now state.new) }
    ensures fixed { OnOk result (drop (static_base story.now) state.new.memory ≡ drop (static_base story.now) state.old.memory) }
    ensures inside { OnOk result (is_within state.new.place (length state.new.memory) ≡ true) }
{
    let _memory = story.memory();
    are_words(answer.gives);
    is_byte(instruction);
    let course = match settle(instruction, answer.gives, answer.tests, state, before) {
        Ok(course) => course,
        Err(halt) => return Err(Unexcused::Halt(halt)),
    };
    if !leads_inside(state, instruction.length(), course) {
        return Err(Unexcused::Halt(Halt::Fault(fault)));
    }
    match act(
        story,
        state,
        instruction,
        answer.gives,
        answer.tests,
        course,
        before,
    ) {
        Ok(()) => Ok(()),
        Err(_) => Err(Unexcused::Memory),
    }
}

/// Where a state stands, from the first byte of memory on.
fn index_of(state: &State) -> Option<usize>
    ensures { MatchOption result ((p : ℕ) → state.now.place ≡ pos p → ⊥) (λ p. state.now.place ≡ pos p) }
{
    let place = state.place();
    if place < 0 {
        return None;
    }
    Some(place as usize)
}

/// Does what is customary in the place of a fault of the instruction at which a state stands.
fn do_instead(
    story: &Story,
    state: &mut State,
    instruction: &Instr,
    fault: Fault,
) -> Result<(), Unexcused>
    requires state { (limit : ℕ) × IsState limit story.now state.old }
    requires is { (p : ℕ) → state.old.place ≡ pos p → instruction_at (drop p state.old.memory) ≡ Ok instruction.now }
    requires near { EndsBy 131072 instruction.now.size state.old.place }
    ensures done { (m : Setting) (i : Instruction) → m.story ≡ story.now → fetch m.scope state.old.place state.old.memory ≡ Ok i → IsExcused (instead m fault state.old) result state.old state.new }
    ensures keeps { OnOk result ((limit : ℕ) → IsState limit story.now state.old → IsState limit story.now state.new) }
    ensures fixed { OnOk result (drop (static_base story.now) state.new.memory ≡ drop (static_base story.now) state.old.memory) }
    ensures inside { OnOk result (is_within state.new.place (length state.new.memory) ≡ true) }
{
    let values = match state.read_operands(story, instruction.inputs().as_slice()) {
        Ok(values) => values,
        Err(halt) => return Err(Unexcused::Halt(halt)),
    };
    let operation = instruction.opcode().operation();
    match answer_to(story, operation, values.words(), state.memory(), fault) {
        Some(answer) => do_answer(story, state, instruction, fault, answer, values.popped()),
        None => Err(Unexcused::Halt(Halt::Fault(fault))),
    }
}

/// The bytes of memory from a place on.
fn bytes_from(memory: &[u8], place: usize) -> &[u8]
    ensures { result.now ≡ drop place memory.now }
{
    match memory.get(place..) {
        Some(bytes) => bytes,
        None => &[],
    }
}

/// Passes over an opcode that the profile leaves out, at a place of memory.
fn pass_over(
    story: &Story,
    state: &mut State,
    front: &mut Front,
    place: usize,
    opcode: Excluded,
    fault: Fault,
) -> Result<(), Unexcused>
    requires state { (limit : ℕ) × IsState limit story.now state.old }
    requires at { state.old.place ≡ pos place }
    requires left_out { instruction_at (drop place state.old.memory) ≡ Err (LeftOut opcode) }
    ensures done { (m : Setting) → m.story ≡ story.now → is_listed_at m.scope state.old.place ≡ true → IsExcused (instead m fault state.old) result state.old state.new }
    ensures keeps { OnOk result ((limit : ℕ) → IsState limit story.now state.old → IsState limit story.now state.new) }
    ensures fixed { OnOk result (drop (static_base story.now) state.new.memory ≡ drop (static_base story.now) state.old.memory) }
    ensures inside { OnOk result (is_within state.new.place (length state.new.memory) ≡ true) }
    ensures front { OnOk result (front.new ≡ front_at story.now state.old state.old.place front.old) }
    ensures front_stays { OnErr result (front.new ≡ front.old) }
{
    let _memory = story.memory();
    let passed = match passed_at(bytes_from(state.memory(), place)) {
        Ok(passed) => passed,
        Err(_) => return Err(Unexcused::Halt(Halt::Fault(Fault::IllegalOpcode))),
    };
    let values = match state.read_operands(story, passed.operands.as_slice()) {
        Ok(values) => values,
        Err(halt) => return Err(Unexcused::Halt(halt)),
    };
    if !leads_inside(state, passed.size, Course::On(0)) {
        return Err(Unexcused::Halt(Halt::Fault(fault)));
    }
    state.pop(values.popped());
    go(story, state, Course::On(0), passed.size);
    *front = front.turned_by(opcode, values.words());
    Ok(())
}

/// Does what is customary in the place of the fault that the step at a listed place is, and does to the front what an opcode does that is passed
/// over; or says why it isn't done, and changes nothing. Where it is done static memory stays as it is, and the place lies in memory.
pub fn excuse(
    story: &Story,
    state: &mut State,
    front: &mut Front,
    fault: Fault,
) -> Result<(), Unexcused>
    requires { (limit : ℕ) × IsState limit story.now state.old }
    ensures done { (m : Setting) → m.story ≡ story.now → is_listed_at m.scope state.old.place ≡ true → IsExcused (instead m fault state.old) result state.old state.new }
    ensures keeps { OnOk result ((limit : ℕ) → IsState limit story.now state.old → IsState limit story.now state.new) }
    ensures fixed { OnOk result (drop (static_base story.now) state.new.memory ≡ drop (static_base story.now) state.old.memory) }
    ensures inside { OnOk result (is_within state.new.place (length state.new.memory) ≡ true) }
    ensures front { OnOk result (front.new ≡ front_at story.now state.old state.old.place front.old) }
    ensures front_stays { OnErr result (front.new ≡ front.old) }
{
    let _memory = story.memory();
    let Some(place) = index_of(state) else {
        return Err(Unexcused::Halt(Halt::Fault(Fault::UnlistedInstruction)));
    };
    match decode(state.memory(), place) {
        Ok(instruction) => do_instead(story, state, &instruction, fault),
        Err(cause) => match cause {
            DecodeError::NotInProfile(opcode) => {
                pass_over(story, state, front, place, opcode, fault)
            }
            _ => Err(Unexcused::Halt(Halt::Fault(Fault::IllegalOpcode))),
        },
    }
}
