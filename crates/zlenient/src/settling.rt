//! What is judged of an answer before it is done, and where it leads.

ghost use Rattle.std.specs.Prelude.{◌≡◌, ◌≤◌, ℕ, Option, true, length, is_some, IfOk};
ghost use Rattle.zcode.specs.Operation.{target};
ghost use Rattle.zstate.specs.Gives.{Gives};
ghost use Rattle.zstate.specs.State.{exists, popped};
ghost use Rattle.zstate.specs.Step.{admits, course, is_roomy, pauses, settle};
ghost use Rattle.zlenient.specs.Answer.{IsOpenWay, IsShortWay, effect_with, move_of};

use zcode::{Branch, Destination, Instr};
use zfault::Fault;
use zstate::{Halt, State};

/// Where a step leads that isn't into a routine.
#[derive(Clone, Copy)]
pub(crate) enum Course {
    /// So many bytes behind the next instruction.
    On(i32),
    /// To the caller, with a value.
    Back(u16),
}

/// Where a step leads whose branch is told something: along the branch, where that is taken, and else to the next instruction.
#[tactic(auto, using(crate::proofs::Short::short))]
fn course_of(tests: Option<bool>, branch: Option<Branch>) -> Course
    ensures value { (gives : Option ℕ) → move_of result ≡ course (effect_with gives tests) branch }
    ensures short { IsShortWay result }
{
    let (Some(condition), Some(branch)) = (tests, branch) else {
        return Course::On(0);
    };
    if condition != branch.sense {
        return Course::On(0);
    }
    match branch.destination() {
        Destination::Relative(distance) => Course::On(distance),
        Destination::ReturnFalse => Course::Back(0),
        Destination::ReturnTrue => Course::Back(1),
    }
}

/// The faults: of the result variable, of a return from the first frame, and of the caller's result variable.
#[tactic(auto, unfolding(zstate::specs::Step::admits))]
fn admit(
    target: u8,
    gives: Option<u16>,
    tests: Option<bool>,
    course: Course,
    state: &State,
) -> Result<(), Halt>
    requires { IsShortWay course }
    ensures value { (n : ℕ) → Gives (λ _. tt) result (admits target (effect_with gives tests) (move_of course) (popped n state.now)) }
    ensures way { IfOk result (λ _. IsOpenWay course state.now) }
    ensures there { IfOk result (λ _. is_some gives ≡ true → exists target state.now.frame ≡ true) }
{
    if gives.is_some() && !state.frame().has(target) {
        return Err(Halt::Fault(Fault::AbsentLocal));
    }
    match course {
        Course::On(_) => Ok(()),
        Course::Back(_) => match state.caller() {
            None => Err(Halt::Fault(Fault::ReturnFromMain)),
            Some(caller) if caller.has(state.frame().result()) => Ok(()),
            Some(_) => Err(Halt::Fault(Fault::AbsentLocal)),
        },
    }
}

/// Whether there is room for what is returned.
fn is_roomy(course: Course, state: &State) -> bool
    ensures { (limit : ℕ) → result ≡ is_roomy limit (move_of course) state.now.frame.result state.now.callers }
{
    match course {
        Course::On(_) => true,
        Course::Back(_) => match state.caller() {
            Some(caller) => caller.has_room(state.frame().result(), 0),
            None => true,
        },
    }
}

/// The pause of a stack with no room for a word.
#[tactic(auto, unfolding(zstate::specs::Step::pauses))]
fn pause(
    target: u8,
    gives: Option<u16>,
    tests: Option<bool>,
    course: Course,
    state: &State,
    before: usize,
) -> Result<(), Halt>
    requires within { before ≤ length state.now.frame.stack }
    ensures { (limit : ℕ) → Gives (λ _. tt) result (pauses limit target (effect_with gives tests) (move_of course) (popped before state.now)) }
{
    let _tests = tests;
    if gives.is_some() && !state.frame().has_room(target, before) {
        return Err(Halt::FrameLimit);
    }
    if is_roomy(course, state) {
        Ok(())
    } else {
        Err(Halt::FrameLimit)
    }
}

/// Judges an answer, where so many words were taken off the stack before, and says where the step leads.
pub(crate) fn settle(
    instruction: &Instr,
    gives: Option<u16>,
    tests: Option<bool>,
    state: &State,
    before: usize,
) -> Result<Course, Halt>
    requires within { before ≤ length state.now.frame.stack }
    ensures value { (limit : ℕ) → Gives (λ _. tt) result (settle limit instruction.now (effect_with gives tests) (popped before state.now)) }
    ensures course { IfOk result (λ c. move_of c ≡ course (effect_with gives tests) instruction.now.branch) }
    ensures way { IfOk result (λ c. IsOpenWay c state.now) }
    ensures short { IfOk result IsShortWay }
    ensures there { IfOk result (λ _. is_some gives ≡ true → exists (target instruction.now) state.now.frame ≡ true) }
{
    let course = course_of(tests, instruction.branch());
    let target = instruction.target();
    admit(target, gives, tests, course, state)?;
    pause(target, gives, tests, course, state, before)?;
    Ok(course)
}
