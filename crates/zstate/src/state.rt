//! The state of a machine.

ghost use Rattle.std.specs.Prelude.{◌≡◌, ◌≤◌, ◌<◌, ◌+◌, ◌*◌, ◌-◌, ◌^◌, ◌==◌, ◌+ℤ◌, ◌≤ℤ◌, ◌∷◌, Some, List, length, reverse, slice_get, pos, negsuc, true, [], MatchOption, IfOk, OnOk, OnErr, is_some, ℕ};
ghost use Rattle.zstory.specs.LoadedStory.{globals};
ghost use Rattle.zstory.specs.Bytes.{word_at};
ghost use Rattle.zstate.specs.State.{IsState, State as StateValue, has_head, opening, popped, at_place, give, global, read_named, read_variable, read_operand, read_operands, pop, Frame as FrameValue, exists, put, put_named, put_in_place, read_in_place, with_memory, write_word};
ghost use Rattle.zstate.specs.Gives.{Gives, IsNear};
ghost use Rattle.zstate.specs.Step.{called_at, entered};

use crate::frame::Frame;
use crate::frames::Frames;
use crate::halt::Halt;
use crate::mode::RandomMode;
use arrayvec::ArrayVec;
use byteorder::{BigEndian, ByteOrder};
use std::alloc::{AllocError, Global};
use std::marker::Model;
use zcode::Operand;
use zfault::{Event, Fault};
use zstory::Story;

/// The state of a machine: all that a step may change (Z 6). Contracts see the newest frame apart from its callers, of
/// which the newest is first.
#[derive(Drop)]
pub struct State {
    pub(crate) memory: Vec<u8>,
    pub(crate) frames: Frames,
    pub(crate) place: i32,
    pub(crate) random: RandomMode,
    pub(crate) prompted: bool,
    pub(crate) waiting: Option<Event>,
}

impl Model for State {
    ghost use Rattle.zstate.specs.State.{State as StateValue};

    ghost Value = { StateValue };

    ghost view = { λ s. record { memory = s.memory.items; frame = s.frames.newest; callers = s.frames.callers; place = s.place; random = s.random; prompted = s.prompted; waiting = s.waiting } };
}

/// The values of an instruction's operands, with how many words their reading takes off the stack.
#[derive(Drop)]
pub struct Values {
    words: ArrayVec<u16, 4>,
    popped: usize,
}

impl Values {
    /// The words, in order.
    pub fn words(&self) -> &[u16]
        ensures { result.now ≡ self.now.words.items }
    {
        self.words.as_slice()
    }

    /// How many words the reading takes off the stack.
    pub fn popped(&self) -> usize
        ensures { result ≡ self.now.popped }
    {
        self.popped
    }
}

impl State {
    /// The state in which a story opens (Z 6.1.3). Want of memory is the only error.
    #[tactic(auto, using(crate::proofs::Opens::opening_is_state))]
    pub fn opening(alloc: Global, story: &Story) -> Result<State, AllocError>
        ensures opens { IfOk result (λ state. state ≡ opening story.now) }
        ensures holds { IfOk result (λ state. (limit : ℕ) → IsState limit story.now state) }
    {
        Ok(State {
            memory: story.memory().to_vec(alloc)?,
            frames: Frames::first(alloc),
            place: story.first_instruction() as i32,
            random: RandomMode::Words,
            prompted: false,
            waiting: None,
        })
    }

    /// Memory as it is now, as long as the loaded story.
    pub fn memory(&self) -> &[u8]
        ensures { result.now ≡ self.now.memory }
    {
        self.memory.as_slice()
    }

    /// The newest frame.
    #[inline(always)]
    pub fn frame(&self) -> Frame<'_>
        ensures { result ≡ self.now.frame }
    {
        self.frames.newest()
    }

    /// The newest of the frames below the newest, to which that one returns.
    #[inline(always)]
    pub fn caller(&self) -> Option<Frame<'_>>
        ensures { MatchOption result (self.now.callers ≡ []) (λ g. (gs : List FrameValue) × (self.now.callers ≡ g ∷ gs)) }
    {
        self.frames.caller()
    }

    /// A frame by its number from the oldest, which is 0.
    pub(crate) fn frame_from(&self, number: usize) -> Frame<'_>
        requires { number ≤ length self.now.callers }
        ensures { slice_get (reverse (self.now.frame ∷ self.now.callers)) number ≡ Some result }
    {
        self.frames.frame(number)
    }

    /// How many frames stand below the newest.
    #[inline(always)]
    pub fn depth(&self) -> usize
        ensures { result ≡ length self.now.callers }
    {
        self.frames.depth()
    }

    /// The address of the instruction that comes next. A jump may lead outside memory, below 0 too.
    pub fn place(&self) -> i32
        ensures { result ≡ self.now.place }
    {
        self.place
    }

    /// Where random numbers come from.
    pub fn random(&self) -> RandomMode
        ensures { result ≡ self.now.random }
    {
        self.random
    }

    /// Whether the `sread` at the place has shown its status line and waits for the player's line (own).
    pub fn is_prompted(&self) -> bool
        ensures { result ≡ self.now.prompted }
    {
        self.prompted
    }

    /// Whether an event was handed in and isn't used yet.
    pub fn is_given(&self) -> bool
        ensures { result ≡ is_some self.now.waiting }
    {
        self.waiting.is_some()
    }

    /// Hands in an event.
    pub fn give(&mut self, event: Event)
        ensures { self.new ≡ give event self.old }
    {
        self.waiting = Some(event);
    }

    /// Moves the place past an instruction of so many bytes.
    pub fn advance(&mut self, length: usize)
        requires near { IsNear self.old.place }
        requires small { length ≤ 1000000 }
        ensures { self.new ≡ at_place (self.old.place +ℤ pos length) self.old }
    {
        self.place += length as i32;
    }

    /// Moves the place by a distance.
    pub fn go(&mut self, distance: i32)
        requires near { IsNear self.old.place }
        requires low { negsuc 100000 ≤ℤ distance }
        requires high { distance ≤ℤ pos 100000 }
        ensures { self.new ≡ at_place (self.old.place +ℤ distance) self.old }
    {
        self.place += distance;
    }

    /// Takes so many words off the stack.
    #[inline(always)]
    pub fn pop(&mut self, count: usize)
        requires { count ≤ length self.old.frame.stack }
        ensures { self.new ≡ popped count self.old }
    {
        self.frames.pop(count);
    }

    /// A global, by its variable's number.
    #[inline(always)]
    fn global(&self, story: &Story, variable: u8) -> u16
        requires memory { length self.now.memory ≡ length story.now.memory }
        requires named { 16 ≤ variable }
        ensures { result ≡ word_at self.now.memory (global story.now variable) }
    {
        let memory = self.memory.as_slice();
        let at = story.globals() + 2 * (usize::from(variable) - 16);
        BigEndian::read_u16(&memory[at..])
    }

    #[inline(always)]
    #[tactic(auto, unfolding(crate::specs::State::read_named), using(crate::proofs::Reading::existing))]
    fn read_named(&self, story: &Story, variable: u8) -> Result<u16, Halt>
        requires memory { length self.now.memory ≡ length story.now.memory }
        requires named { 0 < variable }
        ensures value { Gives (λ x. x) result (read_named story.now variable self.now) }
        ensures there { IfOk result (λ _. exists variable self.now.frame ≡ true) }
    {
        if variable >= 16 {
            return Ok(self.global(story, variable));
        }
        match self.frames.locals().get(usize::from(variable) - 1) {
            Some(word) => Ok(*word),
            None => Err(Halt::Fault(Fault::AbsentLocal)),
        }
    }

    /// A variable's value, where so many words were taken off the stack before, and how many are taken with it.
    #[inline(always)]
    #[tactic(auto, unfolding(crate::specs::State::read_variable), using(crate::proofs::Reading::reading))]
    fn read_variable(
        &self,
        story: &Story,
        variable: u8,
        before: usize,
    ) -> Result<(u16, usize), Halt>
        requires memory { length self.now.memory ≡ length story.now.memory }
        requires within { before ≤ length self.now.frame.stack }
        ensures value { Gives (λ x. (x.0, popped x.1 self.now)) result (read_variable story.now variable (popped before self.now)) }
        ensures within { IfOk result (λ x. x.1 ≤ length self.now.frame.stack) }
    {
        if variable == 0 {
            if before == self.frames.height() {
                return Err(Halt::Fault(Fault::StackUnderflow));
            }
            Ok((self.frames.slot(before), before + 1))
        } else {
            Ok((self.read_named(story, variable)?, before))
        }
    }

    #[inline(always)]
    #[tactic(auto, unfolding(crate::specs::State::read_operand))]
    fn read_operand(
        &self,
        story: &Story,
        operand: Operand,
        before: usize,
    ) -> Result<(u16, usize), Halt>
        requires memory { length self.now.memory ≡ length story.now.memory }
        requires within { before ≤ length self.now.frame.stack }
        ensures value { Gives (λ x. (x.0, popped x.1 self.now)) result (read_operand story.now operand (popped before self.now)) }
        ensures within { IfOk result (λ x. x.1 ≤ length self.now.frame.stack) }
    {
        match operand {
            Operand::Constant(word) => Ok((word, before)),
            Operand::Variable(variable) => self.read_variable(story, variable, before),
        }
    }

    /// The value of a single operand, and how many words its reading takes off the stack.
    #[inline(always)]
    #[tactic(auto, unfolding(crate::specs::InTurn::in_turn))]
    pub fn read_one(&self, story: &Story, operand: Operand) -> Result<(u16, usize), Halt>
        requires { length self.now.memory ≡ length story.now.memory }
        ensures value { Gives (λ x. (x.0 ∷ [], popped x.1 self.now)) result (read_operands story.now (operand ∷ []) self.now) }
        ensures within { IfOk result (λ x. x.1 ≤ length self.now.frame.stack) }
    {
        let (word, popped) = self.read_operand(story, operand, 0)?;
        Ok((word, popped))
    }

    /// The values of two operands, the first of which is read first, and how many words their reading takes off the stack.
    #[inline(always)]
    #[tactic(auto, unfolding(crate::specs::InTurn::in_turn))]
    pub fn read_two(
        &self,
        story: &Story,
        first: Operand,
        second: Operand,
    ) -> Result<(u16, u16, usize), Halt>
        requires { length self.now.memory ≡ length story.now.memory }
        ensures value { Gives (λ x. (x.0 ∷ x.1 ∷ [], popped x.2 self.now)) result (read_operands story.now (first ∷ second ∷ []) self.now) }
        ensures within { IfOk result (λ x. x.2 ≤ length self.now.frame.stack) }
    {
        let (left, before) = self.read_operand(story, first, 0)?;
        let (right, popped) = self.read_operand(story, second, before)?;
        Ok((left, right, popped))
    }

    /// The values of three operands, read from left to right, and how many words their reading takes off the stack.
    #[inline(always)]
    #[tactic(auto, unfolding(crate::specs::InTurn::in_turn))]
    pub fn read_three(
        &self,
        story: &Story,
        first: Operand,
        second: Operand,
        third: Operand,
    ) -> Result<(u16, u16, u16, usize), Halt>
        requires { length self.now.memory ≡ length story.now.memory }
        ensures value { Gives (λ x. (x.0 ∷ x.1 ∷ x.2 ∷ [], popped x.3 self.now)) result (read_operands story.now (first ∷ second ∷ third ∷ []) self.now) }
        ensures within { IfOk result (λ x. x.3 ≤ length self.now.frame.stack) }
    {
        let (left, before) = self.read_operand(story, first, 0)?;
        let (middle, between) = self.read_operand(story, second, before)?;
        let (right, popped) = self.read_operand(story, third, between)?;
        Ok((left, middle, right, popped))
    }

    /// The values of an instruction's operands, read from left to right (Z 4.2).
    #[inline(always)]
    pub fn read_operands(&self, story: &Story, operands: &[Operand]) -> Result<Values, Halt>
        requires memory { length self.now.memory ≡ length story.now.memory }
        requires few { length operands.now ≤ 4 }
        ensures value { Gives (λ v. (v.words.items, popped v.popped self.now)) result (read_operands story.now operands.now self.now) }
        ensures within { IfOk result (λ v. v.popped ≤ length self.now.frame.stack) }
    {
        let mut words = ArrayVec::new();
        let mut popped = 0;
        for operand in operands {
            let (word, after) = self.read_operand(story, *operand, popped)?;
            words.push(word);
            popped = after;
        }
        Ok(Values { words, popped })
    }

    /// The value of the variable of a number, where so many words were taken off the stack before. The top of the stack is
    /// read in place (Z 6.3.4).
    #[inline(always)]
    #[tactic(auto, unfolding(crate::specs::State::read_in_place), using(crate::proofs::Reading::reading, crate::proofs::Reading::existing))]
    pub fn read_in_place(&self, story: &Story, number: u16, before: usize) -> Result<u16, Halt>
        requires memory { length self.now.memory ≡ length story.now.memory }
        requires within { before ≤ length self.now.frame.stack }
        ensures value { Gives (λ x. x) result (read_in_place story.now number (popped before self.now)) }
        ensures named { IfOk result (λ _. number < 256) }
        ensures there { IfOk result (λ _. exists number self.now.frame ≡ true) }
        ensures filled { IfOk result (λ _. number ≡ 0 → before < length self.now.frame.stack) }
    {
        if number >= 256 {
            return Err(Halt::Fault(Fault::BadVariable));
        }
        if number == 0 {
            if before == self.frames.height() {
                return Err(Halt::Fault(Fault::StackUnderflow));
            }
            return Ok(self.frames.slot(before));
        }
        self.read_named(story, number as u8)
    }

    /// Writes a global.
    #[inline(always)]
    fn set_global(&mut self, story: &Story, variable: u8, word: u16)
        requires memory { length self.old.memory ≡ length story.now.memory }
        requires named { 16 ≤ variable }
        ensures { self.new ≡ with_memory (write_word self.old.memory (global story.now variable) word) self.old }
    {
        let memory = self.memory.as_mut_slice();
        let at = story.globals() + 2 * (usize::from(variable) - 16);
        memory[at] = (word >> 8) as u8;
        memory[at + 1] = (word & 0xff) as u8;
    }

    /// Writes a local that is there, or a global.
    #[inline(always)]
    #[tactic(auto, unfolding(crate::specs::State::put_named))]
    pub fn put_named(&mut self, story: &Story, variable: u8, word: u16)
        requires memory { length self.old.memory ≡ length story.now.memory }
        requires named { 0 < variable }
        requires there { exists variable self.old.frame ≡ true }
        ensures { self.new ≡ put_named story.now variable word self.old }
    {
        if variable < 16 {
            self.frames.set_local(usize::from(variable) - 1, word);
        } else {
            self.set_global(story, variable, word);
        }
    }

    /// Writes a variable that is there; the top of the stack is written in place (Z 6.3.4).
    #[inline(always)]
    #[tactic(auto, unfolding(crate::specs::State::put_in_place))]
    pub fn put_in_place(&mut self, story: &Story, variable: u8, word: u16)
        requires memory { length self.old.memory ≡ length story.now.memory }
        requires there { exists variable self.old.frame ≡ true }
        requires filled { variable ≡ 0 → 0 < length self.old.frame.stack }
        ensures { self.new ≡ put_in_place story.now variable word self.old }
    {
        if variable == 0 {
            self.frames.set_top(word);
        } else {
            self.put_named(story, variable, word);
        }
    }

    /// Takes so many words off the stack, and puts one into a variable that is there. The stack is pushed. Memory is wanted
    /// only where it gets longer; an error changes nothing.
    #[inline(always)]
    #[tactic(auto, unfolding(crate::specs::State::put))]
    pub fn put(
        &mut self,
        story: &Story,
        variable: u8,
        count: usize,
        word: u16,
    ) -> Result<(), AllocError>
        requires memory { length self.old.memory ≡ length story.now.memory }
        requires within { count ≤ length self.old.frame.stack }
        requires there { exists variable self.old.frame ≡ true }
        ensures ok { OnOk result (self.new ≡ put story.now variable word (popped count self.old)) }
        ensures err { OnErr result (self.new ≡ self.old) }
        ensures wants { OnErr result ((variable ≡ 0) × (count ≡ 0)) }
    {
        if variable == 0 {
            self.frames.exchange(count, word)?;
            return Ok(());
        }
        self.pop(count);
        self.put_named(story, variable, word);
        Ok(())
    }

    /// Takes so many words off the stack, and begins the routine whose head lies at a place, with these arguments (Z 6.4): its
    /// frame is the newest, of which a variable takes the result, and a return from it goes on behind an instruction of so many
    /// bytes. Want of memory is the only error, and changes nothing.
    #[inline(always)]
    pub fn enter(
        &mut self,
        routine: usize,
        arguments: &[u16],
        variable: u8,
        taken: usize,
        bytes: usize,
    ) -> Result<(), AllocError>
        requires head { has_head self.old.memory routine ≡ true }
        requires short { length self.old.memory ≤ 131072 }
        requires few { length arguments.now ≤ 3 }
        requires near { IsNear self.old.place }
        requires small { bytes ≤ 1000000 }
        requires within { taken ≤ length self.old.frame.stack }
        ensures ok { OnOk result (self.new ≡ entered (called_at self.old.memory routine arguments.now) variable (at_place (self.old.place +ℤ pos bytes) (popped taken self.old))) }
        ensures err { OnErr result (self.new ≡ self.old) }
    {
        let memory = self.memory.as_slice();
        let behind = self.place as usize + bytes;
        let begin = routine + 1 + 2 * usize::from(memory[routine]);
        self.frames
            .enter(memory, routine, arguments, behind as u32, variable, taken)?;
        self.place = begin as i32;
        Ok(())
    }

    /// Leaves the newest frame: its caller is the newest, and goes on where the frame says (Z 6.4.5).
    #[inline(always)]
    pub fn leave(&mut self)
        requires called { 0 < length self.old.callers }
        requires reached { self.old.frame.return_place < 2 ^ 24 }
        ensures { (g : FrameValue) (gs : List FrameValue) → self.old.callers ≡ g ∷ gs → self.new ≡ record self.old { frame = g; callers = gs; place = pos self.old.frame.return_place } }
    {
        self.place = self.frames.return_place() as i32;
        self.frames.leave();
    }

    /// Leaves the newest frame, and puts a word on the stack of its caller.
    #[inline(always)]
    pub fn leave_with(&mut self, word: u16)
        requires called { 0 < length self.old.callers }
        requires reached { self.old.frame.return_place < 2 ^ 24 }
        ensures { (g : FrameValue) (gs : List FrameValue) → self.old.callers ≡ g ∷ gs → self.new ≡ record self.old { frame = record g { stack = word ∷ g.stack }; callers = gs; place = pos self.old.frame.return_place } }
    {
        let place = self.frames.return_place();
        self.frames.leave_with(word);
        self.place = place as i32;
    }
}
