//! The frames of the routines that run, packed in one list of words.

ghost use Rattle.std.specs.Prelude.{◌≡◌, ◌<◌, ◌≤◌, ◌+◌, ◌++◌, ◌∷◌, [], List, Some, true, drop, length, reverse, slice_get, slice_index, slice_index_or, slice_set, MatchOption, OnOk, OnErr, vec_len, vec_capacity};
ghost use Rattle.zstate.specs.State.{Frame as FrameValue, first_frame, has_head};
ghost use Rattle.zstate.specs.Step.{initial, laid_over};
ghost use Rattle.zstate.specs.Packed.{frame_of, with_top};

use crate::calling::local_at;
use crate::frame::Frame;
use crate::head::Head;
use std::alloc::{AllocError, Global};
use std::marker::Model;
use std::mem;

/// The words for which a call takes room: at most 15 locals (Z 5.2), and one between it and its caller.
pub(crate) const ROOM: usize = 16;

/// The head of the frame that nothing called.
const FIRST: Head = Head {
    base: 0,
    return_place: 0,
    result: 0,
    supplied: 0,
    count: 0,
};

/// The frames, of which there is always one. Contracts see the newest apart from its callers, newest first.
///
/// A call takes memory only where there were never so many words, or frames, before.
#[derive(Drop)]
pub(crate) struct Frames {
    /// The locals and the stack of each frame, the oldest first. A word lies between two frames, in the place of which the
    /// result of the newer one can be pushed.
    pub(crate) words: Vec<u16>,
    pub(crate) newest: Head,
    pub(crate) callers: Vec<Head>,
}

impl Model for Frames {
    ghost use Rattle.std.specs.Prelude.{reverse};
    ghost use Rattle.zstate.specs.Packed.{ArePacked, Chain, chain_of};

    ghost Value = { Chain };

    ghost view = { λ f. chain_of f.newest (reverse f.callers.items) f.words.items };

    ghost invariant = { λ f. ArePacked f.newest (reverse f.callers.items) f.words.items };
}

impl Frames {
    /// The frame that a story opens with, which nothing called.
    pub(crate) fn first(alloc: Global) -> Frames
        ensures { result ≡ record { newest = first_frame; callers = [] } }
    {
        Frames {
            words: Vec::new(alloc),
            newest: FIRST,
            callers: Vec::new(alloc),
        }
    }

    /// The frame that a story opens with is the only one again.
    pub(crate) fn reset(&mut self)
        ensures { self.new ≡ record { newest = first_frame; callers = [] } }
    {
        self.words.clear();
        self.callers.clear();
        self.newest = FIRST;
    }

    /// The newest frame.
    #[inline(always)]
    pub(crate) fn newest(&self) -> Frame<'_>
        ensures { result ≡ self.now.newest }
    {
        lent(self.newest, &self.words[self.newest.base..])
    }

    /// Where a return from the newest frame goes on.
    #[inline(always)]
    pub(crate) fn return_place(&self) -> u32
        ensures { result ≡ self.now.newest.return_place }
    {
        self.newest.return_place
    }

    /// The newest of its callers.
    #[inline(always)]
    pub(crate) fn caller(&self) -> Option<Frame<'_>>
        ensures { MatchOption result (self.now.callers ≡ []) (λ g. (gs : List FrameValue) × (self.now.callers ≡ g ∷ gs)) }
    {
        match self.callers.last() {
            Some(head) => {
                let (below, _) = self.words.split_at(self.newest.base - 1);
                let (_, words) = below.split_at(head.base);
                Some(lent(*head, words))
            }
            None => None,
        }
    }

    /// A frame by its number from the oldest, which is 0.
    pub(crate) fn frame(&self, number: usize) -> Frame<'_>
        requires { number ≤ length self.now.callers }
        ensures { slice_get (reverse (self.now.newest ∷ self.now.callers)) number ≡ Some result }
    {
        match self.callers.get(number) {
            Some(head) => {
                let above = head_above(self.callers.as_slice(), self.newest, number);
                let (below, _) = self.words.split_at(above.base - 1);
                let (_, words) = below.split_at(head.base);
                lent(*head, words)
            }
            None => self.newest(),
        }
    }

    /// How many callers there are.
    #[inline(always)]
    pub(crate) fn depth(&self) -> usize
        ensures { result ≡ length self.now.callers }
    {
        self.callers.len()
    }

    /// The locals of the newest frame, the first one first.
    #[inline(always)]
    pub(crate) fn locals(&self) -> &[u16]
        ensures { result.now ≡ self.now.newest.locals }
    {
        &self.words[self.newest.base..self.newest.base + usize::from(self.newest.count)]
    }

    /// How many words lie on the stack of the newest frame.
    #[inline(always)]
    pub(crate) fn height(&self) -> usize
        ensures { result ≡ length self.now.newest.stack }
    {
        self.words.len() - self.newest.base - usize::from(self.newest.count)
    }

    /// The word with so many above it on the stack of the newest frame.
    #[inline(always)]
    pub(crate) fn slot(&self, above: usize) -> u16
        requires { above < length self.now.newest.stack }
        ensures { result ≡ slice_index self.now.newest.stack above }
    {
        self.words[self.words.len() - 1 - above]
    }

    /// Takes so many words off the stack of the newest frame.
    #[inline(always)]
    pub(crate) fn pop(&mut self, count: usize)
        requires { count ≤ length self.old.newest.stack }
        ensures { self.new ≡ with_top (drop count self.old.newest.stack) self.old }
    {
        if count > 0 {
            self.words.truncate(self.words.len() - count);
        }
    }

    /// Takes so many words off the stack of the newest frame, and puts one on it. Memory is wanted only where none is taken
    /// off; an error changes nothing.
    #[inline(always)]
    pub(crate) fn exchange(&mut self, count: usize, word: u16) -> Result<(), AllocError>
        requires { count ≤ length self.old.newest.stack }
        ensures ok { OnOk result (self.new ≡ with_top (word ∷ drop count self.old.newest.stack) self.old) }
        ensures err { OnErr result (self.new ≡ self.old) }
        ensures wants { OnErr result (count ≡ 0) }
    {
        if count == 0 {
            self.words.push(word)?;
            return Ok(());
        }
        self.words.truncate(self.words.len() - count);
        self.words.push_reserved(word);
        Ok(())
    }

    /// Writes the top of the stack of the newest frame in place.
    #[inline(always)]
    pub(crate) fn set_top(&mut self, word: u16)
        requires { 0 < length self.old.newest.stack }
        ensures { self.new ≡ with_top (slice_set self.old.newest.stack 0 word) self.old }
    {
        self.words.truncate(self.words.len() - 1);
        self.words.push_reserved(word);
    }

    /// Writes a local of the newest frame.
    #[inline(always)]
    pub(crate) fn set_local(&mut self, index: usize, word: u16)
        requires { index < length self.old.newest.locals }
        ensures { self.new ≡ record self.old { newest = record self.old.newest { locals = slice_set self.old.newest.locals index word } } }
    {
        self.words[self.newest.base + index] = word;
    }

    /// Takes so many words off the stack of the newest frame, and begins a routine whose head lies at a place of memory, with
    /// these arguments (Z 6.4). Want of memory is the only error, and changes nothing.
    #[inline(always)]
    pub(crate) fn enter(
        &mut self,
        memory: &[u8],
        routine: usize,
        arguments: &[u16],
        return_place: u32,
        variable: u8,
        taken: usize,
    ) -> Result<(), AllocError>
        requires head { has_head memory.now routine ≡ true }
        requires short { length memory.now ≤ 131072 }
        requires few { length arguments.now ≤ 3 }
        requires within { taken ≤ length self.old.newest.stack }
        ensures ok { OnOk result (self.new ≡ record { newest = record { return_place = return_place; result = variable; supplied = length arguments.now; locals = laid_over arguments.now (initial memory.now routine); stack = [] }; callers = record self.old.newest { stack = drop taken self.old.newest.stack } ∷ self.old.callers }) }
        ensures err { OnErr result (self.new ≡ self.old) }
    {
        self.callers.reserve(1)?;
        self.words.reserve(ROOM)?;
        self.words.truncate(self.words.len() - taken);
        self.words.push_reserved(0);
        let head = Head {
            base: self.words.len(),
            return_place,
            result: variable,
            supplied: arguments.len() as u8,
            count: memory[routine],
        };
        lay(&mut self.words, memory, routine, arguments);
        let caller = mem::replace(&mut self.newest, head);
        self.callers.push_reserved(caller);
        Ok(())
    }

    /// Leaves the newest frame.
    #[inline(always)]
    pub(crate) fn leave(&mut self)
        requires { 0 < length self.old.callers }
        ensures { (g : FrameValue) (gs : List FrameValue) → self.old.callers ≡ g ∷ gs → self.new ≡ record { newest = g; callers = gs } }
    {
        let Some(caller) = self.callers.pop() else {
            unreachable!()
        };
        self.words.truncate(self.newest.base - 1);
        self.newest = caller;
    }

    /// Leaves the newest frame, and puts a word on the stack of its caller.
    #[inline(always)]
    pub(crate) fn leave_with(&mut self, word: u16)
        requires { 0 < length self.old.callers }
        ensures { (g : FrameValue) (gs : List FrameValue) → self.old.callers ≡ g ∷ gs → self.new ≡ record { newest = record g { stack = word ∷ g.stack }; callers = gs } }
    {
        let Some(caller) = self.callers.pop() else {
            unreachable!()
        };
        self.words.truncate(self.newest.base - 1);
        self.words.push_reserved(word);
        self.newest = caller;
    }
}

/// The head of the frame above a caller.
fn head_above(callers: &[Head], newest: Head, number: usize) -> Head
    requires { number < length callers.now }
    ensures { result ≡ slice_index_or callers.now (number + 1) newest }
{
    match callers.get(number + 1) {
        Some(head) => *head,
        None => newest,
    }
}

/// The frame of a head, with its words.
#[inline(always)]
fn lent(head: Head, words: &[u16]) -> Frame<'_>
    requires { head.count ≤ length words.now }
    ensures { result ≡ frame_of head words.now }
{
    let (locals, stack) = words.split_at(usize::from(head.count));
    Frame {
        return_place: head.return_place,
        result: head.result,
        supplied: head.supplied,
        locals,
        stack,
    }
}

/// Puts the words behind that the locals of a routine begin with.
#[inline(always)]
fn lay(words: &mut Vec<u16>, memory: &[u8], routine: usize, arguments: &[u16])
    requires head { has_head memory.now routine ≡ true }
    requires short { length memory.now ≤ 131072 }
    requires room { vec_len words.old + 15 ≤ vec_capacity words.old }
    ensures laid { words.new.items ≡ words.old.items ++ laid_over arguments.now (initial memory.now routine) }
{
    for number in 0..usize::from(memory[routine]) {
        words.push_reserved(local_at(memory, routine, arguments, number));
    }
}
