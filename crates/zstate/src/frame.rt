//! Frames of routines, lent.

ghost use Rattle.std.specs.Prelude.{◌≡◌, ◌≤◌, drop, length, reverse};
ghost use Rattle.zstate.specs.State.{exists, has_room};

use std::marker::Model;

/// The most words that lie on the stack of a frame (own).
const MAX_HEIGHT: usize = 65_535;

/// A frame, lent: what a routine keeps while it runs (Z 6.3.3, 6.4). Contracts see its stack with the top first.
#[derive(Drop)]
pub struct Frame<'a> {
    pub(crate) return_place: u32,
    pub(crate) result: u8,
    pub(crate) supplied: u8,
    pub(crate) locals: &'a [u16],
    pub(crate) stack: &'a [u16],
}

impl<'a> Model for Frame<'a> {
    ghost use Rattle.std.specs.Prelude.{reverse};
    ghost use Rattle.zstate.specs.State.{Frame as FrameValue};

    ghost Value = { FrameValue };

    ghost view = { λ f. record { return_place = f.return_place; result = f.result; supplied = f.supplied; locals = f.locals.now; stack = reverse f.stack.now } };
}

impl<'a> Frame<'a> {
    /// Where a return from this frame goes on.
    pub fn return_place(&self) -> u32
        ensures { result ≡ self.now.return_place }
    {
        self.return_place
    }

    /// The number of the variable that takes this frame's result.
    #[inline(always)]
    pub fn result(&self) -> u8
        ensures { result ≡ self.now.result }
    {
        self.result
    }

    /// How many arguments the call supplied, 0 to 3.
    pub fn supplied(&self) -> u8
        ensures { result ≡ self.now.supplied }
    {
        self.supplied
    }

    /// The locals, the first one first.
    pub fn locals(&self) -> &[u16]
        ensures { result.now ≡ self.now.locals }
    {
        self.locals
    }

    /// The stack, its bottom first.
    pub fn stack(&self) -> &[u16]
        ensures { self.now.stack ≡ reverse result.now }
    {
        self.stack
    }

    /// How many words lie on the stack.
    pub fn height(&self) -> usize
        ensures { result ≡ length self.now.stack }
    {
        self.stack.len()
    }

    /// Whether it has a variable: the stack and each global are there, and a local below its count (Z 4.2.2).
    #[inline(always)]
    pub fn has(&self, variable: u8) -> bool
        ensures { result ≡ exists variable self.now }
    {
        variable == 0 || usize::from(variable) <= self.locals.len() || variable >= 16
    }

    /// Whether a variable takes one word more, where so many were taken off the stack before: the stack takes no more than
    /// 65,535 words (own).
    #[inline(always)]
    pub fn has_room(&self, variable: u8, before: usize) -> bool
        requires { before ≤ length self.now.stack }
        ensures { result ≡ has_room variable (record self.now { stack = drop before self.now.stack }) }
    {
        variable != 0 || self.stack.len() - before < MAX_HEIGHT
    }
}
