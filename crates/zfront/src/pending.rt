//! What a sink that wraps has taken and hasn't given out.

ghost use Rattle.std.specs.Prelude.{◌≡◌, ◌≢◌, ◌++◌, [], IfOk, OnErr, OnOk, length, min, take};
ghost use Rattle.zfault.specs.Devices.{RisesByOne};
ghost use Rattle.zfront.specs.Owed.{GivesOut, at_beginning, nothing_owed};
ghost use Rattle.zfront.specs.Wrapping.{FeedsTo, settled};

use crate::giving::write_some;
use crate::wrapper::Wrapper;
use std::alloc::{AllocError, Global};
use std::marker::Model;
use zfault::{Failed, Sink};

/// The most bytes that are taken at a time.
const PIECE: usize = 1024;

/// What is decided of a text, and behind it what is held.
#[derive(Drop)]
pub(crate) struct Pending {
    wrapper: Wrapper,
    /// At most a piece and what was held, for which room is made once.
    decided: Vec<u8>,
    /// How many of the decided bytes were given out.
    given: usize,
}

impl Model for Pending {
    ghost use Rattle.std.specs.Prelude.{drop};
    ghost use Rattle.std.specs.Vec.{vec_capacity};
    ghost use Rattle.zfront.specs.Owed.{IsPending, Owed};

    ghost Value = { Owed };

    ghost view = { λ p. record { decided = drop p.given p.decided.items; wrapping = p.wrapper } };

    ghost invariant = { λ p. IsPending p.decided.items p.given p.wrapper (vec_capacity p.decided) };
}

impl Pending {
    /// Nothing, at the beginning of a line. Want of memory is the only error.
    pub(crate) fn new(alloc: Global, width: u16) -> Result<Pending, AllocError>
        ensures { IfOk result (λ pending. pending ≡ nothing_owed width) }
    {
        Ok(Pending {
            wrapper: Wrapper::new(alloc, width)?,
            decided: Vec::with_capacity(alloc, PIECE + usize::from(width))?,
            given: 0,
        })
    }

    /// Takes a beginning of a piece, where nothing decided is left.
    pub(crate) fn take(&mut self, piece: &[u8]) -> usize
        requires { self.old.decided ≡ [] }
        ensures count { result ≡ min (length piece.now) 1024 }
        ensures taken { FeedsTo self.old.wrapping self.new.wrapping (take result piece.now) [] self.new.decided }
    {
        self.decided.clear();
        self.given = 0;
        let count = piece.len().min(PIECE);
        if self
            .wrapper
            .feed(&piece[..count], &mut self.decided)
            .is_err()
        {
            unreachable!()
        }
        count
    }

    /// Decides on what is held: nothing more is to come before it is seen.
    pub(crate) fn finish(&mut self)
        ensures decided { self.new.decided ≡ self.old.decided ++ self.old.wrapping.held }
        ensures settled { self.new.wrapping ≡ settled self.old.wrapping }
    {
        if self.wrapper.finish(&mut self.decided).is_err() {
            unreachable!()
        }
    }

    /// Gives out what is decided, until a write fails.
    pub(crate) fn give<W: Sink>(&mut self, sink: &mut W) -> Result<(), Failed>
        ensures given { GivesOut (W.contents sink.old) (W.contents sink.new) (W.waits sink.old) (W.waits sink.new) self.old.decided self.new.decided }
        ensures wrapping { self.new.wrapping ≡ self.old.wrapping }
        ensures ok { OnOk result (self.new.decided ≡ []) }
        ensures err { OnErr result (self.new.decided ≢ []) }
        ensures quiet { OnOk result (W.failures sink.new ≡ W.failures sink.old) }
        ensures blamed { OnErr result (RisesByOne (W.failures sink.old) (W.failures sink.new)) }
    {
        let left = self.decided.len() - self.given;
        let count = write_some(sink, &self.decided[self.given..]);
        self.given += count;
        if count < left {
            return Err(Failed);
        }
        Ok(())
    }

    /// What comes is at the beginning of a line.
    pub(crate) fn line_was_read(&mut self)
        ensures { self.new ≡ at_beginning self.old }
    {
        self.wrapper.line_was_read();
    }
}
