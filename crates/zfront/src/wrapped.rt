//! A sink that wraps what is written to it.

ghost use Rattle.std.specs.Prelude.{◌≡◌, ◌<◌, ◌≤◌, [], IfOk, None, OnErr, OnOk, length, take};
ghost use Rattle.std.specs.Io.KnownBytes.{Keeps, WriteAppends};
ghost use Rattle.zfault.specs.Devices.{CountsFailure, HandsOn, LetsWait, waits_after};
ghost use Rattle.zfront.specs.Owed.{Finishes, GivesSome, Passes, at_beginning, bytes_owed, nothing_owed};
ghost use Rattle.zfront.specs.WrappedSinks.{below_of, owed_of};

use crate::pending::Pending;
use std::alloc::{AllocError, Global};
use zfault::{Failed, Sink};

/// A sink over another one, which gets what is written as it is wrapped. What it takes waits for the next write or flush: a write takes
/// nothing where it fails, so what was decided before is given out first.
///
/// A failure of the sink below is one of its own, and counts there.
#[derive(Drop)]
pub struct Wrapped<'a, W> {
    below: &'a mut W,
    pending: Pending,
}

impl<'a, W> Wrapped<'a, W> {
    /// A sink over this one, which stands at the beginning of a line. At width 0 nothing is wrapped. Want of memory is the only error.
    pub fn new(alloc: Global, below: &'a mut W, width: u16) -> Result<Wrapped<'a, W>, AllocError>
        ensures reference { IfOk result (λ sink. sink.below.ghost_name ≡ below.entry.ghost_name) }
        ensures below { IfOk result (λ sink. below_of sink ≡ below.old) }
        ensures owed { IfOk result (λ sink. owed_of sink ≡ nothing_owed width) }
    {
        let pending = Pending::new(alloc, width)?;
        Ok(Wrapped { below, pending })
    }

    /// The player ended a line: what comes is at the beginning of one.
    pub fn line_was_read(&mut self)
        ensures reference { self.new.below.ghost_name ≡ self.old.below.ghost_name }
        ensures below { below_of self.new ≡ below_of self.old }
        ensures owed { owed_of self.new ≡ at_beginning (owed_of self.old) }
    {
        self.pending.line_was_read();
    }
}

impl<W: Sink> Sink for Wrapped<'_, W> {
    ghost failures = { λ sink. W.failures (below_of sink) };

    ghost waits = { λ sink. waits_after (W.waits (below_of sink)) (bytes_owed (owed_of sink)) };

    /// Gives out what is decided, and takes a beginning of the piece.
    #[tactic(auto, using(crate::proofs::Sinking::passes, crate::proofs::Sinking::gives_some, crate::proofs::Sinking::waits_taken, crate::proofs::Sinking::waits_failed))]
    fn write(&mut self, piece: &[u8]) -> Result<usize, Failed>
        ensures bound { IfOk result (λ count. count ≤ length piece.now) }
        ensures takes { IfOk result (λ count. 0 < length piece.now → 0 < count) }
        ensures bytes { WriteAppends None None result piece.now }
        ensures waiting { LetsWait (waits_after (W.waits (below_of self.old)) (bytes_owed (owed_of self.old))) (waits_after (W.waits (below_of self.new)) (bytes_owed (owed_of self.new))) result piece.now }
        ensures counts { CountsFailure (W.failures (below_of self.old)) (W.failures (below_of self.new)) result }
        ensures reference { self.new.below.ghost_name ≡ self.old.below.ghost_name }
        ensures ok { IfOk result (λ count. 0 < length piece.now → Passes (W.contents (below_of self.old)) (W.contents (below_of self.new)) (owed_of self.old) (owed_of self.new) (take count piece.now)) }
        ensures err { OnErr result (GivesSome (W.contents (below_of self.old)) (W.contents (below_of self.new)) (owed_of self.old) (owed_of self.new)) }
        ensures none { length piece.now ≡ 0 → self.new ≡ self.old }
    {
        if piece.is_empty() {
            return Ok(0);
        }
        self.pending.give(&mut *self.below)?;
        Ok(self.pending.take(piece))
    }

    /// Gives out all that was taken, and hands it on.
    #[tactic(auto, using(crate::proofs::Sinking::finishes, crate::proofs::Sinking::finishes_kept, crate::proofs::Sinking::waits_given, crate::proofs::Sinking::waits_left))]
    fn flush(&mut self) -> Result<(), Failed>
        ensures bytes { Keeps None None }
        ensures through { HandsOn (waits_after (W.waits (below_of self.old)) (bytes_owed (owed_of self.old))) (waits_after (W.waits (below_of self.new)) (bytes_owed (owed_of self.new))) result }
        ensures counts { CountsFailure (W.failures (below_of self.old)) (W.failures (below_of self.new)) result }
        ensures reference { self.new.below.ghost_name ≡ self.old.below.ghost_name }
        ensures finishes { Finishes (W.contents (below_of self.old)) (W.contents (below_of self.new)) (owed_of self.old) (owed_of self.new) }
        ensures ok { OnOk result (bytes_owed (owed_of self.new) ≡ []) }
    {
        self.pending.finish();
        self.pending.give(&mut *self.below)?;
        self.below.flush()
    }
}
