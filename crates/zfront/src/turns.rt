//! A sink that wraps the text of each turn.

ghost use Rattle.std.specs.Prelude.{◌≡◌, ◌<◌, ◌≤◌, IfOk, None, OnErr, length, take};
ghost use Rattle.std.specs.Io.KnownBytes.{Keeps, WriteAppends};
ghost use Rattle.zfault.specs.Devices.{CountsFailure, HandsOn, LetsWait, waits_after};
ghost use Rattle.zfront.specs.Owed.{GivesSome, Passes, bytes_owed, nothing_owed};
ghost use Rattle.zfront.specs.Turns.{Ends, below_of, owed_of};

use crate::wrapped::Wrapped;
use std::alloc::{AllocError, Global};
use zfault::{Failed, Sink};

/// A sink over another one, which gets what is written as it is wrapped. A turn is what is written up to a flush, behind which the player ends a
/// line: so the next turn stands at the beginning of one.
#[derive(Drop)]
pub struct Turns<'a, W> {
    text: Wrapped<'a, W>,
}

impl<'a, W> Turns<'a, W> {
    /// A sink over this one, which stands at the beginning of a line. At width 0 nothing is wrapped. Want of memory is the only error.
    pub fn new(alloc: Global, below: &'a mut W, width: u16) -> Result<Turns<'a, W>, AllocError>
        ensures reference { IfOk result (λ turns. turns.text.below.ghost_name ≡ below.entry.ghost_name) }
        ensures below { IfOk result (λ turns. below_of turns ≡ below.old) }
        ensures owed { IfOk result (λ turns. owed_of turns ≡ nothing_owed width) }
    {
        let text = Wrapped::new(alloc, below, width)?;
        Ok(Turns { text })
    }
}

impl<W: Sink> Sink for Turns<'_, W> {
    ghost failures = { λ turns. W.failures (below_of turns) };

    ghost waits = { λ turns. waits_after (W.waits (below_of turns)) (bytes_owed (owed_of turns)) };

    /// Gives out what is decided, and takes a beginning of the piece.
    fn write(&mut self, piece: &[u8]) -> Result<usize, Failed>
        ensures bound { IfOk result (λ count. count ≤ length piece.now) }
        ensures takes { IfOk result (λ count. 0 < length piece.now → 0 < count) }
        ensures bytes { WriteAppends None None result piece.now }
        ensures waiting { LetsWait (waits_after (W.waits (below_of self.old)) (bytes_owed (owed_of self.old))) (waits_after (W.waits (below_of self.new)) (bytes_owed (owed_of self.new))) result piece.now }
        ensures counts { CountsFailure (W.failures (below_of self.old)) (W.failures (below_of self.new)) result }
        ensures reference { self.new.text.below.ghost_name ≡ self.old.text.below.ghost_name }
        ensures ok { IfOk result (λ count. 0 < length piece.now → Passes (W.contents (below_of self.old)) (W.contents (below_of self.new)) (owed_of self.old) (owed_of self.new) (take count piece.now)) }
        ensures err { OnErr result (GivesSome (W.contents (below_of self.old)) (W.contents (below_of self.new)) (owed_of self.old) (owed_of self.new)) }
        ensures none { length piece.now ≡ 0 → self.new ≡ self.old }
    {
        self.text.write(piece)
    }

    /// Gives out all that was taken, hands it on, and ends the turn.
    fn flush(&mut self) -> Result<(), Failed>
        ensures bytes { Keeps None None }
        ensures through { HandsOn (waits_after (W.waits (below_of self.old)) (bytes_owed (owed_of self.old))) (waits_after (W.waits (below_of self.new)) (bytes_owed (owed_of self.new))) result }
        ensures counts { CountsFailure (W.failures (below_of self.old)) (W.failures (below_of self.new)) result }
        ensures reference { self.new.text.below.ghost_name ≡ self.old.text.below.ghost_name }
        ensures ends { Ends (W.contents (below_of self.old)) (W.contents (below_of self.new)) (owed_of self.old) (owed_of self.new) result }
    {
        self.text.flush()?;
        self.text.line_was_read();
        Ok(())
    }
}
