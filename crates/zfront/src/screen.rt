//! Where the text of a play is shown.

ghost use Rattle.std.specs.Prelude.{◌≡◌, ◌<◌, ◌≤◌, IfOk, OnErr, IsOk, length, take};
ghost use Rattle.std.specs.Io.KnownBytes.{Keeps, WriteAppends};
ghost use Rattle.zfault.specs.Devices.{CountsFailure, HandsOn, LetsWait};
ghost use Rattle.zfront.specs.Screens.{EndsHere, GivesSomeHere, PassesHere, begins_with, below_name, below_of, known_bytes, owed_of, waits_here};

use crate::turns::Turns;
use std::alloc::{AllocError, Global};
use zfault::{Failed, Sink};

/// A sink that shows text as it is, or wraps it turn by turn.
#[derive(Drop)]
pub enum Screen<'a, W> {
    /// Text goes to this sink as it is.
    Plain(&'a mut W),
    /// Text is wrapped first.
    Wrapped(Turns<'a, W>),
}

impl<'a, W> Screen<'a, W> {
    /// A screen of this width over a sink, which stands at the beginning of a line. With no width, or at width 0, nothing is wrapped, and no memory
    /// is taken. Want of memory is the only error.
    pub fn new(
        alloc: Global,
        below: &'a mut W,
        width: Option<u16>,
    ) -> Result<Screen<'a, W>, AllocError>
        ensures reference { IfOk result (λ screen. below_name screen ≡ below.entry.ghost_name) }
        ensures below { IfOk result (λ screen. below_of screen ≡ below.old) }
        ensures owed { IfOk result (λ screen. owed_of screen ≡ begins_with width) }
        ensures plain { begins_with width ≡ None → IsOk result }
    {
        match width {
            None | Some(0) => Ok(Screen::Plain(below)),
            Some(width) => Ok(Screen::Wrapped(Turns::new(alloc, below, width)?)),
        }
    }
}

impl<W: Sink> Sink for Screen<'_, W> {
    ghost contents = { λ screen. known_bytes (owed_of screen) (W.contents (below_of screen)) };

    ghost failures = { λ screen. W.failures (below_of screen) };

    ghost waits = { λ screen. waits_here (owed_of screen) (W.waits (below_of screen)) };

    /// Writes a piece as it is, or takes it to be wrapped.
    fn write(&mut self, piece: &[u8]) -> Result<usize, Failed>
        ensures bound { IfOk result (λ count. count ≤ length piece.now) }
        ensures takes { IfOk result (λ count. 0 < length piece.now → 0 < count) }
        ensures bytes { WriteAppends (known_bytes (owed_of self.old) (W.contents (below_of self.old))) (known_bytes (owed_of self.new) (W.contents (below_of self.new))) result piece.now }
        ensures waiting { LetsWait (waits_here (owed_of self.old) (W.waits (below_of self.old))) (waits_here (owed_of self.new) (W.waits (below_of self.new))) result piece.now }
        ensures counts { CountsFailure (W.failures (below_of self.old)) (W.failures (below_of self.new)) result }
        ensures reference { below_name self.new ≡ below_name self.old }
        ensures ok { IfOk result (λ count. 0 < length piece.now → PassesHere (W.contents (below_of self.old)) (W.contents (below_of self.new)) (owed_of self.old) (owed_of self.new) (take count piece.now)) }
        ensures err { OnErr result (GivesSomeHere (W.contents (below_of self.old)) (W.contents (below_of self.new)) (owed_of self.old) (owed_of self.new)) }
    {
        match self {
            Screen::Plain(below) => below.write(piece),
            Screen::Wrapped(turns) => turns.write(piece),
        }
    }

    /// Hands on what was taken, and ends the turn where text is wrapped.
    fn flush(&mut self) -> Result<(), Failed>
        ensures bytes { Keeps (known_bytes (owed_of self.old) (W.contents (below_of self.old))) (known_bytes (owed_of self.new) (W.contents (below_of self.new))) }
        ensures through { HandsOn (waits_here (owed_of self.old) (W.waits (below_of self.old))) (waits_here (owed_of self.new) (W.waits (below_of self.new))) result }
        ensures counts { CountsFailure (W.failures (below_of self.old)) (W.failures (below_of self.new)) result }
        ensures reference { below_name self.new ≡ below_name self.old }
        ensures ends { EndsHere (W.contents (below_of self.old)) (W.contents (below_of self.new)) (owed_of self.old) (owed_of self.new) result }
    {
        match self {
            Screen::Plain(below) => below.flush(),
            Screen::Wrapped(turns) => turns.flush(),
        }
    }
}
