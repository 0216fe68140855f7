//! Where the program writes, with the source's lines or without.

ghost use Rattle.std.specs.Prelude.{◌≡◌, ◌<◌, ◌≤◌, IfOk, OnErr, length, option_copied, take, OnOk, false};
ghost use Rattle.std.specs.Io.KnownBytes.{Keeps, WriteAppends};
ghost use Rattle.std.specs.Option.{option_map};
ghost use Rattle.zfault.specs.Devices.{CountsFailure, HandsOn, LetsWait};
ghost use Rattle.zfront.specs.Sourced.{known_of};
ghost use Rattle.zfront.specs.SourcedSinks.{FlushesHere, PassesHere, RefusesHere, below_name, below_of, known_bytes, known_to, untold_of, waits_of};
ghost use Rattle.zfront.specs.ToldLines.{nothing_untold};

use crate::told_lines::ToldLines;
use std::alloc::Global;
use zdebug::DebugInfo;
use zfault::{Failed, Sink};

/// A sink that hands lines on as they are, or with what debug information says of the source.
#[derive(Drop)]
pub enum Sourced<'a, 'i, W> {
    /// Lines go to this sink as they are.
    Plain(&'a mut W),
    /// Lines are told first.
    Told(ToldLines<'a, 'i, W>),
}

impl<'a, 'i, W> Sourced<'a, 'i, W> {
    /// A sink over this one, which stands at the beginning of a line. With no debug information all goes on at once as it is. It takes no memory.
    pub fn new(alloc: Global, below: &'a mut W, info: Option<&'i DebugInfo>) -> Sourced<'a, 'i, W>
        ensures reference { below_name result ≡ below.entry.ghost_name }
        ensures below { below_of result ≡ below.old }
        ensures known { known_to result ≡ option_map known_of (option_copied info.entry) }
        ensures untold { untold_of result ≡ nothing_untold }
    {
        match info {
            None => Sourced::Plain(below),
            Some(info) => Sourced::Told(ToldLines::new(alloc, below, info)),
        }
    }
}

impl<W: Sink> Sink for Sourced<'_, '_, W> {
    ghost contents = { λ sink. known_bytes (known_to sink) (W.contents (below_of sink)) };

    ghost failures = { λ sink. W.failures (below_of sink) };

    ghost waits = { λ sink. waits_of W.waits sink };

    /// Writes a piece as it is, or takes the line at its front to be told.
    fn write(&mut self, piece: &[u8]) -> Result<usize, Failed>
        ensures bound { IfOk result (λ count. count ≤ length piece.now) }
        ensures takes { IfOk result (λ count. 0 < length piece.now → 0 < count) }
        ensures bytes { WriteAppends (known_bytes (known_to self.old) (W.contents (below_of self.old))) (known_bytes (known_to self.new) (W.contents (below_of self.new))) result piece.now }
        ensures waiting { LetsWait (waits_of W.waits self.old) (waits_of W.waits self.new) result piece.now }
        ensures counts { CountsFailure (W.failures (below_of self.old)) (W.failures (below_of self.new)) result }
        ensures reference { below_name self.new ≡ below_name self.old }
        ensures known { known_to self.new ≡ known_to self.old }
        ensures ok { IfOk result (λ count. 0 < length piece.now → PassesHere (known_to self.old) (W.contents (below_of self.old)) (W.contents (below_of self.new)) (untold_of self.old) (untold_of self.new) (take count piece.now)) }
        ensures err { OnErr result (RefusesHere (known_to self.old) (W.contents (below_of self.old)) (W.contents (below_of self.new)) (untold_of self.old) (untold_of self.new)) }
    {
        match self {
            Sourced::Plain(below) => below.write(piece),
            Sourced::Told(lines) => lines.write(piece),
        }
    }

    /// Hands on what was taken, what is held of a line too.
    fn flush(&mut self) -> Result<(), Failed>
        ensures bytes { Keeps (known_bytes (known_to self.old) (W.contents (below_of self.old))) (known_bytes (known_to self.new) (W.contents (below_of self.new))) }
        ensures through { HandsOn (waits_of W.waits self.old) (waits_of W.waits self.new) result }
        ensures handed { OnOk result (W.waits (below_of self.new) ≡ false) }
        ensures counts { CountsFailure (W.failures (below_of self.old)) (W.failures (below_of self.new)) result }
        ensures reference { below_name self.new ≡ below_name self.old }
        ensures known { known_to self.new ≡ known_to self.old }
        ensures flushes { FlushesHere (known_to self.old) (W.contents (below_of self.old)) (W.contents (below_of self.new)) (untold_of self.old) (untold_of self.new) result }
    {
        match self {
            Sourced::Plain(below) => below.flush(),
            Sourced::Told(lines) => lines.flush(),
        }
    }
}
