//! Where a text goes that may have frames.

ghost use Rattle.std.specs.Prelude.{◌≡◌, ◌<◌, ◌≤◌, IfOk, OnErr, length, option_copied, take, false, OnOk};
ghost use Rattle.std.specs.Io.KnownBytes.{Keeps, WriteAppends};
ghost use Rattle.std.specs.Option.{option_map};
ghost use Rattle.zfault.specs.Devices.{CountsFailure, HandsOn, LetsWait};
ghost use Rattle.zfront.specs.FramedSinks.{LeavesAllHere, LeavesHere, below_name, below_of, frame_here, known_bytes, waits_of};
ghost use Rattle.zfront.specs.Frames.{no_frame};

use crate::frames::Frames;
use crate::heading::Heading;
use zfault::{Failed, Sink};

/// A sink that hands a text on as it is, or without its frames.
#[derive(Drop)]
pub enum Unframed<'a, 'h, W> {
    /// Text goes to this sink as it is.
    Plain(&'a mut W),
    /// Frames are taken out.
    Framed(Frames<'a, 'h, W>),
}

impl<'a, 'h, W> Unframed<'a, 'h, W> {
    /// A sink over this one, outside frames. With no heading no frames are expected, and all goes on as it is.
    pub fn new(below: &'a mut W, heading: Option<&'h Heading>) -> Unframed<'a, 'h, W>
        ensures reference { below_name result ≡ below.entry.ghost_name }
        ensures below { below_of result ≡ below.old }
        ensures frame { frame_here result ≡ option_map (λ _. no_frame) (option_copied heading.entry) }
    {
        match heading {
            None => Unframed::Plain(below),
            Some(heading) => Unframed::Framed(Frames::new(below, heading)),
        }
    }
}

impl<W: Sink> Sink for Unframed<'_, '_, W> {
    ghost contents = { λ unframed. known_bytes (frame_here unframed) (W.contents (below_of unframed)) };

    ghost failures = { λ unframed. W.failures (below_of unframed) };

    ghost waits = { λ unframed. waits_of W.waits unframed };

    /// Writes a piece as it is, or a beginning of it without its frames.
    fn write(&mut self, piece: &[u8]) -> Result<usize, Failed>
        ensures bound { IfOk result (λ count. count ≤ length piece.now) }
        ensures takes { IfOk result (λ count. 0 < length piece.now → 0 < count) }
        ensures bytes { WriteAppends (known_bytes (frame_here self.old) (W.contents (below_of self.old))) (known_bytes (frame_here self.new) (W.contents (below_of self.new))) result piece.now }
        ensures waiting { LetsWait (waits_of W.waits self.old) (waits_of W.waits self.new) result piece.now }
        ensures counts { CountsFailure (W.failures (below_of self.old)) (W.failures (below_of self.new)) result }
        ensures reference { below_name self.new ≡ below_name self.old }
        ensures ok { IfOk result (λ count. LeavesHere (W.contents (below_of self.old)) (W.contents (below_of self.new)) (frame_here self.old) (frame_here self.new) (take count piece.now)) }
        ensures err { OnErr result (LeavesAllHere (W.contents (below_of self.old)) (W.contents (below_of self.new)) (frame_here self.old) (frame_here self.new)) }
    {
        match self {
            Unframed::Plain(below) => below.write(piece),
            Unframed::Framed(frames) => frames.write(piece),
        }
    }

    fn flush(&mut self) -> Result<(), Failed>
        ensures bytes { Keeps (known_bytes (frame_here self.old) (W.contents (below_of self.old))) (known_bytes (frame_here self.new) (W.contents (below_of self.new))) }
        ensures through { HandsOn (waits_of W.waits self.old) (waits_of W.waits self.new) result }
        ensures handed { OnOk result (W.waits (below_of self.new) ≡ false) }
        ensures counts { CountsFailure (W.failures (below_of self.old)) (W.failures (below_of self.new)) result }
        ensures reference { below_name self.new ≡ below_name self.old }
        ensures kept { LeavesAllHere (W.contents (below_of self.old)) (W.contents (below_of self.new)) (frame_here self.old) (frame_here self.new) }
    {
        match self {
            Unframed::Plain(below) => below.flush(),
            Unframed::Framed(frames) => frames.flush(),
        }
    }
}
