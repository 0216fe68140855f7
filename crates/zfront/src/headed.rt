//! Where a text is shown that may have a line at the top.

ghost use Rattle.std.specs.Prelude.{◌≡◌, ◌<◌, ◌≤◌, IfOk, OnErr, OnOk, length, take, false};
ghost use Rattle.std.specs.Io.KnownBytes.{Keeps, WriteAppends};
ghost use Rattle.zfault.specs.Devices.{CountsFailure, HandsOn, LetsWait};
ghost use Rattle.zfront.specs.HeadedSinks.{ClosesHere, ClosesShortHere, FlushesHere, FlushesShortHere, TopsHere, TopsNoneHere, begins_with, below_name, below_of, known_bytes, top_here, waits_of};

use crate::heading::Heading;
use crate::top_line::TopLine;
use zfault::{Failed, Sink};

/// A sink that hands a text on as it is, or draws a line at the top of its screen.
#[derive(Drop)]
pub enum Headed<'a, 'h, W> {
    /// Text goes to this sink as it is.
    Plain(&'a mut W),
    /// A line is drawn.
    Drawn(TopLine<'a, 'h, W>),
}

impl<'a, 'h, W> Headed<'a, 'h, W> {
    /// A sink over this one, with a screen of so many columns, which isn't opened. With no width, or with less than 2 columns, no line is drawn.
    pub fn new(below: &'a mut W, heading: &'h Heading, width: Option<u16>) -> Headed<'a, 'h, W>
        ensures reference { below_name result ≡ below.entry.ghost_name }
        ensures below { below_of result ≡ below.old }
        ensures top { top_here result ≡ begins_with width }
    {
        match width {
            None | Some(0 | 1) => Headed::Plain(below),
            Some(width) => Headed::Drawn(TopLine::new(below, heading, width)),
        }
    }
}

impl<W: Sink> Headed<'_, '_, W> {
    /// Gives the whole screen back, if it was opened, and flushes the sink below.
    pub fn close(&mut self) -> Result<(), Failed>
        ensures through { HandsOn (waits_of W.waits self.old) (waits_of W.waits self.new) result }
        ensures handed { OnOk result (W.waits (below_of self.new) ≡ false) }
        ensures counts { CountsFailure (W.failures (below_of self.old)) (W.failures (below_of self.new)) result }
        ensures reference { below_name self.new ≡ below_name self.old }
        ensures ok { OnOk result (ClosesHere (W.contents (below_of self.old)) (W.contents (below_of self.new)) (top_here self.old) (top_here self.new)) }
        ensures err { OnErr result (ClosesShortHere (W.contents (below_of self.old)) (W.contents (below_of self.new)) (top_here self.old) (top_here self.new)) }
    {
        match self {
            Headed::Plain(below) => below.flush(),
            Headed::Drawn(top) => top.close(),
        }
    }
}

impl<W: Sink> Sink for Headed<'_, '_, W> {
    ghost contents = { λ headed. known_bytes (top_here headed) (W.contents (below_of headed)) };

    ghost failures = { λ headed. W.failures (below_of headed) };

    ghost waits = { λ headed. waits_of W.waits headed };

    /// Writes a piece, on a screen that was opened first.
    fn write(&mut self, piece: &[u8]) -> Result<usize, Failed>
        ensures bound { IfOk result (λ count. count ≤ length piece.now) }
        ensures takes { IfOk result (λ count. 0 < length piece.now → 0 < count) }
        ensures bytes { WriteAppends (known_bytes (top_here self.old) (W.contents (below_of self.old))) (known_bytes (top_here self.new) (W.contents (below_of self.new))) result piece.now }
        ensures waiting { LetsWait (waits_of W.waits self.old) (waits_of W.waits self.new) result piece.now }
        ensures counts { CountsFailure (W.failures (below_of self.old)) (W.failures (below_of self.new)) result }
        ensures reference { below_name self.new ≡ below_name self.old }
        ensures ok { IfOk result (λ count. 0 < length piece.now → TopsHere (W.contents (below_of self.old)) (W.contents (below_of self.new)) (top_here self.old) (top_here self.new) (take count piece.now)) }
        ensures err { OnErr result (TopsNoneHere (W.contents (below_of self.old)) (W.contents (below_of self.new)) (top_here self.old) (top_here self.new)) }
    {
        match self {
            Headed::Plain(below) => below.write(piece),
            Headed::Drawn(top) => top.write(piece),
        }
    }

    /// Draws the line, if one is drawn, and hands on what was taken.
    fn flush(&mut self) -> Result<(), Failed>
        ensures bytes { Keeps (known_bytes (top_here self.old) (W.contents (below_of self.old))) (known_bytes (top_here self.new) (W.contents (below_of self.new))) }
        ensures through { HandsOn (waits_of W.waits self.old) (waits_of W.waits self.new) result }
        ensures handed { OnOk result (W.waits (below_of self.new) ≡ false) }
        ensures counts { CountsFailure (W.failures (below_of self.old)) (W.failures (below_of self.new)) result }
        ensures reference { below_name self.new ≡ below_name self.old }
        ensures ok { OnOk result (FlushesHere (W.contents (below_of self.old)) (W.contents (below_of self.new)) (top_here self.old) (top_here self.new)) }
        ensures err { OnErr result (FlushesShortHere (W.contents (below_of self.old)) (W.contents (below_of self.new)) (top_here self.old) (top_here self.new)) }
    {
        match self {
            Headed::Plain(below) => below.flush(),
            Headed::Drawn(top) => top.flush(),
        }
    }
}
