//! A sink that tells the source's lines.

ghost use Rattle.std.specs.Prelude.{◌≡◌, ◌<◌, ◌≤◌, [], false, IfOk, None, OnErr, length, take, OnOk};
ghost use Rattle.std.specs.Io.KnownBytes.{Keeps, WriteAppends};
ghost use Rattle.zfault.specs.Devices.{CountsFailure, HandsOn, LetsWait};
ghost use Rattle.zfront.specs.Sourced.{known_of};
ghost use Rattle.zfront.specs.SourcedSinks.{lines_below, lines_known, lines_name, lines_untold, lines_wait};
ghost use Rattle.zfront.specs.ToldLines.{Flushes, GivesHeld, LetsPass, TakesNone, TakesPiece, nothing_untold};

use crate::ahead::line_length;
use crate::untold::Untold;
use std::alloc::Global;
use zdebug::DebugInfo;
use zfault::{Failed, Sink};

/// A sink over another one, which gets each line that is written with what debug information says of the source, once the line ends or a flush
/// comes. What it takes waits for that: a write takes nothing where it fails, so what was decided before is given out first.
///
/// Where memory is refused for a line, the line goes out as it is. A failure of the sink below is one of its own, and counts there.
#[derive(Drop)]
pub struct ToldLines<'a, 'i, W> {
    alloc: Global,
    below: &'a mut W,
    info: &'i DebugInfo,
    untold: Untold,
    waits: bool,
}

impl<'a, 'i, W> ToldLines<'a, 'i, W> {
    /// A sink over this one, which stands at the beginning of a line, with nothing to flush. It takes no memory.
    pub fn new(alloc: Global, below: &'a mut W, info: &'i DebugInfo) -> ToldLines<'a, 'i, W>
        ensures reference { lines_name result ≡ below.entry.ghost_name }
        ensures below { lines_below result ≡ below.old }
        ensures known { lines_known result ≡ known_of info.now }
        ensures untold { lines_untold result ≡ nothing_untold }
        ensures flushed { lines_wait result ≡ false }
    {
        ToldLines {
            alloc,
            below,
            info,
            untold: Untold::new(alloc),
            waits: false,
        }
    }
}

impl<W: Sink> Sink for ToldLines<'_, '_, W> {
    ghost failures = { λ lines. W.failures (lines_below lines) };

    ghost waits = { λ lines. lines_wait lines };

    /// Gives out what is decided, and takes the line at the front of the piece, or a beginning of one.
    #[tactic(auto, using(crate::proofs::Tellings::takes_none, crate::proofs::Tellings::takes_piece))]
    fn write(&mut self, piece: &[u8]) -> Result<usize, Failed>
        ensures bound { IfOk result (λ count. count ≤ length piece.now) }
        ensures takes { IfOk result (λ count. 0 < length piece.now → 0 < count) }
        ensures bytes { WriteAppends None None result piece.now }
        ensures waiting { LetsWait (lines_wait self.old) (lines_wait self.new) result piece.now }
        ensures counts { CountsFailure (W.failures (lines_below self.old)) (W.failures (lines_below self.new)) result }
        ensures reference { lines_name self.new ≡ lines_name self.old }
        ensures known { lines_known self.new ≡ lines_known self.old }
        ensures ok { IfOk result (λ count. 0 < length piece.now → TakesPiece (lines_known self.old) (W.contents (lines_below self.old)) (W.contents (lines_below self.new)) (lines_untold self.old) (lines_untold self.new) (take count piece.now)) }
        ensures err { OnErr result (TakesNone (W.contents (lines_below self.old)) (W.contents (lines_below self.new)) (lines_untold self.old) (lines_untold self.new)) }
        ensures none { length piece.now ≡ 0 → self.new ≡ self.old }
    {
        if piece.is_empty() {
            return Ok(0);
        }
        self.untold.give(&mut *self.below)?;
        let count = self.take(piece)?;
        self.waits = true;
        Ok(count)
    }

    /// Gives out all that was taken, what is held of a line too, and hands it on.
    #[tactic(auto, using(crate::proofs::Tellings::settles))]
    fn flush(&mut self) -> Result<(), Failed>
        ensures bytes { Keeps None None }
        ensures through { HandsOn (lines_wait self.old) (lines_wait self.new) result }
        ensures handed { OnOk result (W.waits (lines_below self.new) ≡ false) }
        ensures counts { CountsFailure (W.failures (lines_below self.old)) (W.failures (lines_below self.new)) result }
        ensures reference { lines_name self.new ≡ lines_name self.old }
        ensures known { lines_known self.new ≡ lines_known self.old }
        ensures flushes { Flushes (lines_known self.old) (W.contents (lines_below self.old)) (W.contents (lines_below self.new)) (lines_untold self.old) (lines_untold self.new) result }
    {
        self.untold.give(&mut *self.below)?;
        self.untold.settle(self.alloc, self.info);
        self.untold.give(&mut *self.below)?;
        self.below.flush()?;
        self.waits = false;
        Ok(())
    }
}

impl<W: Sink> ToldLines<'_, '_, W> {
    /// Takes the line at the front of the piece, or a beginning of one, where nothing decided is left.
    #[tactic(auto, using(crate::proofs::Tellings::holds, crate::proofs::Tellings::line_some))]
    fn take(&mut self, piece: &[u8]) -> Result<usize, Failed>
        requires nothing_decided { (lines_untold self.old).decided ≡ [] }
        requires some { 0 < length piece.now }
        ensures bound { IfOk result (λ count. count ≤ length piece.now) }
        ensures takes { IfOk result (λ count. 0 < count) }
        ensures counts { CountsFailure (W.failures (lines_below self.old)) (W.failures (lines_below self.new)) result }
        ensures reference { lines_name self.new ≡ lines_name self.old }
        ensures known { lines_known self.new ≡ lines_known self.old }
        ensures waits { lines_wait self.new ≡ lines_wait self.old }
        ensures ok { IfOk result (λ count. TakesPiece (lines_known self.old) (W.contents (lines_below self.old)) (W.contents (lines_below self.new)) (lines_untold self.old) (lines_untold self.new) (take count piece.now)) }
        ensures err { OnErr result (GivesHeld (W.contents (lines_below self.old)) (W.contents (lines_below self.new)) (lines_untold self.old) (lines_untold self.new)) }
    {
        if self.untold.is_passing() {
            return self.pass(piece);
        }
        match self.untold.hold(self.alloc, self.info, piece) {
            Ok(count) => Ok(count),
            Err(_) => self.pass(piece),
        }
    }

    /// Lets the line at the front of the piece, or a beginning of one, go out as it is.
    fn pass(&mut self, piece: &[u8]) -> Result<usize, Failed>
        requires nothing_decided { (lines_untold self.old).decided ≡ [] }
        requires some { 0 < length piece.now }
        ensures bound { IfOk result (λ count. count ≤ length piece.now) }
        ensures takes { IfOk result (λ count. 0 < count) }
        ensures counts { CountsFailure (W.failures (lines_below self.old)) (W.failures (lines_below self.new)) result }
        ensures reference { lines_name self.new ≡ lines_name self.old }
        ensures known { lines_known self.new ≡ lines_known self.old }
        ensures waits { lines_wait self.new ≡ lines_wait self.old }
        ensures ok { IfOk result (λ count. LetsPass (W.contents (lines_below self.old)) (W.contents (lines_below self.new)) (lines_untold self.old) (lines_untold self.new) (take count piece.now)) }
        ensures err { OnErr result (GivesHeld (W.contents (lines_below self.old)) (W.contents (lines_below self.new)) (lines_untold self.old) (lines_untold self.new)) }
    {
        self.untold.let_pass();
        self.untold.give(&mut *self.below)?;
        let line = &piece[..line_length(piece, piece.len())];
        let count = self.below.write(line)?;
        self.untold.passed(&line[..count]);
        Ok(count)
    }
}
