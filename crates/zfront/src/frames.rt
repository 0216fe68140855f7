//! A sink that takes frames out of a text.

ghost use Rattle.std.specs.Prelude.{◌≡◌, ◌<◌, ◌≤◌, false, IfOk, None, OnErr, length, take, OnOk};
ghost use Rattle.std.specs.Io.KnownBytes.{Keeps, WriteAppends};
ghost use Rattle.zfault.specs.Devices.{CountsFailure, HandsOn, LetsWait};
ghost use Rattle.zfront.specs.FramedSinks.{frame_of, frames_below, frames_name, frames_wait};
ghost use Rattle.zfront.specs.Frames.{LeavesAll, LeavesFrames, no_frame};

use crate::framing::{Framing, text_length};
use crate::heading::Heading;
use zfault::{Failed, Sink};

/// A sink over another one, which gets of a text what is outside frames. What a whole frame says, a heading says from then on.
#[derive(Drop)]
pub struct Frames<'a, 'h, W> {
    below: &'a mut W,
    heading: &'h Heading,
    framing: Framing,
    waits: bool,
}

impl<'a, 'h, W> Frames<'a, 'h, W> {
    /// A sink over this one, outside frames, with nothing to flush.
    pub fn new(below: &'a mut W, heading: &'h Heading) -> Frames<'a, 'h, W>
        ensures reference { frames_name result ≡ below.entry.ghost_name }
        ensures below { frames_below result ≡ below.old }
        ensures frame { frame_of result ≡ no_frame }
        ensures flushed { frames_wait result ≡ false }
    {
        Frames {
            below,
            heading,
            framing: Framing::new(),
            waits: false,
        }
    }
}

impl<W: Sink> Sink for Frames<'_, '_, W> {
    ghost failures = { λ frames. W.failures (frames_below frames) };

    ghost waits = { λ frames. frames_wait frames };

    /// Writes what is in front of a frame, or takes a frame, or a beginning of one of both.
    fn write(&mut self, piece: &[u8]) -> Result<usize, Failed>
        ensures bound { IfOk result (λ count. count ≤ length piece.now) }
        ensures takes { IfOk result (λ count. 0 < length piece.now → 0 < count) }
        ensures bytes { WriteAppends None None result piece.now }
        ensures waiting { LetsWait (frames_wait self.old) (frames_wait self.new) result piece.now }
        ensures counts { CountsFailure (W.failures (frames_below self.old)) (W.failures (frames_below self.new)) result }
        ensures reference { frames_name self.new ≡ frames_name self.old }
        ensures ok { IfOk result (λ count. LeavesFrames (W.contents (frames_below self.old)) (W.contents (frames_below self.new)) (frame_of self.old) (frame_of self.new) (take count piece.now)) }
        ensures err { OnErr result (LeavesAll (W.contents (frames_below self.old)) (W.contents (frames_below self.new)) (frame_of self.old) (frame_of self.new)) }
    {
        if piece.is_empty() {
            return Ok(0);
        }
        let count = self.take(piece)?;
        self.waits = true;
        Ok(count)
    }

    fn flush(&mut self) -> Result<(), Failed>
        ensures bytes { Keeps None None }
        ensures through { HandsOn (frames_wait self.old) (frames_wait self.new) result }
        ensures handed { OnOk result (W.waits (frames_below self.new) ≡ false) }
        ensures counts { CountsFailure (W.failures (frames_below self.old)) (W.failures (frames_below self.new)) result }
        ensures reference { frames_name self.new ≡ frames_name self.old }
        ensures kept { LeavesAll (W.contents (frames_below self.old)) (W.contents (frames_below self.new)) (frame_of self.old) (frame_of self.new) }
    {
        self.below.flush()?;
        self.waits = false;
        Ok(())
    }
}

impl<W: Sink> Frames<'_, '_, W> {
    /// Takes a beginning of a piece that has bytes: text, or what is in a frame.
    fn take(&mut self, piece: &[u8]) -> Result<usize, Failed>
        requires some { 0 < length piece.now }
        ensures bound { IfOk result (λ count. count ≤ length piece.now) }
        ensures takes { IfOk result (λ count. 0 < count) }
        ensures counts { CountsFailure (W.failures (frames_below self.old)) (W.failures (frames_below self.new)) result }
        ensures reference { frames_name self.new ≡ frames_name self.old }
        ensures waits { frames_wait self.new ≡ frames_wait self.old }
        ensures ok { IfOk result (λ count. LeavesFrames (W.contents (frames_below self.old)) (W.contents (frames_below self.new)) (frame_of self.old) (frame_of self.new) (take count piece.now)) }
        ensures err { OnErr result (LeavesAll (W.contents (frames_below self.old)) (W.contents (frames_below self.new)) (frame_of self.old) (frame_of self.new)) }
    {
        if self.framing.is_outside() {
            let front = &piece[..text_length(piece)];
            if !front.is_empty() {
                let count = self.below.write(front)?;
                return Ok(count);
            }
        }
        let count = self.framing.read(piece);
        if self.framing.is_outside() {
            self.heading.says(self.framing.title());
        }
        Ok(count)
    }
}
