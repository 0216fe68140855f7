//! What is told beside a text, on lines of its own.

ghost use Rattle.std.specs.Prelude.{◌≡◌, ◌<◌, ◌≤◌, [], false, IfOk, None, OnErr, length, take, OnOk};
ghost use Rattle.std.specs.Io.KnownBytes.{Keeps, WriteAppends};
ghost use Rattle.zfault.specs.Devices.{CountsFailure, HandsOn, LetsWait};
ghost use Rattle.zfront.specs.Cursors.{MayBegin, aside_below, waits_aside};

use crate::cursor::Cursor;
use zfault::{Failed, Sink, write_whole};

/// A sink over another one, which begins a line first where a cursor stands within one.
#[derive(Drop)]
pub struct Aside<'a, 'c, W> {
    below: &'a mut W,
    cursor: &'c Cursor,
    waits: bool,
}

impl<'a, 'c, W> Aside<'a, 'c, W> {
    /// A sink over this one, with nothing to flush.
    pub fn new(below: &'a mut W, cursor: &'c Cursor) -> Aside<'a, 'c, W>
        ensures below_is { result.below.ghost_name ≡ below.entry.ghost_name }
        ensures below { aside_below result ≡ below.old }
        ensures flushed { waits_aside result ≡ false }
    {
        Aside {
            below,
            cursor,
            waits: false,
        }
    }
}

impl<W: Sink> Sink for Aside<'_, '_, W> {
    ghost failures = { λ aside. W.failures (aside_below aside) };

    ghost waits = { λ aside. waits_aside aside };

    /// Writes a piece, behind an end of line where one is needed. What the sink below has of it is known but for that.
    fn write(&mut self, piece: &[u8]) -> Result<usize, Failed>
        ensures bound { IfOk result (λ count. count ≤ length piece.now) }
        ensures takes { IfOk result (λ count. 0 < length piece.now → 0 < count) }
        ensures bytes { WriteAppends None None result piece.now }
        ensures waiting { LetsWait (waits_aside self.old) (waits_aside self.new) result piece.now }
        ensures counts { CountsFailure (W.failures (aside_below self.old)) (W.failures (aside_below self.new)) result }
        ensures below_is { self.new.below.ghost_name ≡ self.old.below.ghost_name }
        ensures ok { IfOk result (λ count. MayBegin (W.contents (aside_below self.old)) (W.contents (aside_below self.new)) (take count piece.now)) }
        ensures err { OnErr result (MayBegin (W.contents (aside_below self.old)) (W.contents (aside_below self.new)) []) }
    {
        if piece.is_empty() {
            return Ok(0);
        }
        if self.cursor.is_within() {
            write_whole(&mut *self.below, b"\n")?;
            self.cursor.moves(b"\n");
        }
        let count = self.below.write(piece)?;
        self.cursor.moves(&piece[..count]);
        self.waits = true;
        Ok(count)
    }

    fn flush(&mut self) -> Result<(), Failed>
        ensures bytes { Keeps None None }
        ensures through { HandsOn (waits_aside self.old) (waits_aside self.new) result }
        ensures handed { OnOk result (W.waits (aside_below self.new) ≡ false) }
        ensures counts { CountsFailure (W.failures (aside_below self.old)) (W.failures (aside_below self.new)) result }
        ensures below_is { self.new.below.ghost_name ≡ self.old.below.ghost_name }
        ensures kept { Keeps (W.contents (aside_below self.old)) (W.contents (aside_below self.new)) }
    {
        self.below.flush()?;
        self.waits = false;
        Ok(())
    }
}
