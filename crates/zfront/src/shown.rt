//! Devices that move a cursor.

ghost use Rattle.std.specs.Prelude.{◌≡◌, ◌<◌, ◌≤◌, IfOk, Ok, length};
ghost use Rattle.std.specs.Io.KnownBytes.{Keeps, ReadConsumes, WriteAppends};
ghost use Rattle.zfault.specs.Devices.{ChangesFront, CountsFailure, HandsOn, LetsWait};
ghost use Rattle.zfront.specs.Cursors.{shown_below, typed_from};

use crate::cursor::Cursor;
use zfault::{Failed, Sink, Source};

/// A sink over another one, by whose bytes a cursor moves.
#[derive(Drop)]
pub struct Shown<'a, 'c, W> {
    below: &'a mut W,
    cursor: &'c Cursor,
}

impl<'a, 'c, W> Shown<'a, 'c, W> {
    /// A sink over this one.
    pub fn new(below: &'a mut W, cursor: &'c Cursor) -> Shown<'a, 'c, W>
        ensures below_is { result.below.ghost_name ≡ below.entry.ghost_name }
        ensures below { shown_below result ≡ below.old }
    {
        Shown { below, cursor }
    }
}

impl<W: Sink> Sink for Shown<'_, '_, W> {
    ghost contents = { λ shown. W.contents (shown_below shown) };

    ghost failures = { λ shown. W.failures (shown_below shown) };

    ghost waits = { λ shown. W.waits (shown_below shown) };

    fn write(&mut self, piece: &[u8]) -> Result<usize, Failed>
        ensures bound { IfOk result (λ count. count ≤ length piece.now) }
        ensures takes { IfOk result (λ count. 0 < length piece.now → 0 < count) }
        ensures bytes { WriteAppends (W.contents (shown_below self.old)) (W.contents (shown_below self.new)) result piece.now }
        ensures waiting { LetsWait (W.waits (shown_below self.old)) (W.waits (shown_below self.new)) result piece.now }
        ensures counts { CountsFailure (W.failures (shown_below self.old)) (W.failures (shown_below self.new)) result }
        ensures below_is { self.new.below.ghost_name ≡ self.old.below.ghost_name }
    {
        let count = self.below.write(piece)?;
        self.cursor.moves(&piece[..count]);
        Ok(count)
    }

    fn flush(&mut self) -> Result<(), Failed>
        ensures bytes { Keeps (W.contents (shown_below self.old)) (W.contents (shown_below self.new)) }
        ensures through { HandsOn (W.waits (shown_below self.old)) (W.waits (shown_below self.new)) result }
        ensures counts { CountsFailure (W.failures (shown_below self.old)) (W.failures (shown_below self.new)) result }
        ensures below_is { self.new.below.ghost_name ≡ self.old.below.ghost_name }
    {
        self.below.flush()
    }
}

/// A source over another one, by whose bytes a cursor moves: those that are typed are shown.
#[derive(Drop)]
pub struct Typed<'a, 'c, S> {
    source: &'a mut S,
    cursor: &'c Cursor,
}

impl<'a, 'c, S> Typed<'a, 'c, S> {
    /// A source over this one.
    pub fn new(source: &'a mut S, cursor: &'c Cursor) -> Typed<'a, 'c, S>
        ensures source_is { result.source.ghost_name ≡ source.entry.ghost_name }
        ensures source { typed_from result ≡ source.old }
    {
        Typed { source, cursor }
    }
}

impl<S: Source> Source for Typed<'_, '_, S> {
    ghost remaining = { λ typed. S.remaining (typed_from typed) };

    ghost failures = { λ typed. S.failures (typed_from typed) };

    fn read(&mut self, buffer: &mut [u8]) -> Result<usize, Failed>
        ensures bound { IfOk result (λ count. count ≤ length buffer.new) }
        ensures no_room { length buffer.old ≡ 0 → (result ≡ Ok 0) × (self.new ≡ self.old) }
        ensures front { ChangesFront buffer.old buffer.new result }
        ensures bytes { ReadConsumes (S.remaining (typed_from self.old)) (S.remaining (typed_from self.new)) result buffer.new }
        ensures counts { CountsFailure (S.failures (typed_from self.old)) (S.failures (typed_from self.new)) result }
        ensures source_is { self.new.source.ghost_name ≡ self.old.source.ghost_name }
    {
        if buffer.is_empty() {
            return Ok(0);
        }
        let count = self.source.read(buffer)?;
        self.cursor.moves(&buffer[..count]);
        Ok(count)
    }
}
