//! A sink of which a copy is kept.

ghost use Rattle.std.specs.Option.{ghost_name_of, option_copied_mut};
ghost use Rattle.std.specs.Prelude.{◌≡◌, ◌<◌, ◌≤◌, true, IfOk, IsNone, length, option_and_then, option_map};
ghost use Rattle.std.specs.Io.KnownBytes.{Keeps, WriteAppends};
ghost use Rattle.zfault.specs.Devices.{CountsFailure, HandsOn, LetsWait};
ghost use Rattle.zfront.specs.Records.{EndsByFailure, Records};
ghost use Rattle.zfront.specs.Copies.{below_of, copy_name, copy_of, is_whole};

use crate::record::Record;
use zfault::{Failed, Sink};

/// A sink over another one, of which each byte that is taken goes to a second sink too, in the same call. Where that fails, the copy ends there:
/// what is written is taken all the same, and the second sink isn't asked again. With no second sink nothing is copied.
///
/// A flush is one of the sink below alone.
#[derive(Drop)]
pub struct Copied<'a, 'c, W, C> {
    below: &'a mut W,
    record: Record<'c, C>,
}

impl<'a, 'c, W, C> Copied<'a, 'c, W, C> {
    /// A sink over this one, with a copy that has all that was taken so far: nothing.
    pub fn new(below: &'a mut W, copy: Option<&'c mut C>) -> Copied<'a, 'c, W, C>
        ensures below_is { result.below.ghost_name ≡ below.entry.ghost_name }
        ensures copy_is { copy_name result ≡ ghost_name_of copy.entry }
        ensures below { below_of result ≡ below.old }
        ensures copied { copy_of result ≡ option_copied_mut copy.entry }
        ensures whole { is_whole result ≡ true }
    {
        let record = Record::new(copy);
        Copied { below, record }
    }

    /// Whether the copy has all that was taken. So it has where nothing is copied.
    pub fn is_whole(&self) -> bool
        ensures { result ≡ is_whole self.now }
    {
        self.record.is_whole()
    }
}

impl<W: Sink, C: Sink> Sink for Copied<'_, '_, W, C> {
    ghost contents = { λ copied. W.contents (below_of copied) };

    ghost failures = { λ copied. W.failures (below_of copied) };

    ghost waits = { λ copied. W.waits (below_of copied) };

    /// Writes to the sink below, and copies what that took.
    fn write(&mut self, piece: &[u8]) -> Result<usize, Failed>
        ensures bound { IfOk result (λ count. count ≤ length piece.now) }
        ensures takes { IfOk result (λ count. 0 < length piece.now → 0 < count) }
        ensures bytes { WriteAppends (W.contents (below_of self.old)) (W.contents (below_of self.new)) result piece.now }
        ensures waiting { LetsWait (W.waits (below_of self.old)) (W.waits (below_of self.new)) result piece.now }
        ensures counts { CountsFailure (W.failures (below_of self.old)) (W.failures (below_of self.new)) result }
        ensures below_is { self.new.below.ghost_name ≡ self.old.below.ghost_name }
        ensures copy_is { copy_name self.new ≡ copy_name self.old }
        ensures copied { Records (option_and_then C.contents (copy_of self.old)) (option_and_then C.contents (copy_of self.new)) (is_whole self.old) (is_whole self.new) result piece.now }
        ensures ends { EndsByFailure (option_map C.failures (copy_of self.old)) (option_map C.failures (copy_of self.new)) (is_whole self.old) (is_whole self.new) }
        ensures nowhere { IsNone (copy_of self.old) → is_whole self.new ≡ is_whole self.old }
    {
        let count = self.below.write(piece)?;
        self.record.keep(&piece[..count]);
        Ok(count)
    }

    /// Hands on what the sink below took. The copy isn't touched.
    fn flush(&mut self) -> Result<(), Failed>
        ensures bytes { Keeps (W.contents (below_of self.old)) (W.contents (below_of self.new)) }
        ensures through { HandsOn (W.waits (below_of self.old)) (W.waits (below_of self.new)) result }
        ensures counts { CountsFailure (W.failures (below_of self.old)) (W.failures (below_of self.new)) result }
        ensures below_is { self.new.below.ghost_name ≡ self.old.below.ghost_name }
        ensures copy_is { copy_name self.new ≡ copy_name self.old }
        ensures copied { copy_of self.new ≡ copy_of self.old }
        ensures whole { is_whole self.new ≡ is_whole self.old }
    {
        self.below.flush()
    }
}
