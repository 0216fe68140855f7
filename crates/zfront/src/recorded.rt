//! A source that is recorded.

ghost use Rattle.std.specs.Option.{ghost_name_of, option_copied_mut};
ghost use Rattle.std.specs.Prelude.{◌≡◌, ◌≤◌, true, IfOk, IsNone, Ok, length, option_and_then, option_map};
ghost use Rattle.std.specs.Io.KnownBytes.{ReadConsumes};
ghost use Rattle.zfault.specs.Devices.{ChangesFront, CountsFailure};
ghost use Rattle.zfront.specs.Records.{EndsByFailure, Records};
ghost use Rattle.zfront.specs.Sources.{copy_name, copy_of, is_whole, source_of};

use crate::record::Record;
use zfault::{Failed, Sink, Source};

/// A source of which each byte that is read goes to a sink too, in the same call. Where that fails, the record ends there: what is read is given
/// all the same, and the sink isn't asked again. With no sink nothing is recorded.
#[derive(Drop)]
pub struct Recorded<'a, 'c, S, W> {
    source: &'a mut S,
    record: Record<'c, W>,
}

impl<'a, 'c, S, W> Recorded<'a, 'c, S, W> {
    /// The source, with a record that has all that was read so far: nothing.
    pub fn new(source: &'a mut S, copy: Option<&'c mut W>) -> Recorded<'a, 'c, S, W>
        ensures source_is { result.source.ghost_name ≡ source.entry.ghost_name }
        ensures copy_is { copy_name result ≡ ghost_name_of copy.entry }
        ensures source { source_of result ≡ source.old }
        ensures copied { copy_of result ≡ option_copied_mut copy.entry }
        ensures whole { is_whole result ≡ true }
    {
        let record = Record::new(copy);
        Recorded { source, record }
    }

    /// Whether the record has all that was read. So it has where nothing is recorded.
    pub fn is_whole(&self) -> bool
        ensures { result ≡ is_whole self.now }
    {
        self.record.is_whole()
    }
}

impl<S: Source, W: Sink> Source for Recorded<'_, '_, S, W> {
    ghost remaining = { λ recorded. S.remaining (source_of recorded) };

    ghost failures = { λ recorded. S.failures (source_of recorded) };

    /// Reads from the source, and records what it gave.
    fn read(&mut self, buffer: &mut [u8]) -> Result<usize, Failed>
        ensures bound { IfOk result (λ count. count ≤ length buffer.new) }
        ensures no_room { length buffer.old ≡ 0 → (result ≡ Ok 0) × (self.new ≡ self.old) }
        ensures front { ChangesFront buffer.old buffer.new result }
        ensures bytes { ReadConsumes (S.remaining (source_of self.old)) (S.remaining (source_of self.new)) result buffer.new }
        ensures counts { CountsFailure (S.failures (source_of self.old)) (S.failures (source_of self.new)) result }
        ensures source_is { self.new.source.ghost_name ≡ self.old.source.ghost_name }
        ensures copy_is { copy_name self.new ≡ copy_name self.old }
        ensures copied { Records (option_and_then W.contents (copy_of self.old)) (option_and_then W.contents (copy_of self.new)) (is_whole self.old) (is_whole self.new) result buffer.new }
        ensures ends { EndsByFailure (option_map W.failures (copy_of self.old)) (option_map W.failures (copy_of self.new)) (is_whole self.old) (is_whole self.new) }
        ensures nowhere { IsNone (copy_of self.old) → is_whole self.new ≡ is_whole self.old }
    {
        if buffer.is_empty() {
            return Ok(0);
        }
        let count = self.source.read(buffer)?;
        self.record.keep(&buffer[..count]);
        Ok(count)
    }
}
