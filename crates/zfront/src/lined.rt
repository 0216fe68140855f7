//! A source that gives a line at a time.

ghost use Rattle.std.specs.Prelude.{◌≡◌, ◌≤◌, ◌<◌, ◌++◌, [], IfOk, Ok, OnErr, length, take};
ghost use Rattle.std.specs.Io.KnownBytes.{ReadConsumes, prepend_known};
ghost use Rattle.zfault.specs.Devices.{ChangesFront, CountsFailure};
ghost use Rattle.zfront.specs.Lines.{held_of, source_of};
ghost use Rattle.zfront.specs.ReadAhead.{IsOneLine, line_within};

use crate::ahead::Ahead;
use zfault::{Failed, Source};

/// A source over another one that gives no more than one line at a time, with its end. What it read ahead of that it holds, and asks the source
/// below only when it holds nothing.
///
/// So what is recorded of a line, or copied of what is shown, stands where that line was used, also where many lines come at once, as through a
/// pipe: of a source that gave them all a record would have them all before the first was answered.
#[derive(Drop)]
pub struct Lined<'a, S> {
    source: &'a mut S,
    ahead: Ahead,
}

impl<'a, S> Lined<'a, S> {
    /// The source, of which nothing was read ahead.
    pub fn new(source: &'a mut S) -> Lined<'a, S>
        ensures source_is { result.source.ghost_name ≡ source.entry.ghost_name }
        ensures source { source_of result ≡ source.old }
        ensures held { held_of result ≡ [] }
    {
        Lined {
            source,
            ahead: Ahead::new(),
        }
    }
}

impl<S: Source> Source for Lined<'_, S> {
    ghost remaining = { λ lined. prepend_known (held_of lined) (S.remaining (source_of lined)) };

    ghost failures = { λ lined. S.failures (source_of lined) };

    /// Gives as much as the line at the front has, of what is held, and the buffer has room for. Where a line goes on behind what is held, the next
    /// read gives what follows.
    fn read(&mut self, buffer: &mut [u8]) -> Result<usize, Failed>
        ensures bound { IfOk result (λ count. count ≤ length buffer.new) }
        ensures no_room { length buffer.old ≡ 0 → (result ≡ Ok 0) × (self.new ≡ self.old) }
        ensures front { ChangesFront buffer.old buffer.new result }
        ensures bytes { ReadConsumes (prepend_known (held_of self.old) (S.remaining (source_of self.old))) (prepend_known (held_of self.new) (S.remaining (source_of self.new))) result buffer.new }
        ensures counts { CountsFailure (S.failures (source_of self.old)) (S.failures (source_of self.new)) result }
        ensures source_is { self.new.source.ghost_name ≡ self.old.source.ghost_name }

        // What is given is the line at the front of all that there was, or as much of it as there is room for.
        ensures line { IfOk result (λ count. take count buffer.new ≡ line_within (length buffer.new) (take count buffer.new ++ held_of self.new)) }
        ensures one_line { IfOk result (λ count. IsOneLine (take count buffer.new)) }

        // While something is held, that alone is given.
        ensures held { IfOk result (λ count. 0 < length (held_of self.old) → held_of self.old ≡ take count buffer.new ++ held_of self.new) }
        ensures unasked { 0 < length (held_of self.old) → source_of self.new ≡ source_of self.old }
        ensures err { OnErr result ((held_of self.old ≡ []) × (held_of self.new ≡ [])) }
    {
        if buffer.is_empty() {
            return Ok(0);
        }
        if self.ahead.is_empty() {
            self.ahead.read(&mut *self.source)?;
        }
        Ok(self.ahead.give(buffer))
    }
}
