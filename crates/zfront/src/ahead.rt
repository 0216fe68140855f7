//! Bytes that were read ahead.

ghost use Rattle.std.specs.Prelude.{◌≡◌, ◌<◌, ◌≤◌, ◌==◌, ◌++◌, [], IfSome, drop, length, nat_eq, position};
ghost use Rattle.zfault.specs.Devices.{CountsFailure};
ghost use Rattle.zfront.specs.ReadAhead.{ReadsAhead, line_within};

use std::marker::Model;
use zfault::{Failed, Source};

/// The most bytes that are read ahead.
const AHEAD: usize = 256;

/// Bytes of a source that were read ahead and aren't given yet.
#[derive(Drop)]
pub(crate) struct Ahead {
    bytes: [u8; AHEAD],
    /// The first one that isn't given.
    start: usize,
    /// The place behind the last one.
    end: usize,
}

impl Model for Ahead {
    ghost use Rattle.std.specs.Prelude.{List, ℕ, drop, take};
    ghost use Rattle.zfront.specs.ReadAhead.{IsAhead};

    ghost Value = { List ℕ };

    ghost view = { λ ahead. drop ahead.start (take ahead.end ahead.bytes) };

    ghost invariant = { λ ahead. IsAhead ahead.start ahead.end };
}

impl Ahead {
    /// None.
    pub(crate) fn new() -> Ahead
        ensures { result ≡ [] }
    {
        Ahead {
            bytes: [0; AHEAD],
            start: 0,
            end: 0,
        }
    }

    /// Whether there is none.
    pub(crate) fn is_empty(&self) -> bool
        ensures { result ≡ nat_eq (length self.now) 0 }
    {
        self.start == self.end
    }

    /// Reads some, where there was none.
    pub(crate) fn read<S: Source>(&mut self, source: &mut S) -> Result<(), Failed>
        requires { self.old ≡ [] }
        ensures bytes { ReadsAhead (S.remaining source.old) (S.remaining source.new) result self.new }
        ensures counts { CountsFailure (S.failures source.old) (S.failures source.new) result }
    {
        self.start = 0;
        self.end = 0;
        self.end = source.read(&mut self.bytes)?;
        Ok(())
    }

    /// All of them.
    fn held(&self) -> &[u8]
        ensures { result.now ≡ self.now }
    {
        &self.bytes[self.start..self.end]
    }

    /// Gives the line at the front, or as much of it as the buffer has room for.
    pub(crate) fn give(&mut self, buffer: &mut [u8]) -> usize
        ensures count { result ≡ length (line_within (length buffer.old) self.old) }
        ensures given { buffer.new ≡ line_within (length buffer.old) self.old ++ drop result buffer.old }
        ensures left { self.old ≡ line_within (length buffer.old) self.old ++ self.new }
    {
        let held = self.held();
        let count = line_length(held, buffer.len());
        buffer[..count].copy_from_slice(&held[..count]);
        self.start += count;
        count
    }
}

/// How long the line at the front is, with its end, or all where no line ends; of that as much as goes into so much room.
pub(crate) fn line_length(held: &[u8], room: usize) -> usize
    ensures count { result ≡ length (line_within room held.now) }
    ensures held { result ≤ length held.now }
    ensures fits { result ≤ room }
{
    let front = &held[..held.len().min(room)];
    match first_end(front) {
        Some(at) => at + 1,
        None => front.len(),
    }
}

/// Where the first line ends.
fn first_end(bytes: &[u8]) -> Option<usize>
    ensures place { result ≡ position (λ byte. byte == 10) bytes.now }
    ensures within { IfSome result (λ place. place < length bytes.now) }
{
    bytes.iter().position(|byte| *byte == b'\n')
}
