//! A source behind another one.

ghost use Rattle.std.specs.Prelude.{◌≡◌, false};
ghost use Rattle.zfront.specs.Sources.{both_failures, both_left, first_of, has_ended, second_of};

use zfault::{Failed, Source};

/// A source that is read to its end, and then another one. A failure of either is one of its own.
#[derive(Drop)]
pub struct Followed<'a, A, B> {
    first: &'a mut A,
    second: &'a mut B,
    ended: bool,
}

impl<'a, A, B> Followed<'a, A, B> {
    /// The first source, and then the second one.
    pub fn new(first: &'a mut A, second: &'a mut B) -> Followed<'a, A, B>
        ensures first_is { result.first.ghost_name ≡ first.entry.ghost_name }
        ensures second_is { result.second.ghost_name ≡ second.entry.ghost_name }
        ensures first { first_of result ≡ first.old }
        ensures second { second_of result ≡ second.old }
        ensures ended { has_ended result ≡ false }
    {
        Followed {
            first,
            second,
            ended: false,
        }
    }

    /// Whether the first source has ended.
    pub fn has_ended(&self) -> bool
        ensures { result ≡ has_ended self.now }
    {
        self.ended
    }
}

impl<A: Source, B: Source> Source for Followed<'_, A, B> {
    ghost remaining = { λ followed. both_left (has_ended followed) (A.remaining (first_of followed)) (B.remaining (second_of followed)) };

    ghost failures = { λ followed. both_failures (A.failures (first_of followed)) (B.failures (second_of followed)) };

    /// Reads from the first source, and once that has ended from the second one.
    fn read(&mut self, buffer: &mut [u8]) -> Result<usize, Failed> {
        if buffer.is_empty() {
            return Ok(0);
        }
        if !self.ended {
            let count = self.first.read(buffer)?;
            if count > 0 {
                return Ok(count);
            }
            self.ended = true;
        }
        self.second.read(buffer)
    }
}
