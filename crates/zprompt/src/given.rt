//! A line that is given to a story.

ghost use Rattle.std.specs.Prelude.{◌≡◌, Some};
ghost use Rattle.zprompt.specs.Given.{given_of};

use zfault::{Failed, Source};

/// A source of these bytes alone, which never fails. At its end play stands at the next prompt.
#[derive(Drop)]
pub(crate) struct Given<'a> {
    rest: &'a [u8],
}

impl<'a> Given<'a> {
    /// The source of these bytes.
    pub(crate) fn new(bytes: &'a [u8]) -> Given<'a>
        ensures { result.rest ≡ bytes.entry }
    {
        Given { rest: bytes }
    }
}

impl Source for Given<'_> {
    ghost remaining = { λ given. Some given.rest.now };

    ghost failures = { λ _. 0 };

    fn read(&mut self, buffer: &mut [u8]) -> Result<usize, Failed> {
        let count = buffer.len().min(self.rest.len());
        buffer[..count].copy_from_slice(&self.rest[..count]);
        self.rest = &self.rest[count..];
        Ok(count)
    }
}

/// The bytes of which a player reads this line: its own, and of an empty one its end.
pub(crate) fn given_of(line: &[u8]) -> &[u8]
    ensures { result.now ≡ given_of line.now }
{
    if line.is_empty() { b"\n" } else { line }
}
