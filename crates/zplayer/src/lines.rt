//! Lines of the player, from a source that may give more than a line at once.

ghost use Rattle.std.specs.Prelude.{◌≡◌, ◌<◌, ◌++◌, ◌∷◌, [], true, false, Ok, None, IfErr, IfOk, IsErrOf, MatchBool, length, option_to_list, take};
ghost use Rattle.std.specs.Io.KnownBytes.{Consumes, IsAtEnd, Keeps};
ghost use Rattle.zplayer.specs.Lines.{BlamesReader, Hears, KnowsEnd, Takes, line_of, unused, without_return};

use crate::end::PlayError;
use arrayvec::ArrayVec;
use std::marker::Model;
use zfault::{Failed, LINE_LIMIT, Line, Source};

/// The most bytes that are read at once.
const PIECE: usize = 256;

/// How many bytes of a line decide what is kept of it: one more than a line has, since the last may be a return.
const KEPT: usize = LINE_LIMIT + 1;

/// What ends a line.
#[derive(Clone, Copy, Debug, PartialEq, Eq)]
pub(crate) enum LineEnd {
    /// A byte 10.
    Newline,
    /// The end of the input.
    Input,
}

/// Bytes that were read ahead, in lines.
#[derive(Drop)]
pub struct Lines {
    piece: [u8; PIECE],
    /// The bytes of the piece from here to `to` aren't used yet.
    from: usize,
    to: usize,
    /// Whether the reader came to its end, which it isn't asked for again.
    ended: bool,
}

impl Model for Lines {
    ghost use Rattle.std.specs.Prelude.{◌≤◌, slice_range};
    ghost use Rattle.zplayer.specs.Lines.{Ahead};

    ghost Value = { Ahead };

    ghost view = { λ l. record { held = slice_range l.piece l.from l.to; ended = l.ended } };

    ghost invariant = { λ l. (l.from ≤ l.to) × (l.to ≤ 256) };
}

impl Lines {
    /// No byte was read yet.
    pub fn new() -> Lines
        ensures { result ≡ record { held = []; ended = false } }
    {
        Lines {
            piece: [0; PIECE],
            from: 0,
            to: 0,
            ended: false,
        }
    }

    /// The next line, if there is one: it goes up to a byte 10, or to the end of the input. What a line has beyond
    /// [`LINE_LIMIT`] bytes is dropped, and so is a byte 13 just before the 10.
    pub fn next_line<R: Source>(&mut self, reader: &mut R) -> Result<Option<Line>, PlayError>
        requires ended { KnowsEnd self.old (R.remaining reader.old) }
        ensures heard { IfOk result (λ line. Hears (unused self.old (R.remaining reader.old)) line (unused self.new (R.remaining reader.new))) }
        ensures reads { BlamesReader R.remaining R.failures reader.old reader.new self.new (IsErrOf result PlayError.Read) }
        ensures only { IfErr result (λ error. error ≡ PlayError.Read) }
    {
        let mut kept = ArrayVec::<u8, KEPT>::new();
        let mut turns = u64::MAX;
        'bytes: while turns > 0 {
            turns -= 1;
            if let Some(end) = self.take_byte(reader, &mut kept)? {
                return Ok(line_of(kept.as_slice(), end));
            }
        }
        // No reader gives so many bytes.
        Ok(line_of(kept.as_slice(), LineEnd::Input))
    }

    /// Takes a byte of a line over, if there is room for it, or finds the end of the line.
    fn take_byte<R: Source>(
        &mut self,
        reader: &mut R,
        kept: &mut ArrayVec<u8, KEPT>,
    ) -> Result<Option<LineEnd>, PlayError>
        requires ended { KnowsEnd self.old (R.remaining reader.old) }
        ensures taken { IfOk result (Takes (unused self.old (R.remaining reader.old)) (unused self.new (R.remaining reader.new)) kept.old.items kept.new.items) }
        ensures reads { BlamesReader R.remaining R.failures reader.old reader.new self.new (IsErrOf result PlayError.Read) }
        ensures only { IfErr result (λ error. error ≡ PlayError.Read) }
    {
        match self.next_byte(reader)? {
            Some(b'\n') => Ok(Some(LineEnd::Newline)),
            Some(byte) => {
                keep(kept, byte);
                Ok(None)
            }
            None => Ok(Some(LineEnd::Input)),
        }
    }

    /// The next byte, if there is one.
    #[tactic(auto, using(crate::proofs::ReadLemmas::one_taken, crate::proofs::ReadLemmas::none_left))]
    fn next_byte<R: Source>(&mut self, reader: &mut R) -> Result<Option<u8>, PlayError>
        requires ended { KnowsEnd self.old (R.remaining reader.old) }
        ensures bytes { IfOk result (λ byte. Consumes (unused self.old (R.remaining reader.old)) (unused self.new (R.remaining reader.new)) (option_to_list byte)) }
        ensures end { result ≡ Ok None → IsAtEnd (unused self.new (R.remaining reader.new)) }
        ensures reads { BlamesReader R.remaining R.failures reader.old reader.new self.new (IsErrOf result PlayError.Read) }
        ensures only { IfErr result (λ error. error ≡ PlayError.Read) }
    {
        if !self.has_byte(reader)? {
            return Ok(None);
        }
        Ok(Some(self.take()))
    }

    /// Takes the first of the bytes that were read ahead.
    fn take(&mut self) -> u8
        requires { 0 < length self.old.held }
        ensures first { self.old.held ≡ result ∷ self.new.held }
        ensures same { self.new.ended ≡ self.old.ended }
    {
        let byte = self.piece[self.from];
        self.from += 1;
        byte
    }

    /// Sees that there is a byte, if any is left.
    #[tactic(auto, using(crate::proofs::ReadLemmas::all_kept, crate::proofs::ReadLemmas::none_held))]
    fn has_byte<R: Source>(&mut self, reader: &mut R) -> Result<bool, PlayError>
        requires ended { KnowsEnd self.old (R.remaining reader.old) }
        ensures more { IfOk result (λ some. Keeps (unused self.old (R.remaining reader.old)) (unused self.new (R.remaining reader.new)) × MatchBool some (0 < length self.new.held) ((self.new.held ≡ []) × (self.new.ended ≡ true))) }
        ensures reads { BlamesReader R.remaining R.failures reader.old reader.new self.new (IsErrOf result PlayError.Read) }
        ensures only { IfErr result (λ error. error ≡ PlayError.Read) }
    {
        if self.from < self.to {
            return Ok(true);
        }
        self.fill(reader)
    }

    /// Reads more, and answers whether there is any. At the end of the input the reader isn't asked again.
    fn fill<R: Source>(&mut self, reader: &mut R) -> Result<bool, PlayError>
        requires empty { self.old.held ≡ [] }
        requires ended { KnowsEnd self.old (R.remaining reader.old) }
        ensures more { IfOk result (λ some. Keeps (R.remaining reader.old) (unused self.new (R.remaining reader.new)) × MatchBool some (0 < length self.new.held) ((self.new.held ≡ []) × (self.new.ended ≡ true))) }
        ensures asked_once { self.old.ended ≡ true → (result ≡ Ok false) × (reader.new ≡ reader.old) }
        ensures reads { BlamesReader R.remaining R.failures reader.old reader.new self.new (IsErrOf result PlayError.Read) }
        ensures only { IfErr result (λ error. error ≡ PlayError.Read) }
    {
        if self.ended {
            return Ok(false);
        }
        self.from = 0;
        self.to = 0;
        match reader.read(&mut self.piece) {
            Ok(count) => {
                self.to = count;
                self.ended = count == 0;
                Ok(count > 0)
            }
            Err(Failed) => Err(PlayError::Read),
        }
    }
}

/// Keeps a byte where there is room.
fn keep(kept: &mut ArrayVec<u8, KEPT>, byte: u8)
    ensures { kept.new.items ≡ take KEPT (kept.old.items ++ byte ∷ []) }
{
    if kept.is_full() {
        return;
    }
    kept.push(byte);
}

/// The line of which these bytes are kept, if it is one: the end of the input ends none without a byte.
fn line_of(kept: &[u8], end: LineEnd) -> Option<Line>
    ensures { result ≡ line_of kept.now end }
{
    match end {
        LineEnd::Newline => Some(Line::new(without_return(kept))),
        LineEnd::Input if kept.is_empty() => None,
        LineEnd::Input => Some(Line::new(kept)),
    }
}

/// A text without the return that may stand at its end.
fn without_return(text: &[u8]) -> &[u8]
    ensures { result.now ≡ without_return text.now }
{
    match text.last() {
        Some(b'\r') => &text[..text.len() - 1],
        _ => text,
    }
}
