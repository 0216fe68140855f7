//! Frames, read byte by byte.

ghost use Rattle.std.specs.Prelude.{◌≡◌, ◌==◌, ◌≤◌, ◌<◌, [], Contains, length, take};
ghost use Rattle.std.specs.List.{position_or_len};
ghost use Rattle.zfront.specs.Frames.{BeginsFrame, behind_byte, frame_behind, is_outside, no_frame, outside};

use crate::place::Place;
use crate::side::{Side, Title};
use std::marker::Model;

/// The bytes at which a frame begins, at which its name ends, and at which it ends.
const BEGIN: u8 = 2;

const MIDDLE: u8 = 31;

const END: u8 = 3;

/// Where a text stands in a frame, and what that says so far, or what the last one said.
#[derive(Drop)]
pub(crate) struct Framing {
    place: Place,
    name: Side,
    right: Side,
}

impl Model for Framing {
    ghost use Rattle.zfront.specs.Frames.{Frame};

    ghost Value = { Frame };

    ghost view = { λ framing. record { place = framing.place; name = framing.name; right = framing.right } };
}

impl Framing {
    /// Outside, with no frame so far.
    pub(crate) fn new() -> Framing
        ensures { result ≡ no_frame }
    {
        Framing {
            place: Place::Outside,
            name: Side::new(),
            right: Side::new(),
        }
    }

    /// Whether it is outside frames.
    pub(crate) fn is_outside(&self) -> bool
        ensures { result ≡ is_outside self.now.place }
    {
        matches!(self.place, Place::Outside)
    }

    /// What the frame says.
    pub(crate) fn title(&self) -> Title
        ensures name { result.name ≡ self.now.name }
        ensures right { result.right ≡ self.now.right }
    {
        Title {
            name: self.name.copied(),
            right: self.right.copied(),
        }
    }

    /// Takes a byte.
    fn take(&mut self, byte: u8)
        ensures { self.new ≡ behind_byte self.old byte }
    {
        match self.place {
            Place::Outside if byte == BEGIN => {
                self.place = Place::Name;
                self.name = Side::new();
                self.right = Side::new();
            }
            Place::Outside => {}
            _ if byte == END => self.place = Place::Outside,
            Place::Name if byte == MIDDLE => self.place = Place::Right,
            Place::Name => self.name.push(byte),
            Place::Right => self.right.push(byte),
        }
    }

    /// Takes a beginning of a piece in a frame, or at the beginning of one, up to the end of that, and answers how many bytes.
    pub(crate) fn read(&mut self, piece: &[u8]) -> usize
        requires { BeginsFrame self.old piece.now }
        ensures within { result ≤ length piece.now }
        ensures some { 0 < length piece.now → 0 < result }
        ensures none { outside self.old (take result piece.now) ≡ [] }
        ensures frame { self.new ≡ frame_behind self.old (take result piece.now) }
    {
        for (at, byte) in piece.iter().enumerate() {
            self.take(*byte);
            if self.is_outside() {
                return at + 1;
            }
        }
        piece.len()
    }
}

/// How many bytes of a text are before the first frame.
pub(crate) fn text_length(piece: &[u8]) -> usize
    ensures count { result ≡ position_or_len (λ byte. byte == 2) piece.now }
    ensures within { result ≤ length piece.now }
{
    for (at, byte) in piece.iter().enumerate() {
        if *byte == BEGIN {
            return at;
        }
    }
    piece.len()
}
