//! A few bytes, in a fixed room.

ghost use Rattle.std.specs.Prelude.{◌≡◌, ◌≤◌, ◌++◌, [], ◌∷◌, length, map};
ghost use Rattle.zfront.specs.Frames.{cut};
ghost use Rattle.zfront.specs.Headings.{printable};

use std::marker::Model;

/// The most bytes of a side, as many as a `u8` counts.
const SIDE: usize = 255;

/// One side of a heading: what is longer is cut.
#[derive(Drop)]
pub(crate) struct Side {
    bytes: [u8; SIDE],
    count: u8,
}

impl Model for Side {
    ghost use Rattle.std.specs.Prelude.{List, ℕ, take};

    ghost Value = { List ℕ };

    ghost view = { λ side. take side.count side.bytes };
}

/// What a heading says.
#[derive(Drop)]
pub(crate) struct Title {
    pub(crate) name: Side,
    pub(crate) right: Side,
}

impl Title {
    /// The same title.
    pub(crate) fn copied(&self) -> Title
        ensures { result ≡ self.now }
    {
        Title {
            name: self.name.copied(),
            right: self.right.copied(),
        }
    }
}

impl Side {
    /// No byte.
    pub(crate) fn new() -> Side
        ensures { result ≡ [] }
    {
        Side {
            bytes: [b' '; SIDE],
            count: 0,
        }
    }

    /// The same bytes.
    pub(crate) fn copied(&self) -> Side
        ensures { result ≡ self.now }
    {
        Side {
            bytes: self.bytes,
            count: self.count,
        }
    }

    /// A byte more, if there is room for it.
    pub(crate) fn push(&mut self, byte: u8)
        ensures { self.new ≡ cut (self.old ++ byte ∷ []) }
    {
        if self.count < u8::MAX {
            self.bytes[usize::from(self.count)] = byte;
            self.count += 1;
        }
    }

    /// The bytes.
    pub(crate) fn bytes(&self) -> &[u8]
        ensures bytes { result.now ≡ self.now }
        ensures few { length result.now ≤ 255 }
    {
        &self.bytes[..usize::from(self.count)]
    }

    /// The bytes, such that have a column each.
    pub(crate) fn printable(&self) -> Side
        ensures { result ≡ map printable self.now }
    {
        let mut shown = Side::new();
        for byte in self.bytes() {
            shown.push(printable(*byte));
        }
        shown
    }
}

/// A byte as it is shown at the top: a space for one that is no character.
fn printable(byte: u8) -> u8
    ensures { result ≡ printable byte }
{
    if byte < b' ' || byte > b'~' {
        b' '
    } else {
        byte
    }
}
