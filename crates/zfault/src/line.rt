//! A line of the player, kept with no allocation.

ghost use Rattle.std.specs.Prelude.{◌≡◌, ◌≤◌, ◌++◌, drop, length, take};

use std::marker::Model;

/// How many bytes of a line are kept (own): no text buffer of version 3 takes more (Z 15, sread).
pub const LINE_LIMIT: usize = 254;

/// What the player typed: at most [`LINE_LIMIT`] bytes, without the end of the line.
#[derive(Clone, Copy, Debug, PartialEq, Eq)]
pub struct Line {
    bytes: [u8; LINE_LIMIT],
    count: u8,
}

impl Model for Line {
    ghost use Rattle.std.specs.Prelude.{List, ℕ, length, take};
    ghost use Rattle.zfault.specs.Line.{IsPadded, padded, made_of_line};

    ghost Value = { List ℕ };

    ghost view = { λ line. take line.count line.bytes };

    ghost invariant = { λ line. IsPadded line.bytes line.count };

    ghost inverse = { λ bytes. record { bytes = padded bytes; count = length bytes } };

    ghost inverse_ok = { λ line is_padded.
        made_of_line (λ bytes count. record { bytes = bytes; count = count })
        line.bytes line.count is_padded };
}

impl Line {
    /// The first [`LINE_LIMIT`] bytes; the rest is dropped.
    pub fn new(bytes: &[u8]) -> Line
        ensures { result ≡ take LINE_LIMIT bytes.now }
    {
        let kept = &bytes[..bytes.len().min(LINE_LIMIT)];
        let mut padded = [0; LINE_LIMIT];
        copy_to_front(kept, &mut padded);
        Line {
            bytes: padded,
            count: kept.len() as u8,
        }
    }

    /// The bytes of the line.
    pub fn as_slice(&self) -> &[u8]
        ensures bytes { result.now ≡ self.now }
        ensures limit { length self.now ≤ LINE_LIMIT }
    {
        &self.bytes[..usize::from(self.count)]
    }
}

/// Copies a slice to the front of one that is at least as long.
fn copy_to_front(from: &[u8], to: &mut [u8])
    requires { length from.now ≤ length to.old }
    ensures { to.new ≡ from.now ++ drop (length from.now) to.old }
{
    to[..from.len()].copy_from_slice(from);
}
