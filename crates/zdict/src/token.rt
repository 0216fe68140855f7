//! The tokens of a line, one by one.

ghost use Rattle.std.specs.Prelude.{◌≡◌, ◌≤◌, length};

use crate::bytes::{spaces, token_length};

/// A token of a line.
#[derive(Clone, Copy, Debug)]
pub struct Token<'a> {
    /// The place of its first byte in the line, from 0.
    pub place: usize,
    /// Its bytes, which are a part of the line.
    pub bytes: &'a [u8],
}

/// The tokens of a line, in the order of their places.
#[derive(Clone, Copy, Debug)]
pub struct Tokens<'a> {
    separators: &'a [u8],
    line: &'a [u8],
    place: usize,
    ghost within: { place ≤ length line.now },
}

impl<'a> Tokens<'a> {
    ghost use Rattle.std.specs.Prelude.{false};
    ghost use Rattle.zdict.specs.Tokens.{tokens_from};
    ghost use Rattle.zdict.specs.Left.{tokens_left};

    /// All tokens of a line.
    pub(crate) fn new(separators: &'a [u8], line: &'a [u8]) -> Tokens<'a>
        ensures { tokens_left result ≡ tokens_from separators.now false 0 line.now }
    {
        Tokens {
            separators,
            line,
            place: 0,
        }
    }
}

impl<'a> Iterator for Tokens<'a> {
    ghost use Rattle.std.specs.Iterator.{YieldsFirstBy, item_count};
    ghost use Rattle.zdict.specs.Left.{tokens_left, span_of};

    type Item = Token<'a>;

    ghost next_gives = { YieldsFirstBy span_of tokens_left };

    ghost remaining = { item_count tokens_left };

    fn next(&mut self) -> Option<Token<'a>> {
        let place = self.place + spaces(&self.line[self.place..]);
        let rest = &self.line[place..];
        let length = token_length(self.separators, rest);
        self.place = place + length;
        if length == 0 {
            return None;
        }
        Some(Token {
            place,
            bytes: &rest[..length],
        })
    }
}
