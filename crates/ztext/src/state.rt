//! What has begun of a text, kept as one number.

ghost use Rattle.std.specs.Prelude.{◌≡◌, ◌<◌, Some, None};
ghost use Rattle.ztext.specs.Begun.{IsBegun};
ghost use Rattle.ztext.specs.States.{byte_at_once};

use crate::pieces::{Alphabet, Begun};
use std::marker::Model;

/// What has begun of a text and isn't complete. It is kept as the place in a table from which on the next Z-character is
/// looked up, since text is decoded by the character. Contracts see what has begun.
#[derive(Drop)]
pub(crate) struct State {
    place: usize,
}

impl Model for State {
    ghost use Rattle.ztext.specs.declared.pieces.Begun.{Begun};
    ghost use Rattle.ztext.specs.States.{begun_at, IsPlace};

    ghost Value = { Begun };

    ghost view = { λ s. begun_at s.place };

    ghost invariant = { λ s. IsPlace s.place };
}

// Where each of what can have begun lies in the table. An escape with its high half is that half behind the last of them.
const SMALL: usize = 0;

const CAPITAL: usize = 32;

const MARK: usize = 64;

const BANK_1: usize = 96;

const ESCAPE: usize = 192;

const ESCAPE_HIGH: usize = 224;

// The byte that each Z-character prints at once, or 0 where it prints none or completes something longer. Each line has
// the 32 of an alphabet; all that follows is none.
const AT_ONCE: [u8; 288] = *b"\
\x20\0\0\0\0\0abcdefghijklmnopqrstuvwxyz\
\x20\0\0\0\0\0ABCDEFGHIJKLMNOPQRSTUVWXYZ\
\x20\0\0\0\0\0\0\n0123456789.,!?_#'\"/\\-:()\
\0\0\0\0\0\0\0\0\0\0\0\0\0\0\0\0\0\0\0\0\0\0\0\0\0\0\0\0\0\0\0\0\
\0\0\0\0\0\0\0\0\0\0\0\0\0\0\0\0\0\0\0\0\0\0\0\0\0\0\0\0\0\0\0\0\
\0\0\0\0\0\0\0\0\0\0\0\0\0\0\0\0\0\0\0\0\0\0\0\0\0\0\0\0\0\0\0\0\
\0\0\0\0\0\0\0\0\0\0\0\0\0\0\0\0\0\0\0\0\0\0\0\0\0\0\0\0\0\0\0\0\
\0\0\0\0\0\0\0\0\0\0\0\0\0\0\0\0\0\0\0\0\0\0\0\0\0\0\0\0\0\0\0\0\
\0\0\0\0\0\0\0\0\0\0\0\0\0\0\0\0\0\0\0\0\0\0\0\0\0\0\0\0\0\0\0\0";

impl State {
    ghost use Rattle.ztext.specs.declared.pieces.Begun.TheVariants.{Letter};
    ghost use Rattle.ztext.specs.declared.pieces.Alphabet.TheVariants.{Small};

    /// Where nothing has begun, as at the front of a text and behind a piece.
    pub(crate) fn start() -> State
        ensures { result ≡ Letter Small }
    {
        State { place: SMALL }
    }

    /// Where this has begun.
    pub(crate) fn new(begun: Begun) -> State
        requires { IsBegun begun }
        ensures { result ≡ begun }
    {
        let place = match begun {
            Begun::Letter(Alphabet::Small) => SMALL,
            Begun::Letter(Alphabet::Capital) => CAPITAL,
            Begun::Letter(Alphabet::Mark) => MARK,
            Begun::Bank(bank) => BANK_1 + 32 * (usize::from(bank) - 1),
            Begun::Escape => ESCAPE,
            Begun::EscapeHigh(high) => ESCAPE_HIGH + usize::from(high),
        };
        State { place }
    }

    /// What has begun.
    pub(crate) fn begun(&self) -> Begun
        ensures begun { result ≡ self.now }
        ensures is_begun { IsBegun result }
    {
        match self.place {
            SMALL => Begun::Letter(Alphabet::Small),
            CAPITAL => Begun::Letter(Alphabet::Capital),
            MARK => Begun::Letter(Alphabet::Mark),
            BANK_1..ESCAPE => Begun::Bank(((self.place - BANK_1) / 32 + 1) as u8),
            ESCAPE => Begun::Escape,
            _ => Begun::EscapeHigh((self.place - ESCAPE_HIGH) as u8),
        }
    }

    /// The byte that a Z-character prints at once, if any.
    #[tactic(auto, using(crate::proofs::Table::at_once))]
    pub(crate) fn byte_at_once(&self, z: u8) -> Option<u8>
        requires { z < 32 }
        ensures { result ≡ byte_at_once self.now z }
    {
        let byte = AT_ONCE[self.place + usize::from(z)];
        if byte == 0 { None } else { Some(byte) }
    }
}
