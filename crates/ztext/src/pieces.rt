//! The pieces of a text, one after another.

ghost use Rattle.std.specs.Prelude.{◌≡◌, ◌<◌, ◌≤◌, ℕ, List, [], ◌∷◌, ◌++◌, MatchOption};
ghost use Rattle.ztext.specs.Alphabets.{letter};
ghost use Rattle.ztext.specs.Words.{characters_in};
ghost use Rattle.ztext.specs.Pieces.{pieces_of};
ghost use Rattle.ztext.specs.Begun.{letters_of, shift_to, characters_begun, IsBegun, pieces_from, IsStep};

use crate::characters::Characters;
use std::marker::Model;

/// A piece of a text.
#[derive(Clone, Copy)]
pub(crate) enum Piece {
    /// A ZSCII code, of at most ten bits.
    Code(u16),
    /// The use of an abbreviation, by its number, 0 to 95.
    Abbreviation(u8),
}

// The three alphabets (Z 3.2.1).
#[derive(Clone, Copy, PartialEq, Eq)]
pub(crate) enum Alphabet {
    Small,
    Capital,
    Mark,
}

// What has begun and isn't complete.
#[derive(Clone, Copy)]
pub(crate) enum Begun {
    // no more than a shift: a letter would be one of this alphabet
    Letter(Alphabet),
    // an abbreviation of a bank, 1 to 3
    Bank(u8),
    // an escape, without its two halves
    Escape,
    // an escape with its high half
    EscapeHigh(u8),
}

// What a Z-character does.
pub(crate) enum Step {
    Completes(Piece),
    Begins(Begun),
}

// The codes of Z-characters 6 to 31 (Z 3.5.3). Of the marks the first begins an escape, and the second is a newline.
pub(crate) const SMALL_LETTERS: [u8; 26] = *b"abcdefghijklmnopqrstuvwxyz";

const CAPITAL_LETTERS: [u8; 26] = *b"ABCDEFGHIJKLMNOPQRSTUVWXYZ";

pub(crate) const MARKS: [u8; 26] = *b"\0\r0123456789.,!?_#'\"/\\-:()";

// What begins a text, and what follows a piece.
const NOTHING: Begun = Begun::Letter(Alphabet::Small);

impl Alphabet {
    // The code of a Z-character from 6 on.
    #[tactic(auto, unfolding(crate::specs::Alphabets::small_letters, crate::specs::Alphabets::capital_letters, crate::specs::Alphabets::marks))]
    fn letter(self, z: u8) -> u8
        requires from { 6 ≤ z }
        requires below { z < 32 }
        ensures { result ≡ letter (letters_of self) z }
    {
        let place = usize::from(z - 6);
        match self {
            Alphabet::Small => SMALL_LETTERS[place],
            Alphabet::Capital => CAPITAL_LETTERS[place],
            Alphabet::Mark => MARKS[place],
        }
    }

    // What a Z-character does where a letter would be one of this alphabet.
    fn step(self, z: u8) -> Step
        requires { z < 32 }
        ensures step { IsStep result }
        ensures pieces { (zs : List ℕ) → pieces_of (shift_to self ++ z ∷ zs) ≡ pieces_from result zs }
    {
        match z {
            0 => Step::Completes(Piece::Code(32)),
            1..=3 => Step::Begins(Begun::Bank(z)),
            4 => Step::Begins(Begun::Letter(Alphabet::Capital)),
            5 => Step::Begins(Begun::Letter(Alphabet::Mark)),
            6 if self == Alphabet::Mark => Step::Begins(Begun::Escape),
            _ => Step::Completes(Piece::Code(u16::from(self.letter(z)))),
        }
    }
}

impl Begun {
    /// What a Z-character does after what has begun.
    pub(crate) fn step(self, z: u8) -> Step
        requires begun { IsBegun self }
        requires below { z < 32 }
        ensures step { IsStep result }
        ensures pieces { (zs : List ℕ) → pieces_of (characters_begun self ++ z ∷ zs) ≡ pieces_from result zs }
    {
        match self {
            Begun::Letter(alphabet) => alphabet.step(z),
            Begun::Bank(bank) => Step::Completes(Piece::Abbreviation(32 * (bank - 1) + z)),
            Begun::Escape => Step::Begins(Begun::EscapeHigh(z)),
            Begun::EscapeHigh(high) => {
                Step::Completes(Piece::Code(32 * u16::from(high) + u16::from(z)))
            }
        }
    }
}

/// The pieces that are left of a text. Contracts see their list.
#[derive(Drop)]
pub(crate) struct Pieces<'a> {
    characters: Characters<'a>,
    begun: Begun,
}

impl<'a> Model for Pieces<'a> {
    ghost use Rattle.std.specs.Prelude.{List, ◌++◌};
    ghost use Rattle.ztext.specs.declared.pieces.Piece.{Piece};
    ghost use Rattle.ztext.specs.Pieces.{pieces_of};
    ghost use Rattle.ztext.specs.Begun.{characters_begun, IsBegun};

    ghost Value = { List Piece };

    ghost view = { λ p. pieces_of (characters_begun p.begun ++ p.characters) };

    ghost invariant = { λ p. IsBegun p.begun };
}

impl<'a> Pieces<'a> {
    /// Those of a text's bytes.
    pub(crate) fn new(text: &'a [u8]) -> Pieces<'a>
        ensures { result ≡ pieces_of (characters_in text.now) }
    {
        Pieces {
            characters: Characters::new(text),
            begun: NOTHING,
        }
    }

    /// The next one. What is unfinished at the end is ignored.
    pub(crate) fn next_piece(&mut self) -> Option<Piece>
        ensures { MatchOption result (self.old ≡ []) (λ piece. self.old ≡ piece ∷ self.new) }
    {
        while let Some(z) = self.characters.next_character() {
            match self.begun.step(z) {
                Step::Completes(piece) => {
                    self.begun = NOTHING;
                    return Some(piece);
                }
                Step::Begins(begun) => self.begun = begun,
            }
        }
        None
    }
}
