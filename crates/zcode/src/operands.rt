//! The operands of an instruction, kept in place.

ghost use Rattle.std.specs.Prelude.{◌≡◌, ◌≤◌, [], ◌∷◌};
ghost use Rattle.zcode.specs.Places.{IsByte, bits_of, operand_of, word_of};

use crate::instr::Operand;
use crate::types::{OperandType, type_of};
use arrayvec::ArrayVec;
use std::marker::Model;

/// How many operands an instruction has at most (Z 4.4.3).
pub(crate) const MOST: usize = 4;

/// Up to four operands, which contracts see as a list.
#[derive(Clone, Copy, Debug, PartialEq, Eq)]
pub(crate) struct Operands {
    /// The values of constants and the numbers of variables.
    words: [u16; MOST],
    /// Which of them they are, as a type byte names it, with each constant as one of two bytes.
    types: u8,
}

impl Model for Operands {
    ghost use Rattle.std.specs.Prelude.{◌≡◌, List};
    ghost use Rattle.zcode.specs.declared.instr.Operand.{Operand};
    ghost use Rattle.zcode.specs.Spelling.{types_of};
    ghost use Rattle.zcode.specs.Places.{padded, typed, type_byte};

    ghost Value = { List Operand };

    ghost view = { λ o. typed (types_of o.types) o.words };

    // What is unused is all alike, so that equal lists are equal values.
    ghost invariant = { λ o. (o.words ≡ padded (typed (types_of o.types) o.words)) × (o.types ≡ type_byte (typed (types_of o.types) o.words)) };

    ghost inverse = { λ operands. record { words = padded operands; types = type_byte operands } };
}

/// The value of a constant, or the number of a variable.
#[inline(always)]
fn word_of(operand: Operand) -> u16
    ensures value { result ≡ word_of operand }
    ensures byte { IsByte operand }
{
    match operand {
        Operand::Constant(value) => value,
        Operand::Variable(number) => u16::from(number),
    }
}

/// The two bits that name how an operand is kept.
#[inline(always)]
fn bits_of(operand: Operand) -> u8
    ensures value { result ≡ bits_of operand }
    ensures small { result ≤ 2 }
{
    match operand {
        Operand::Constant(_) => 0,
        Operand::Variable(_) => 2,
    }
}

/// The operand that a word of a type is.
#[inline(always)]
fn operand_of(operand_type: OperandType, word: u16) -> Operand
    ensures { result ≡ operand_of operand_type word }
{
    match operand_type {
        OperandType::Variable => Operand::Variable((word & 0xff) as u8),
        _ => Operand::Constant(word),
    }
}

impl Operands {
    /// No operand.
    #[inline(always)]
    pub(crate) fn none() -> Operands
        ensures { result ≡ [] }
    {
        Operands {
            words: [0; MOST],
            types: 0xff,
        }
    }

    /// One operand.
    #[inline(always)]
    pub(crate) fn one(a: Operand) -> Operands
        ensures { result ≡ a ∷ [] }
    {
        Operands {
            words: [word_of(a), 0, 0, 0],
            types: 64 * bits_of(a) + 0x3f,
        }
    }

    /// Two operands.
    #[inline(always)]
    pub(crate) fn two(a: Operand, b: Operand) -> Operands
        ensures { result ≡ a ∷ b ∷ [] }
    {
        Operands {
            words: [word_of(a), word_of(b), 0, 0],
            types: 64 * bits_of(a) + 16 * bits_of(b) + 0x0f,
        }
    }

    /// Three operands.
    #[inline(always)]
    pub(crate) fn three(a: Operand, b: Operand, c: Operand) -> Operands
        ensures { result ≡ a ∷ b ∷ c ∷ [] }
    {
        Operands {
            words: [word_of(a), word_of(b), word_of(c), 0],
            types: 64 * bits_of(a) + 16 * bits_of(b) + 4 * bits_of(c) + 3,
        }
    }

    /// Four operands.
    #[inline(always)]
    pub(crate) fn four(a: Operand, b: Operand, c: Operand, d: Operand) -> Operands
        ensures { result ≡ a ∷ b ∷ c ∷ d ∷ [] }
    {
        Operands {
            words: [word_of(a), word_of(b), word_of(c), word_of(d)],
            types: 64 * bits_of(a) + 16 * bits_of(b) + 4 * bits_of(c) + bits_of(d),
        }
    }

    /// The operands in order.
    pub(crate) fn list(&self) -> ArrayVec<Operand, MOST>
        ensures { result.items ≡ self.now }
    {
        let [a, b, c, d] = self.words;
        let mut list = ArrayVec::new();
        let Some(first) = type_of(self.types >> 6) else {
            return list;
        };
        list.push(operand_of(first, a));
        let Some(second) = type_of((self.types >> 4) & 3) else {
            return list;
        };
        list.push(operand_of(second, b));
        let Some(third) = type_of((self.types >> 2) & 3) else {
            return list;
        };
        list.push(operand_of(third, c));
        let Some(fourth) = type_of(self.types & 3) else {
            return list;
        };
        list.push(operand_of(fourth, d));
        list
    }
}
