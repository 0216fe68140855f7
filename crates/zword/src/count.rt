//! How a variable is counted.

ghost use Rattle.std.specs.Prelude.{◌≡◌};
ghost use Rattle.zword.specs.Count.{counted, counting};

use crate::binary::BinaryOp;

/// A way of counting a variable (Z 15).
#[derive(Clone, Copy, PartialEq, Eq)]
pub enum CountOp {
    /// Up by 1 (`inc`, `inc_chk`).
    Up,
    /// Down by 1 (`dec`, `dec_chk`).
    Down,
}

impl CountOp {
    /// The word that comes after a word: after 65,535 comes 0, and before 0 is 65,535.
    pub fn apply(self, word: u16) -> u16
        ensures { result ≡ counted self word }
    {
        match self {
            CountOp::Up => word.wrapping_add(1),
            CountOp::Down => word.wrapping_sub(1),
        }
    }

    /// The operation that counts, by a second word of 1.
    pub fn operation(self) -> BinaryOp
        ensures { result ≡ counting self }
    {
        match self {
            CountOp::Up => BinaryOp::Add,
            CountOp::Down => BinaryOp::Sub,
        }
    }
}
