//! What two words make.

ghost use Rattle.std.specs.Prelude.{◌≡◌, IsTrue};
ghost use Rattle.zword.specs.Binary.{apply, is_defined};

/// An operation that makes one word of two (Z 2.2, 2.3, 15).
#[derive(Clone, Copy, PartialEq, Eq)]
pub enum BinaryOp {
    /// The sum.
    Add,
    /// The first less the second.
    Sub,
    /// The product.
    Mul,
    /// The signed quotient, rounded toward zero.
    Div,
    /// What the signed quotient leaves: it has the sign of the first.
    Mod,
    /// The bits of either.
    Or,
    /// The bits of both.
    And,
}

impl BinaryOp {
    /// Whether there is a result by this second word: nothing is divided by 0 (Z 2.3.1).
    pub fn is_defined(self, second: u16) -> bool
        ensures { result ≡ is_defined self second }
    {
        match self {
            BinaryOp::Div | BinaryOp::Mod => second != 0,
            BinaryOp::Add | BinaryOp::Sub | BinaryOp::Mul | BinaryOp::Or | BinaryOp::And => true,
        }
    }

    /// The word that two words make. Sums, differences and products wrap at 65,536; so -32,768 by -1 is -32,768, and
    /// leaves 0.
    pub fn apply(self, first: u16, second: u16) -> u16
        requires { IsTrue (is_defined self second) }
        ensures { result ≡ apply self first second }
    {
        match self {
            BinaryOp::Add => first.wrapping_add(second),
            BinaryOp::Sub => first.wrapping_sub(second),
            BinaryOp::Mul => first.wrapping_mul(second),
            BinaryOp::Div => first
                .cast_signed()
                .wrapping_div(second.cast_signed())
                .cast_unsigned(),
            BinaryOp::Mod => first
                .cast_signed()
                .wrapping_rem(second.cast_signed())
                .cast_unsigned(),
            BinaryOp::Or => first | second,
            BinaryOp::And => first & second,
        }
    }
}
