//! Opcodes that the profile leaves out, which are passed over: their operands are read.

ghost use Rattle.std.specs.Prelude.{◌≡◌, ◌≤◌, IfOk, length, option_map};
ghost use Rattle.zcode.specs.Reading.{Gives, first_byte, operand_at, operands_at};
ghost use Rattle.zcode.specs.Spelling.{type_of, types_of};
ghost use Rattle.zlenient.specs.Nops.{nop_of, type_in};
ghost use Rattle.zlenient.specs.Step.{passed_at};

use arrayvec::ArrayVec;
use zcode::{DecodeError, Operand};

/// How many operands an instruction has at most (Z 4.4.3).
const MOST: usize = 4;

/// How an operand is written (Z 4.2).
#[derive(Clone, Copy)]
pub(crate) enum Kind {
    /// A constant of two bytes.
    Large,
    /// A constant of one byte.
    Small,
    /// A variable, by its number.
    Variable,
}

/// An opcode that is passed over: the operands that it reads, and the number of its bytes.
#[derive(Drop)]
pub(crate) struct Passed {
    pub(crate) operands: ArrayVec<Operand, MOST>,
    pub(crate) size: usize,
}

/// How the operand is written that two bits name, or `None` where they say that it is omitted.
fn kind_of(bits: u8) -> Option<Kind>
    ensures { option_map type_in result ≡ type_of bits }
{
    match bits {
        0 => Some(Kind::Large),
        1 => Some(Kind::Small),
        2 => Some(Kind::Variable),
        _ => None,
    }
}

/// The first of some bytes, and the bytes behind it.
fn first_byte(bytes: &[u8]) -> Result<(u8, &[u8]), DecodeError>
    ensures { Gives (λ x. (x.0, x.1.now)) result (first_byte bytes.now) }
{
    match bytes {
        [] => Err(DecodeError::Truncated),
        [first, rest @ ..] => Ok((*first, rest)),
    }
}

/// The operand at the front of some bytes, and the bytes behind it.
#[tactic(auto, unfolding(zcode::specs::Reading::operand_at))]
fn operand_at(kind: Kind, bytes: &[u8]) -> Result<(Operand, &[u8]), DecodeError>
    ensures { Gives (λ x. (x.0, x.1.now)) result (operand_at (type_in kind) bytes.now) }
{
    let (first, rest) = first_byte(bytes)?;
    match kind {
        Kind::Large => {
            let (low, rest) = first_byte(rest)?;
            Ok((Operand::Constant(u16::from_be_bytes([first, low])), rest))
        }
        Kind::Small => Ok((Operand::Constant(u16::from(first)), rest)),
        Kind::Variable => Ok((Operand::Variable(first), rest)),
    }
}

/// The operands of these types, as a type byte names them, and the bytes behind them.
#[tactic(auto, unfolding(zcode::specs::Reading::operands_at))]
fn operands_at(types: u8, bytes: &[u8]) -> Result<(ArrayVec<Operand, MOST>, &[u8]), DecodeError>
    ensures { Gives (λ x. (x.0.items, x.1.now)) result (operands_at (types_of types) bytes.now) }
{
    let mut operands = ArrayVec::new();
    let Some(first) = kind_of(types >> 6) else {
        return Ok((operands, bytes));
    };
    let (a, rest) = operand_at(first, bytes)?;
    operands.push(a);
    let Some(second) = kind_of((types >> 4) & 3) else {
        return Ok((operands, rest));
    };
    let (b, rest) = operand_at(second, rest)?;
    operands.push(b);
    let Some(third) = kind_of((types >> 2) & 3) else {
        return Ok((operands, rest));
    };
    let (c, rest) = operand_at(third, rest)?;
    operands.push(c);
    let Some(fourth) = kind_of(types & 3) else {
        return Ok((operands, rest));
    };
    let (d, rest) = operand_at(fourth, rest)?;
    operands.push(d);
    Ok((operands, rest))
}

/// What is passed over at the front of some bytes: an opcode's byte, a type byte, and the operands that it names (Z 4.3.3, 4.4.3).
#[tactic(auto, unfolding(crate::specs::Step::passed_at))]
pub(crate) fn passed_at(bytes: &[u8]) -> Result<Passed, DecodeError>
    ensures reads { Gives (λ p. nop_of p.operands.items p.size) result (passed_at bytes.now) }
    ensures short { IfOk result (λ p. p.size ≤ length bytes.now) }
    ensures few { IfOk result (λ p. length p.operands.items ≤ 4) }
{
    let (_opcode, rest) = first_byte(bytes)?;
    let (types, rest) = first_byte(rest)?;
    let (operands, rest) = operands_at(types, rest)?;
    let size = bytes.len().saturating_sub(rest.len());
    Ok(Passed { operands, size })
}
